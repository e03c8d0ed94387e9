// Leaves filed again.
use crate::puts::{Put, buffer};
use leaves::{END_SIZE, Entry, HEADING_SIZE};
use reading::Leaf;
use rows::{Fault, Refusal};
use std::alloc::{AllocError, Global};
use std::iter;
use writing::{FindingsLeaf, RowsLeaf, begin, file};

/// Files entries, each by a call of its own, into a buffer as long as the bytes that they came from.
pub(crate) fn file_in_turn<'a>(
    alloc: Global,
    bytes: &'a [u8],
    entries: &[Entry],
) -> Result<Put<'a>, AllocError> {
    let mut buffer = buffer(alloc, bytes.len())?;
    Ok(Put {
        about: bytes,
        answered: put_in_turn(entries, &mut buffer),
        buffer,
    })
}

// Files the heading, the rows, the findings and the end. Answers how many bytes these have.
fn put_in_turn(entries: &[Entry], buffer: &mut [u8]) -> Result<usize, Fault> {
    let Some(Entry::Heading(heading)) = entries.first().copied() else {
        return Err(Refusal::OutOfTurn.at(0));
    };
    let mut leaf = begin(heading, buffer)?;
    put_rows(&mut leaf, entries, buffer)?;
    let mut leaf = leaf.turn();
    put_findings(&mut leaf, entries, buffer)?;
    let leaf = leaf.close(buffer)?;
    Ok(leaf.phase().place() as usize)
}

// Files the rows among some entries, in their order.
fn put_rows(leaf: &mut RowsLeaf, entries: &[Entry], buffer: &mut [u8]) -> Result<(), Fault> {
    for entry in entries {
        if let Entry::Row(row) = entry {
            leaf.row(row, buffer)?;
        }
    }
    Ok(())
}

// Files the findings among some entries, in their order.
fn put_findings(
    leaf: &mut FindingsLeaf,
    entries: &[Entry],
    buffer: &mut [u8],
) -> Result<(), Fault> {
    for entry in entries {
        if let Entry::Finding(finding) = entry {
            leaf.finding(finding, buffer)?;
        }
    }
    Ok(())
}

/// Files by one call what a leaf holds past its last rank, at each of its ranks, and at 0, into a buffer
/// as long as the bytes that it was read from. In this order ranks that are one too low or too high are
/// seen, though nothing is to be past the last and at 0.
pub(crate) fn file_whole<'a>(
    alloc: Global,
    bytes: &'a [u8],
    leaf: &Leaf<'_>,
) -> Result<Put<'a>, AllocError> {
    let mut rows = Vec::new(alloc);
    let mut findings = Vec::new(alloc);
    let last = leaf.len();
    let past = last.saturating_add(1);
    for rank in iter::once(past).chain(1..=last).chain(iter::once(0)) {
        if let Some(row) = leaf.row(rank) {
            rows.push(row)?;
        }
        if let Some(finding) = leaf.finding(rank) {
            findings.push(finding)?;
        }
    }
    let mut buffer = buffer(alloc, bytes.len())?;
    Ok(Put {
        about: bytes,
        answered: file(leaf.heading(), &rows, &findings, &mut buffer),
        buffer,
    })
}

/// The bytes that a leaf was read from, with the runs of rows and of findings that it gives between
/// the heading and the end.
pub(crate) fn with_runs<'a>(
    alloc: Global,
    bytes: &'a [u8],
    leaf: &Leaf<'_>,
) -> Result<Put<'a>, AllocError> {
    let end = bytes.len().saturating_sub(1 + END_SIZE);
    let mut joined = Vec::new(alloc);
    joined.extend_from_slice(bytes.get(..1 + HEADING_SIZE).unwrap_or(&[]))?;
    joined.extend_from_slice(leaf.row_bytes())?;
    joined.extend_from_slice(leaf.finding_bytes())?;
    joined.extend_from_slice(bytes.get(end..).unwrap_or(&[]))?;
    Ok(Put {
        about: bytes,
        answered: Ok(joined.len()),
        buffer: joined,
    })
}

// What is answered to a string of bytes as a leaf.
ghost use Rattle.std.specs.Prelude.{◌<◌, length};

use crate::filing::{file_in_turn, file_whole, with_runs};
use crate::puts::Put;
use crate::told::{OrNone, ToldAnswer};
use leaves::{Entry, HeadingNumbers};
use reading::{Reader, read};
use rows::{Fault, FrameNumbers, Numbers};
use std::alloc::{AllocError, Global};
use std::fmt;
use std::io::Write;

/// Prints what is answered to bytes that are read entry by entry, what the reader answers when it is
/// asked once more, and what is answered to the bytes as a whole.
pub(crate) fn answer_leaf<W: Write + Drop>(
    alloc: Global,
    bytes: &[u8],
    writer: &mut W,
) -> anyhow::Result<()> {
    let mut reader = Reader::new(bytes);
    let entries = ToldAnswer(entry_by_entry(alloc, bytes, &mut reader)?);
    let again = ToldAnswer(
        reader
            .next_entry()
            .map(|entry| OrNone(entry.map(EntryWords))),
    );
    let whole = ToldAnswer(as_a_whole(alloc, bytes)?);
    writeln!(writer, "{entries}, {again}, {whole}")?;
    Ok(())
}

/// Prints what is answered to bytes cut at every length, the last of which is their own.
pub(crate) fn answer_cuts<W: Write + Drop>(
    alloc: Global,
    bytes: &[u8],
    writer: &mut W,
) -> anyhow::Result<()> {
    for length in 0..=bytes.len() {
        answer_leaf(alloc, &bytes[..length], writer)?;
    }
    Ok(())
}

/// Prints what is answered to bytes of which each in turn is changed to every value.
pub(crate) fn answer_changes<W: Write + Drop>(
    alloc: Global,
    bytes: &[u8],
    writer: &mut W,
) -> anyhow::Result<()> {
    for offset in 0..bytes.len() {
        answer_values(alloc, bytes, offset, writer)?;
    }
    Ok(())
}

// Prints what is answered to bytes of which the one at an offset is changed to every value.
fn answer_values<W: Write + Drop>(
    alloc: Global,
    bytes: &[u8],
    offset: usize,
    writer: &mut W,
) -> anyhow::Result<()>
    requires { offset < length bytes.now }
{
    for value in 0..=u8::MAX {
        let mut changed = Vec::from_slice(alloc, bytes)?;
        changed[offset] = value;
        answer_leaf(alloc, &changed, writer)?;
    }
    Ok(())
}

// Entries that came one after the other, and what they are filed as.
#[derive(Drop)]
struct Entries<'a> {
    list: Vec<Entry>,
    filed: Put<'a>,
}

// What a reader gives up to the end, or its refusal.
fn entry_by_entry<'a>(
    alloc: Global,
    bytes: &'a [u8],
    reader: &mut Reader<'a>,
) -> Result<Result<Entries<'a>, Fault>, AllocError> {
    let mut list = Vec::new(alloc);
    loop {
        let next = match reader.next_entry() {
            Ok(next) => next,
            Err(fault) => return Ok(Err(fault)),
        };
        let Some(entry) = next else {
            break;
        };
        list.push(entry)?;
    }
    let filed = file_in_turn(alloc, bytes, &list)?;
    Ok(Ok(Entries { list, filed }))
}

// Each entry, and the bytes that they are filed as.
impl fmt::Display for Entries<'_> {
    fn fmt<W: fmt::Write>(&self, f: &mut fmt::Formatter<W>) -> fmt::Result {
        for entry in &self.list {
            let words = EntryWords(*entry);
            write!(f, "{words} ")?;
        }
        let filed = &self.filed;
        write!(f, "{filed}")
    }
}

// What a leaf holds, as it is filed, and as its bytes.
#[derive(Drop)]
struct Whole<'a> {
    filed: Put<'a>,
    joined: Put<'a>,
}

// What is read from the bytes as a whole, or the refusal.
fn as_a_whole(alloc: Global, bytes: &[u8]) -> Result<Result<Whole<'_>, Fault>, AllocError> {
    match read(bytes) {
        Ok(leaf) => Ok(Ok(Whole {
            filed: file_whole(alloc, bytes, &leaf)?,
            joined: with_runs(alloc, bytes, &leaf)?,
        })),
        Err(fault) => Ok(Err(fault)),
    }
}

// The bytes that it is filed as, and those with its runs of rows and findings.
impl fmt::Display for Whole<'_> {
    fn fmt<W: fmt::Write>(&self, f: &mut fmt::Formatter<W>) -> fmt::Result {
        let filed = &self.filed;
        let joined = &self.joined;
        write!(f, "{filed} {joined}")
    }
}

// An entry.
#[derive(Clone, Copy)]
struct EntryWords(Entry);

// The letter of the entry and its numbers: those of the heading as they are filed, and of a finding
// the first rest, 0 where the row misses, and the points.
impl fmt::Display for EntryWords {
    fn fmt<W: fmt::Write>(&self, f: &mut fmt::Formatter<W>) -> fmt::Result {
        match self.0 {
            Entry::Heading(heading) => {
                let HeadingNumbers {
                    frame: FrameNumbers { ticks },
                    bound,
                    accuracy,
                } = heading.numbers();
                write!(f, "F {ticks} {bound} {accuracy}")
            }
            Entry::Row(row) => {
                let Numbers {
                    work,
                    deadline,
                    period,
                    jitter,
                } = row.numbers();
                write!(f, "R {work} {deadline} {period} {jitter}")
            }
            Entry::Finding(finding) => {
                let rest = finding.verdict.rest().unwrap_or(0);
                let points = finding.points;
                write!(f, "A {rest} {points}")
            }
            Entry::End(entries) => write!(f, "Z {entries}"),
        }
    }
}

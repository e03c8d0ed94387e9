// Leaves written entry by entry: each refusal at the first and at the last place that it can have,
// and what is left behind.
use crate::agreeing::agree;
use crate::building::{heading, meets, row};
use reading::Phase;
use rows::{Fault, Finding, HORIZON, Refusal, Row, Verdict};
use std::test::Fail;
use writing::{ClosedLeaf, FindingsLeaf, RowsLeaf, begin_numbers};

// The first bytes of a buffer.
fn front(buffer: &mut [u8], size: usize) -> &mut [u8] {
    let size = size.min(buffer.len());
    &mut buffer[..size]
}

// A leaf on a frame of 12 with so many rows, each filed where no byte is to spare.
fn with_rows(rows: usize, buffer: &mut [u8]) -> Result<RowsLeaf, Fault> {
    let on = row(1, 4, 4, 0);
    let mut leaf = begin_numbers(heading(12, 1, 3), front(buffer, 7))?;
    for _ in 0..rows {
        let end = leaf.phase().place() as usize + 17;
        leaf.row(&on, front(buffer, end))?;
    }
    Ok(leaf)
}

// A leaf on a frame of 12 with so many rows and findings, each filed where no byte is to spare.
fn with_findings(rows: usize, findings: usize, buffer: &mut [u8]) -> Result<FindingsLeaf, Fault> {
    let mut leaf = with_rows(rows, buffer)?.turn();
    let rest = meets(HORIZON, 1);
    for _ in 0..findings {
        let end = leaf.phase().place() as usize + 9;
        leaf.finding(&rest, front(buffer, end))?;
    }
    Ok(leaf)
}

// Where a leaf stands that is begun with a heading and so many bytes of room, and its buffer.
fn begun(frame: u32, bound: u8, accuracy: u8, size: usize) -> (Result<u32, Fault>, [u8; 7]) {
    let mut buffer = [0xEE; 7];
    let answer = match begin_numbers(heading(frame, bound, accuracy), &mut buffer[..size.min(7)]) {
        Ok(leaf) => Ok(leaf.phase().place()),
        Err(fault) => Err(fault),
    };
    (answer, buffer)
}

// A heading each, the bytes of room and the refusal.
static HEADINGS: [(u32, u8, u8, usize, Refusal); 8] = [
    (0, 3, 65, 0, Refusal::BadFrame),
    (HORIZON + 1, 1, 3, 7, Refusal::BadFrame),
    (12, 3, 65, 0, Refusal::UnknownBound),
    (12, 2, 0, 0, Refusal::BadAccuracy),
    (12, 0, 1, 0, Refusal::BadAccuracy),
    (12, 1, 65, 0, Refusal::BadAccuracy),
    (12, 1, 3, 0, Refusal::ShortBuffer),
    (12, 1, 3, 6, Refusal::ShortBuffer),
];

// A heading is judged before its room. A byte too few refuses, and no byte too few does not.
#[test]
fn headings(rt: HostRuntime) {
    for &(frame, bound, accuracy, size, refusal) in &HEADINGS {
        let answer = begun(frame, bound, accuracy, size);
        agree(&rt, answer, (Err(refusal.at(0)), [0xEE; 7]));
    }
    let written = [0x46, 0, 0, 0, 12, 1, 3];
    agree(&rt, begun(12, 1, 3, 7), (Ok(7), written));
    let written = [0x46, 0, 0, 0, 12, 2, 64];
    agree(&rt, begun(12, 2, 64, 7), (Ok(7), written));
}

// What a leaf of so many rows answers to one more in so many bytes of room, and whether leaf and
// buffer stay. The row is off the frame or on it.
fn row_filed(rows: usize, size: usize, off: bool) -> Result<(Result<(), Fault>, bool), Fault> {
    let row = if off {
        row(1, 5, 5, 0)
    } else {
        row(1, 4, 4, 0)
    };
    let mut buffer = [0xEE; 844];
    let mut leaf = with_rows(rows, &mut buffer)?;
    let (phase, before) = (leaf.phase(), buffer);
    let answer = leaf.row(&row, &mut buffer[..size.min(844)]);
    Ok((answer, leaf.phase() == phase && buffer == before))
}

// Rows, bytes of room and whether the row is off each, with the refusal and its place: full table
// before off frame before short buffer.
static ROWS: [(usize, usize, bool, Refusal, u32); 5] = [
    (32, 551, true, Refusal::FullTable, 551),
    (0, 7, true, Refusal::OffFrame, 7),
    (31, 534, true, Refusal::OffFrame, 534),
    (0, 23, false, Refusal::ShortBuffer, 7),
    (31, 550, false, Refusal::ShortBuffer, 534),
];

#[test]
fn rows_that_are_refused(rt: HostRuntime) {
    for &(rows, size, off, refusal, at) in &ROWS {
        let answer = row_filed(rows, size, off);
        agree(&rt, answer, Ok((Err(refusal.at(at)), true)));
    }
}

// How many rows and findings a leaf has and bytes a buffer; and the verdict and points of a finding.
type Filed = (usize, usize, usize, Verdict, u32);

// What such a leaf answers to the finding in so many bytes, and whether leaf and buffer stay.
fn finding_filed(filed: Filed) -> Result<(Result<(), Fault>, bool), Fault> {
    let (rows, findings, size, verdict, points) = filed;
    let mut buffer = [0xEE; 844];
    let mut leaf = with_findings(rows, findings, &mut buffer)?;
    let (phase, before) = (leaf.phase(), buffer);
    let finding = Finding { verdict, points };
    let answer = leaf.finding(&finding, &mut buffer[..size.min(844)]);
    Ok((answer, leaf.phase() == phase && buffer == before))
}

// Miscount before bad finding before short buffer.
static FINDINGS: [(Filed, Refusal, u32); 7] = [
    ((0, 0, 7, Verdict::Misses, 0), Refusal::Miscount, 7),
    ((32, 32, 839, Verdict::Misses, 0), Refusal::Miscount, 839),
    ((1, 0, 24, Verdict::Misses, 0), Refusal::BadFinding, 24),
    (
        (32, 31, 844, Verdict::Meets(0), 1),
        Refusal::BadFinding,
        830,
    ),
    (
        (32, 31, 844, Verdict::Meets(HORIZON + 1), 1),
        Refusal::BadFinding,
        830,
    ),
    ((1, 0, 32, Verdict::Misses, 1), Refusal::ShortBuffer, 24),
    ((32, 31, 838, Verdict::Misses, 1), Refusal::ShortBuffer, 830),
];

#[test]
fn findings_that_are_refused(rt: HostRuntime) {
    for &(filed, refusal, at) in &FINDINGS {
        let answer = finding_filed(filed);
        agree(&rt, answer, Ok((Err(refusal.at(at)), true)));
    }
}

// The leaf closed: a fault passes on.
fn closed(leaf: FindingsLeaf, buffer: &mut [u8]) -> Result<ClosedLeaf, Fault> {
    Ok(leaf.close(buffer)?)
}

// Why a leaf of so many rows and findings is not closed in so many bytes of room, and whether its
// buffer stays.
fn end_filed(rows: usize, findings: usize, size: usize) -> Result<(Option<Fault>, bool), Fault> {
    let mut buffer = [0xEE; 844];
    let leaf = with_findings(rows, findings, &mut buffer)?;
    let before = buffer;
    let answer = closed(leaf, &mut buffer[..size.min(844)]);
    Ok((answer.err(), buffer == before))
}

// Rows, findings and bytes of room each, with the refusal and its place: miscount before short
// buffer.
static ENDS: [(usize, usize, usize, Refusal, u32); 4] = [
    (1, 0, 24, Refusal::Miscount, 24),
    (32, 31, 844, Refusal::Miscount, 830),
    (0, 0, 11, Refusal::ShortBuffer, 7),
    (32, 32, 843, Refusal::ShortBuffer, 839),
];

#[test]
fn ends_that_are_refused(rt: HostRuntime) {
    for &(rows, findings, size, refusal, at) in &ENDS {
        let answer = end_filed(rows, findings, size);
        agree(&rt, answer, Ok((Some(refusal.at(at)), true)));
    }
}

// Whether a leaf given back stands in a phase, and where it ends once it has a finding more.
fn closed_at_last(
    mut leaf: FindingsLeaf,
    phase: Phase,
    buffer: &mut [u8],
) -> Result<(bool, u32), Fault> {
    let same = leaf.phase() == phase;
    leaf.finding(&meets(1, 1), buffer)?;
    Ok((same, closed(leaf, buffer)?.phase().place()))
}

// What a refused close gives back takes the finding that was missing, and then closes.
#[test]
fn a_refused_close_gives_the_leaf_back(rt: HostRuntime) -> Result<(), Fail> {
    let mut buffer = [0xEE; 38];
    let leaf = with_findings(1, 0, &mut buffer)?;
    let phase = leaf.phase();
    let Err(unclosed) = leaf.close(&mut buffer) else {
        return Err(Fail::new("closed without its finding"));
    };
    agree(&rt, unclosed.fault, Refusal::Miscount.at(24));
    let told = format!(in rt.alloc(); "{unclosed}")?;
    agree(&rt, told.as_str(), "refusal 16, miscount, at 24");
    let last = closed_at_last(unclosed.leaf, phase, &mut buffer);
    agree(&rt, last, Ok((true, 38)));
    Ok(())
}

// Where a leaf of so many rows and findings ends, each entry filed where no byte is to spare.
fn tight_leaf(rows: usize) -> Result<u32, Fault> {
    let mut buffer = [0xEE; 844];
    let leaf = with_findings(rows, rows, &mut buffer)?;
    let end = leaf.phase().place() as usize + 5;
    Ok(closed(leaf, front(&mut buffer, end))?.phase().place())
}

#[test]
fn buffers_just_long_enough(rt: HostRuntime) {
    let ends = [tight_leaf(0), tight_leaf(1), tight_leaf(32)];
    agree(&rt, ends, [Ok(12), Ok(38), Ok(844)]);
}

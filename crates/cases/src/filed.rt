// Whole leaves filed by one call: each refusal at the first and at the last place that it can have,
// and leaves of no row and of as many as may stand.
use crate::agreeing::agree;
use crate::building::{heading, meets, misses, row};
use reading::read;
use rows::{Fault, Finding, Refusal, Row};
use writing::file_numbers;

// The frame, bound and accuracy of a heading.
type Plain = (u32, u8, u8);

// How many rows, and from which place on they are off a frame of 12; how many findings, and from
// which place on they are bad; and the bytes of room.
type Counts = [usize; 5];

// What a leaf is answered that is filed in one call, and whether its buffer stays.
fn filed((frame, bound, accuracy): Plain, counts: Counts) -> (Result<usize, Fault>, bool) {
    let [rows, off, findings, bad, size] = counts;
    let mut table = [row(1, 5, 5, 0); 33];
    table[..off.min(33)].fill(row(1, 4, 4, 0));
    let mut list = [misses(0); 33];
    list[..bad.min(33)].fill(misses(1));
    let mut buffer = [0xEE; 844];
    let answer = file_numbers(
        heading(frame, bound, accuracy),
        &table[..rows.min(33)],
        &list[..findings.min(33)],
        &mut buffer[..size.min(844)],
    );
    (answer, buffer == [0xEE; 844])
}

// Each case has all that a later check refuses too.
static REFUSED: [(Plain, Counts, Refusal, u32); 15] = [
    ((0, 3, 65), [33, 0, 33, 0, 0], Refusal::BadFrame, 0),
    ((12, 3, 65), [33, 0, 33, 0, 0], Refusal::UnknownBound, 0),
    ((12, 2, 65), [33, 0, 33, 0, 0], Refusal::BadAccuracy, 0),
    ((12, 1, 65), [33, 0, 33, 0, 0], Refusal::BadAccuracy, 0),
    ((12, 1, 3), [33, 0, 33, 0, 0], Refusal::FullTable, 551),
    ((12, 1, 3), [1, 0, 33, 0, 0], Refusal::OffFrame, 7),
    ((12, 1, 3), [32, 31, 33, 0, 0], Refusal::OffFrame, 534),
    ((12, 1, 3), [0, 33, 1, 0, 0], Refusal::Miscount, 7),
    ((12, 1, 3), [32, 33, 33, 0, 0], Refusal::Miscount, 839),
    ((12, 1, 3), [1, 33, 0, 0, 0], Refusal::Miscount, 24),
    ((12, 1, 3), [32, 33, 31, 0, 0], Refusal::Miscount, 830),
    ((12, 1, 3), [1, 33, 1, 0, 0], Refusal::BadFinding, 24),
    ((12, 1, 3), [32, 33, 32, 31, 0], Refusal::BadFinding, 830),
    ((12, 1, 3), [0, 33, 0, 33, 11], Refusal::ShortBuffer, 0),
    ((12, 1, 3), [32, 33, 32, 33, 843], Refusal::ShortBuffer, 0),
];

#[test]
fn leaves_that_are_refused(rt: HostRuntime) {
    for &(numbers, counts, refusal, at) in &REFUSED {
        let wanted = (Err(refusal.at(at)), true);
        agree(&rt, filed(numbers, counts), wanted);
    }
}

// What a leaf of no row is answered in a buffer just long enough, and the buffer.
fn empty() -> (Result<usize, Fault>, [u8; 12]) {
    let mut buffer = [0xEE; 12];
    let answer = file_numbers(heading(12, 0, 0), &[], &[], &mut buffer);
    (answer, buffer)
}

// What a leaf of 32 rows is answered in a buffer just long enough, and the buffer. The last row and
// the last finding are others than those before.
fn full() -> (Result<usize, Fault>, [u8; 844]) {
    let mut rows = [row(1, 4, 4, 0); 32];
    rows[31] = row(2, 6, 6, 1);
    let mut findings = [meets(1, 1); 32];
    findings[31] = misses(9);
    let mut buffer = [0xEE; 844];
    let answer = file_numbers(heading(12, 1, 64), &rows, &findings, &mut buffer);
    (answer, buffer)
}

// The number of rows of a leaf, whether it has none, and its rows and findings of rank 32 and 33.
type Told = (usize, bool, [Option<Row>; 2], [Option<Finding>; 2]);

// A leaf read.
fn told(bytes: &[u8]) -> Result<Told, Fault> {
    let leaf = read(bytes)?;
    let rows = [leaf.row(32), leaf.row(33)];
    let findings = [leaf.finding(32), leaf.finding(33)];
    Ok((leaf.len(), leaf.is_empty(), rows, findings))
}

// In buffers just long enough.
#[test]
fn leaves_of_no_row_and_of_32(rt: HostRuntime) {
    let bytes = [0x46, 0, 0, 0, 12, 0, 0, 0x5A, 0, 0, 0, 1];
    agree(&rt, empty(), (Ok(12), bytes));
    agree(&rt, told(&bytes), Ok((0, true, [None; 2], [None; 2])));
    let (answer, buffer) = full();
    agree(&rt, answer, Ok(844));
    assert!(rt; buffer[830..] == [0x41, 0, 0, 0, 0, 0, 0, 0, 9, 0x5A, 0, 0, 0, 65]);
    let rows = [Some(row(2, 6, 6, 1)), None];
    let wanted = (32, false, rows, [Some(misses(9)), None]);
    agree(&rt, told(&buffer), Ok(wanted));
}

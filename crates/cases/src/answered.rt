// Sheets read, surveyed and answered: the worked sheet by both bounds, and what is refused.
use crate::agreeing::agree;
use crate::building::{heading, meets, misses, row};
use crate::worked_leaf::WORKED;
use rows::{Fault, Refusal};
use sheets::{DECIDING, MOST_ANSWER, MOST_SHEET, answer_sheet, read};

// The worked sheet: the worked leaf up to its findings. The leaf is the answer to it.
const SHEET: usize = 58;

#[test]
fn the_worked_sheet_is_read_and_surveyed(rt: HostRuntime) {
    let sheet = read(&WORKED[..SHEET]).expect(&rt, "the worked sheet is refused");
    agree(&rt, sheet.heading().numbers(), heading(12, 1, 3));
    let rows = [row(1, 4, 4, 0), row(2, 6, 6, 1), row(3, 12, 12, 0)];
    assert!(rt; sheet.rows() == &rows[..]);
    let mut list = [misses(9); 4];
    let answer = sheet.survey(&mut list);
    let found = [meets(1, 1), meets(3, 1), meets(11, 4), misses(9)];
    agree(&rt, (answer, list), (Ok(3), found));
    let mut short = [misses(9); 2];
    let answer = sheet.survey(&mut short);
    let fault = Refusal::ShortList.at(0);
    agree(&rt, (answer, short), (Err(fault), [misses(9); 2]));
}

// What the worked sheet is answered into the first so many bytes of a buffer, and the buffer
// afterwards.
fn answered(size: usize) -> (Result<usize, Fault>, [u8; 91]) {
    let mut buffer = [0xEE; 91];
    let answer = answer_sheet(&WORKED[..SHEET], &mut buffer[..size.min(91)]);
    (answer, buffer)
}

// Into a buffer that is longer than the answer, into one that is as long, and into one that is a
// byte too short.
#[test]
fn the_worked_sheet_is_answered(rt: HostRuntime) {
    agree(&rt, answered(91), (Ok(90), WORKED));
    agree(&rt, answered(90), (Ok(90), WORKED));
    let short = Refusal::ShortBuffer.at(0);
    agree(&rt, answered(89), (Err(short), [0xEE; 91]));
}

// Whether bytes are a sheet, what they are answered into a buffer with a byte to spare, that buffer,
// and what they are answered into one that is a byte too short.
type Told = (bool, Result<usize, Fault>, [u8; 7], Result<usize, Fault>);

// All that bytes are told.
fn told(bytes: &[u8]) -> Told {
    let mut buffer = [0xEE; 7];
    let answer = answer_sheet(bytes, &mut buffer);
    let short = answer_sheet(bytes, &mut [0xEE; 5]);
    (read(bytes).is_ok(), answer, buffer, short)
}

// What the worked leaf is told from a byte on and up to another, with a letter in the place of that
// of the second row. Behind the sheet, at 58, is the letter of a finding.
fn told_of(from: usize, to: usize, letter: u8) -> Told {
    let mut bytes = WORKED;
    bytes[24] = letter;
    let to = to.min(59);
    told(&bytes[from.min(to)..to])
}

// Cut, too long, or with an entry that a sheet has not.
static REFUSED: [(usize, usize, u8, Refusal, u8); 6] = [
    (0, 0, 0x52, Refusal::CutLeaf, 0),
    (0, 6, 0x52, Refusal::CutLeaf, 6),
    (0, 57, 0x52, Refusal::CutLeaf, 57),
    (7, 58, 0x52, Refusal::OutOfTurn, 0),
    (0, 59, 0x52, Refusal::OutOfTurn, 58),
    (0, 58, 0x5A, Refusal::OutOfTurn, 24),
];

#[test]
fn what_is_no_sheet_is_refused(rt: HostRuntime) {
    for &(from, to, letter, refusal, at) in &REFUSED {
        let refused = [0x58, refusal.number(), 0, 0, 0, at, 0xEE];
        let short = Refusal::ShortBuffer.at(0);
        let wanted = (false, Ok(6), refused, Err(short));
        agree(&rt, told_of(from, to, letter), wanted);
    }
}

// A full table has the longest sheet and the longest leaf.
#[test]
fn lengths(rt: HostRuntime) {
    agree(&rt, [MOST_SHEET, DECIDING, MOST_ANSWER], [551, 552, 844]);
}

// Numbers that bytes end in, and the findings of a leaf from their last field back.
use crate::agreeing::agree;
use crate::worked_leaf::WORKED;
use leaves::last_number;
use reading::read;
use rows::{Fault, Refusal};

// Nine bytes, of which no two are the same.
static NINE: [u8; 9] = [0x80, 0xFF, 1, 2, 3, 4, 0, 5, 0xFE];

// Of the first so many of the nine, the number that they end in, and how many are before it.
static NUMBERS: [(usize, u32, usize); 6] = [
    (4, 0x80FF_0102, 0),
    (5, 0xFF01_0203, 1),
    (6, 0x0102_0304, 2),
    (7, 0x0203_0400, 3),
    (8, 0x0304_0005, 4),
    (9, 0x0400_05FE, 5),
];

#[test]
fn four_bytes_and_more_end_in_a_number(rt: HostRuntime) {
    for &(length, number, before) in &NUMBERS {
        agree(
            &rt,
            last_number(&NINE[..length]),
            Ok((number, &NINE[..before])),
        );
    }
}

#[test]
fn fewer_than_four_bytes_are_cut(rt: HostRuntime) {
    for length in 0..4 {
        agree(
            &rt,
            last_number(&NINE[..length]),
            Err(Refusal::CutLeaf.at(0)),
        );
    }
}

// The points of the finding of a rank in the worked leaf, its first rest, and how many bytes are left.
fn backwards(rank: usize) -> Result<Option<(u32, u32, usize)>, Fault> {
    let leaf = read(&WORKED[..90])?;
    let Some(body) = leaf.finding_body(rank) else {
        return Ok(None);
    };
    let (points, before) = last_number(body)?;
    let (rest, left) = last_number(before)?;
    Ok(Some((points, rest, left.len())))
}

#[test]
fn the_worked_findings_are_read_backwards(rt: HostRuntime) {
    agree(&rt, backwards(1), Ok(Some((1, 1, 0))));
    agree(&rt, backwards(2), Ok(Some((1, 3, 0))));
    agree(&rt, backwards(3), Ok(Some((4, 11, 0))));
    for rank in [0, 4, usize::MAX] {
        agree(&rt, backwards(rank), Ok(None));
    }
}

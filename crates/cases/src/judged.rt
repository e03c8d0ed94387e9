// Which four numbers are a row and which number is a frame, and why others are not.
ghost use Rattle.std.specs.Prelude.{◌≡◌, ◌↔◌, IsTrue};

use crate::agreeing::agree;
use crate::building::{numbers, row};
use rows::{Fault, Flaw, FrameNumbers, HORIZON, Numbers, Refusal, is_frame};
use std::test::Fail;

// The numbers of the row that four numbers make, judged for position 7.
fn judged(four: Numbers) -> Result<Numbers, Fault> {
    Ok(four.judge(7)?.numbers())
}

#[test]
fn a_row_keeps_its_numbers(rt: HostRuntime) {
    for four in [
        numbers(4, 6, 6, 2),
        numbers(1, HORIZON, HORIZON, HORIZON - 1),
    ] {
        agree(&rt, judged(four), Ok(four));
    }
}

// Four numbers each, and why they are no row. Where they have more than one flaw, the first that is
// checked is told. The last three are at the top of their type.
static REFUSED: [(u32, u32, u32, u32, Refusal); 10] = [
    (0, 6, 6, 2, Refusal::IdleRow),
    (5, 6, 6, 2, Refusal::NoWindow),
    (1, 7, 6, 0, Refusal::LateDeadline),
    (1, 1, HORIZON + 1, 0, Refusal::LongPeriod),
    (0, 0, 0, 9, Refusal::IdleRow),
    (9, 8, 7, 0, Refusal::NoWindow),
    (1, u32::MAX, HORIZON + 1, 0, Refusal::LateDeadline),
    (u32::MAX, u32::MAX, u32::MAX, u32::MAX, Refusal::NoWindow),
    (2, u32::MAX, u32::MAX, u32::MAX - 1, Refusal::NoWindow),
    (1, u32::MAX, u32::MAX, u32::MAX - 1, Refusal::LongPeriod),
];

#[test]
fn refusals_of_numbers(rt: HostRuntime) {
    for &(work, deadline, period, jitter, refusal) in &REFUSED {
        let answer = judged(numbers(work, deadline, period, jitter));
        agree(&rt, answer, Err(refusal.at(7)));
    }
}

// The numbers of the row that four numbers make on a frame of 12, judged for position 7.
fn judged_on_12(four: Numbers) -> Result<Numbers, Fault> {
    Ok(
        four.judge_on(&FrameNumbers { ticks: 12 }.judge()?, 7)?
            .numbers(),
    )
}

#[test]
fn rows_on_a_frame(rt: HostRuntime) {
    let answers = [
        judged_on_12(numbers(4, 6, 6, 2)),
        judged_on_12(numbers(1, 5, 5, 0)),
        judged_on_12(numbers(1, 24, 24, 0)),
        judged_on_12(numbers(0, 0, 0, 0)),
        judged_on_12(numbers(1, 1, HORIZON + 1, 0)),
    ];
    let wanted = [
        Ok(numbers(4, 6, 6, 2)),
        Err(Refusal::OffFrame.at(7)),
        Err(Refusal::OffFrame.at(7)),
        Err(Refusal::IdleRow.at(7)),
        Err(Refusal::LongPeriod.at(7)),
    ];
    agree(&rt, answers, wanted);
}

#[test]
fn numbers_at_the_top_of_their_type(rt: HostRuntime) {
    let shortest = row(1, 1, 1, 0).steps(u32::MAX);
    let longest = row(HORIZON, HORIZON, HORIZON, 0).steps(u32::MAX);
    agree(&rt, [shortest, longest], [4_294_967_295, 4_294_967_296]);
}

// Whether four numbers are idle, have no window, a late deadline, and a long period.
fn flaws(four: Numbers) -> [bool; 4] {
    [
        four.has(&Flaw::Idle),
        four.has(&Flaw::Cramped),
        four.has(&Flaw::Late),
        four.has(&Flaw::Long),
    ]
}

// Each flaw just where it begins, and just before.
static FLAWS: [(u32, u32, u32, u32, [bool; 4]); 10] = [
    (0, 6, 6, 2, [true, false, false, false]),
    (1, 6, 6, 2, [false; 4]),
    (5, 6, 6, 2, [false, true, false, false]),
    (4, 6, 6, 2, [false; 4]),
    (u32::MAX, u32::MAX, u32::MAX, 1, [false, true, false, true]),
    (u32::MAX, u32::MAX, u32::MAX, 0, [false, false, false, true]),
    (1, 7, 6, 0, [false, false, true, false]),
    (1, 6, 6, 0, [false; 4]),
    (1, 1, HORIZON + 1, 0, [false, false, false, true]),
    (1, 1, HORIZON, 0, [false; 4]),
];

#[test]
fn flaws_of_numbers(rt: HostRuntime) {
    for &(work, deadline, period, jitter, wanted) in &FLAWS {
        let flaws = flaws(numbers(work, deadline, period, jitter));
        agree(&rt, flaws, wanted);
    }
}

#[test]
fn frames_and_steps(rt: HostRuntime) {
    let frames = [
        is_frame(0),
        is_frame(1),
        is_frame(HORIZON),
        is_frame(HORIZON + 1),
    ];
    agree(&rt, frames, [false, true, true, false]);
    let b = row(2, 6, 6, 1);
    agree(&rt, [b.steps(0), b.steps(5), b.steps(6)], [2, 2, 4]);
    let divides = (b.divides(12), b.divides(9), b.window());
    agree(&rt, divides, (true, false, 5));
}

// The numbers of the frame of so many ticks.
fn framed(ticks: u32) -> Result<FrameNumbers, Fault> {
    Ok(FrameNumbers { ticks }.judge()?.numbers())
}

#[test]
fn frames_judged(rt: HostRuntime) {
    let bad = Err(Refusal::BadFrame.at(0));
    let refused = [framed(0), framed(HORIZON + 1), framed(u32::MAX)];
    agree(&rt, refused, [bad; 3]);
    let frames = [framed(1), framed(HORIZON)];
    let ticks = [1, HORIZON];
    agree(&rt, frames, ticks.map(|ticks| Ok(FrameNumbers { ticks })));
}

// What numbers are told that are checked for being off a frame of 12, and whether a row stands on it.
#[test]
fn rows_beside_a_frame(rt: HostRuntime) -> Result<(), Fail> {
    let frame = FrameNumbers { ticks: 12 }.judge()?;
    let off = Flaw::Off(frame);
    let checked = [
        numbers(0, 9, 6, 9).check(&off, 7),
        numbers(1, 5, 5, 0).check(&off, 7),
        numbers(1, 5, 0, 0).check(&off, 7),
    ];
    let fault = Refusal::OffFrame.at(7);
    agree(&rt, checked, [Ok(()), Err(fault), Err(fault)]);
    let stand = [row(1, 6, 6, 0), row(1, 5, 5, 0)].map(|row| row.stands_on(&frame));
    agree(&rt, (stand, frame.ticks()), ([true, false], 12));
    Ok(())
}

// Whether two refusals are one: the equality that is derived decides it.
fn is_same(a: Refusal, b: Refusal) -> bool
    ensures { IsTrue result ↔ (a ≡ b) }
{
    a == b
}

#[test]
fn refusals_are_told_apart(rt: HostRuntime) {
    let same = is_same(Refusal::IdleRow, Refusal::IdleRow);
    let other = is_same(Refusal::IdleRow, Refusal::NoWindow);
    agree(&rt, (same, other), (true, false));
}

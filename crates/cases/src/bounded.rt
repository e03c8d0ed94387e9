// What the supplied bounds answer, and where they have nothing to answer.
ghost use Rattle.bounds.specs.Supplied.{exact_steps};
ghost use Rattle.bounds.specs.Lemmas.ExactLaws.{exact_laws};

use crate::agreeing::agree;
use crate::building::row;
use bounds::{Asked, Bound, ExactSteps, LinearTail, OnFrame, Staircase, Supplied};
use rows::{Fault, HORIZON, Refusal, Row};
use std::process::Abort;

// The accuracy of the linear tail that is made with k, and how many rises it has at most.
fn made(k: u32) -> Result<(u32, u32), Fault> {
    let tail = LinearTail::new(k)?;
    Ok((tail.accuracy(), tail.most()))
}

// The same of the staircase.
fn rising(k: u32) -> Result<(u32, u32), Fault> {
    let stairs = Staircase::new(k)?;
    Ok((stairs.accuracy(), stairs.most()))
}

#[test]
fn accuracies_from_1_to_64(rt: HostRuntime) {
    let bad = Err(Refusal::BadAccuracy.at(0));
    agree(&rt, [made(0), made(65), made(u32::MAX)], [bad; 3]);
    agree(&rt, [made(1), made(64)], [Ok((1, 0)), Ok((64, 63))]);
    agree(&rt, [rising(0), rising(65), rising(u32::MAX)], [bad; 3]);
    agree(&rt, [rising(1), rising(64)], [Ok((1, 26)), Ok((64, 1664))]);
    let steps = (ExactSteps.accuracy(), ExactSteps.most());
    agree(&rt, steps, (64, HORIZON));
}

// The linear tail of accuracy k, for a test that has no other k than from 1 to 64.
pub(crate) fn tail(rt: &impl Abort, k: u32) -> LinearTail {
    LinearTail::new(k).expect(rt, "an accuracy is refused")
}

// The staircase of accuracy k, for a test that has no other k than from 1 to 64.
pub(crate) fn stairs(rt: &impl Abort, k: u32) -> Staircase {
    Staircase::new(k).expect(rt, "an accuracy is refused")
}

// What B demands at 5 and at 6 on a frame of 12.
fn amounts<B: Bound>(bound: &B) -> [u64; 2] {
    let b = row(2, 6, 6, 1);
    [bound.amount(12, &b, 5), bound.amount(12, &b, 6)]
}

#[test]
fn amounts_before_and_on_the_tail(rt: HostRuntime) {
    agree(&rt, amounts(&tail(&rt, 2)), [24, 52]);
    agree(&rt, amounts(&ExactSteps), [24, 48]);
}

// The corner of B after an instant, on a frame of 12.
fn corner<B: Bound>(bound: &B, after: u32) -> Option<u32> {
    bound.next_corner(12, &row(2, 6, 6, 1), after)
}

#[test]
fn corners_in_turn(rt: HostRuntime) {
    let tail_3 = tail(&rt, 3);
    let corners = [
        corner(&tail_3, 0),
        corner(&tail_3, 4),
        corner(&tail_3, 5),
        corner(&tail_3, 11),
        corner(&tail(&rt, 1), 0),
        corner(&ExactSteps, 11),
        corner(&ExactSteps, HORIZON - 1),
    ];
    let wanted = [Some(5), Some(5), Some(11), None, None, Some(17), None];
    agree(&rt, corners, wanted);
}

// What a row of work 1 and period 4 demands on a frame of 4, in jobs, for 1 to 9 jobs and for 2^22.
fn jobs_counted(bound: &Staircase) -> [u64; 10] {
    let a = row(1, 4, 4, 0);
    let jobs = |n: u32| bound.amount(4, &a, n.saturating_mul(4)) / 4;
    [
        jobs(1),
        jobs(2),
        jobs(3),
        jobs(4),
        jobs(5),
        jobs(6),
        jobs(7),
        jobs(8),
        jobs(9),
        jobs(4_194_304),
    ]
}

#[test]
fn jobs_on_a_coarser_grain(rt: HostRuntime) {
    let two = [1, 2, 3, 4, 6, 6, 8, 8, 12, 4_194_304];
    agree(&rt, jobs_counted(&stairs(&rt, 2)), two);
    let one = [1, 2, 4, 4, 8, 8, 8, 8, 16, 4_194_304];
    agree(&rt, jobs_counted(&stairs(&rt, 1)), one);
    let nine = [1, 2, 3, 4, 5, 6, 7, 8, 9, 4_194_304];
    agree(&rt, jobs_counted(&stairs(&rt, 9)), nine);
}

// The corners of a row of period 4 up to 40 by the staircase of accuracy 2, and those of the same row
// with a jitter of 1, each from the one before; and the last one by accuracy 1, at the horizon itself.
#[test]
fn corners_at_stairs(rt: HostRuntime) {
    let bound = stairs(&rt, 2);
    let (a, late) = (row(1, 4, 4, 0), row(1, 4, 4, 1));
    let mut seen = 0;
    for corner in [4, 8, 12, 16, 24, 32, 48] {
        let next = [
            bound.next_corner(4, &a, seen),
            bound.next_corner(4, &a, corner - 1),
            bound.next_corner(4, &late, corner - 2),
        ];
        agree(&rt, next, [Some(corner), Some(corner), Some(corner - 1)]);
        seen = corner;
    }
    let one = stairs(&rt, 1);
    let half = HORIZON / 2;
    let last = [
        one.next_corner(4, &a, half),
        one.next_corner(4, &a, HORIZON),
        one.next_corner(4, &a, u32::MAX),
    ];
    agree(&rt, last, [Some(HORIZON), None, None]);
}

// A frame and an instant each, where there is nothing to answer.
static NOT_ASKED: [(u32, u32); 5] = [
    (0, 5),
    (13, 5),
    (12, u32::MAX),
    (u32::MAX, 5),
    (HORIZON + 1, 5),
];

#[test]
fn nothing_to_answer(rt: HostRuntime) {
    let b = row(2, 6, 6, 1);
    let asked = |at| Asked::new(12, &b, at).is_some();
    agree(&rt, [asked(HORIZON), asked(HORIZON + 1)], [true, false]);
    for &(frame, at) in &NOT_ASKED {
        let amount = ExactSteps.amount(frame, &b, at);
        let corner = ExactSteps.next_corner(frame, &b, at);
        agree(&rt, (amount, corner), (0, None));
    }
}

// The steps of a row at an instant, asked about on the frame that is its period, where they are counted
// with no division.
fn steps(row: &Row, at: u32) -> Option<u32> {
    let on = OnFrame::new(row.period, row)?;
    Some(on.at(at)?.steps())
}

// B has two jobs up to 11 and three up to 12; the others are the most and the fewest that there can be.
#[test]
fn steps_of_rows_on_a_frame(rt: HostRuntime) {
    let b = row(2, 6, 6, 1);
    let few = [
        steps(&b, 0),
        steps(&b, 11),
        steps(&b, 12),
        steps(&b, HORIZON + 1),
    ];
    agree(&rt, few, [Some(2), Some(4), Some(6), None]);
    let (short, long) = (row(1, 1, 1, 0), row(HORIZON, HORIZON, HORIZON, 0));
    let many = [
        steps(&short, 0),
        steps(&short, HORIZON),
        steps(&long, HORIZON),
    ];
    agree(&rt, many, [Some(0), Some(HORIZON), Some(HORIZON)]);
    agree(&rt, OnFrame::new(13, &b).is_some(), false);
}

// All that a bound answers about B at 6 on a frame of 12, after it, and about itself.
fn answers<B: Bound>(bound: &B) -> (u64, Option<u32>, u32, u32) {
    let b = row(2, 6, 6, 1);
    let amount = bound.amount(12, &b, 6);
    let corner = bound.next_corner(12, &b, 6);
    (amount, corner, bound.accuracy(), bound.most())
}

#[test]
fn supplied_bounds_answer_as_those_they_name(rt: HostRuntime) {
    let steps = [answers(&ExactSteps), answers(&Supplied::ExactSteps)];
    agree(&rt, steps, [(48, Some(11), 64, HORIZON); 2]);
    let tail = tail(&rt, 2);
    let line = [answers(&tail), answers(&Supplied::LinearTail(tail))];
    agree(&rt, line, [(52, None, 2, 1); 2]);
    let stairs = stairs(&rt, 1);
    let whole = [answers(&stairs), answers(&Supplied::Staircase(stairs))];
    agree(&rt, whole, [(48, Some(11), 1, 26); 2]);
}

// Exact steps that leave their flags to the method that the trait provides.
#[derive(Clone, Copy)]
struct CornerByCorner;

impl Bound for CornerByCorner {
    ghost meaning = { λ _. exact_steps };

    ghost lawful = { λ s. exact_laws };

    fn amount_asked(&self, question: &Asked) -> u64 {
        ExactSteps.amount_asked(question)
    }

    fn corner_after(&self, row: &Row, after: u32) -> Option<u32> {
        ExactSteps.corner_after(row, after)
    }

    fn accuracy(&self) -> u32 {
        ExactSteps.accuracy()
    }

    fn most(&self) -> u32 {
        ExactSteps.most()
    }
}

// Eight flags for the instants just after one, of which the flag at 2 was set before, as a bound
// leaves them, and the corner past them.
fn flags<B: Bound>(bound: &B, row: &Row, after: u32) -> ([bool; 8], Option<u32>) {
    let mut flags = [false; 8];
    flags[2] = true;
    let past = bound.mark(row, after, &mut flags);
    (flags, past)
}

// Flags that are left as they were.
const NEITHER: [bool; 8] = [false, false, true, false, false, false, false, false];

// The steps of B rise at 5, 11 and 17; before the tail of accuracy 3 are the first two.
#[test]
fn flags_of_corners(rt: HostRuntime) {
    let b = row(2, 6, 6, 1);
    let both = [true, false, true, false, false, false, true, false];
    let steps = [flags(&ExactSteps, &b, 4), flags(&CornerByCorner, &b, 4)];
    agree(&rt, steps, [(both, Some(17)); 2]);
    let tail_3 = tail(&rt, 3);
    let line = [
        flags(&tail_3, &b, 4),
        flags(&Supplied::LinearTail(tail_3), &b, 4),
        flags(&tail(&rt, 1), &b, 4),
    ];
    agree(&rt, line, [(both, None), (both, None), (NEITHER, None)]);
    agree(&rt, tail_3.mark(&b, 4, &mut [false; 3]), Some(11));
}

// By the staircase of accuracy 1 the corners of a row of period 1 are 1, 2, 4, 8, 16: flags from 1 on,
// those past 8, none, and none behind the last one.
#[test]
fn flags_of_stairs(rt: HostRuntime) {
    let one = stairs(&rt, 1);
    let short = row(1, 1, 1, 0);
    let first = [true, true, true, true, false, false, false, true];
    agree(&rt, flags(&one, &short, 0), (first, Some(16)));
    agree(
        &rt,
        flags(&one, &short, 8),
        {
            let mut sixteen = NEITHER;
            sixteen[7] = true;
            (sixteen, Some(32))
        },
    );
    agree(&rt, one.mark(&short, 8, &mut [false; 3]), Some(16));
    let last = [
        flags(&one, &short, HORIZON - 8),
        flags(&one, &short, HORIZON),
        flags(&one, &short, u32::MAX),
    ];
    let mut end = NEITHER;
    end[7] = true;
    agree(&rt, last, [(end, None), (NEITHER, None), (NEITHER, None)]);
}

// The last corner of A stands on the horizon itself.
#[test]
fn flags_past_the_horizon(rt: HostRuntime) {
    let a = row(1, 4, 4, 0);
    let last = [false, false, true, true, false, false, false, false];
    for (after, wanted) in [(HORIZON - 4, last), (HORIZON, NEITHER), (u32::MAX, NEITHER)] {
        let marked = [
            flags(&ExactSteps, &a, after),
            flags(&CornerByCorner, &a, after),
        ];
        agree(&rt, marked, [(wanted, None); 2]);
    }
}

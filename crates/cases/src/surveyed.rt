// Surveys of whole tables: how many rows, which refusal comes first, and what the list holds
// afterwards.
use crate::agreeing::agree;
use crate::bounded::{stairs, tail};
use crate::building::{meets, misses, numbers};
use bounds::{Bound, ExactSteps, Supplied};
use rows::{Fault, Finding, FrameNumbers, HORIZON, Numbers, Refusal};
use tables::survey;

// The worked table: A, B and E, as plain numbers.
pub(crate) const TABLE: [Numbers; 3] = [
    Numbers {
        work: 1,
        deadline: 4,
        period: 4,
        jitter: 0,
    },
    Numbers {
        work: 2,
        deadline: 6,
        period: 6,
        jitter: 1,
    },
    Numbers {
        work: 3,
        deadline: 12,
        period: 12,
        jitter: 0,
    },
];

// What a survey by a bound on a frame of so many ticks answers, and its list of so many places afterwards.
pub(crate) fn surveyed<B: Bound, const N: usize>(
    bound: &B,
    ticks: u32,
    table: &[Numbers],
) -> (Result<usize, Fault>, [Finding; N]) {
    let mut list = [misses(7); N];
    let answer = survey(bound, FrameNumbers { ticks }, table, &mut list);
    (answer, list)
}

// What a survey in exact steps answers, and the first two places of its list of three afterwards.
fn answered(ticks: u32, table: &[Numbers]) -> (Result<usize, Fault>, Finding, Finding) {
    let mut list = [misses(7), misses(8), misses(9)];
    let answer = survey(&ExactSteps, FrameNumbers { ticks }, table, &mut list);
    (answer, list[0], list[1])
}

#[test]
fn no_row_and_one_row(rt: HostRuntime) {
    agree(&rt, answered(12, &[]), (Ok(0), misses(7), misses(8)));
    let one = answered(12, &[numbers(1, 4, 4, 0)]);
    agree(&rt, one, (Ok(1), meets(1, 1), misses(8)));
}

// The worked table, into a list with a place to spare.
#[test]
fn places_past_the_last_row_stay(rt: HostRuntime) {
    let found = [meets(1, 1), meets(3, 1), misses(3), misses(7)];
    agree(&rt, surveyed(&tail(&rt, 2), 12, &TABLE), (Ok(3), found));
    let short = Refusal::ShortList.at(0);
    let wanted = (Err(short), [misses(7); 2]);
    agree(&rt, surveyed(&ExactSteps, 12, &TABLE), wanted);
}

// The worked table by a supplied bound: as by the bound that it names.
#[test]
fn surveys_by_supplied_bounds(rt: HostRuntime) {
    let steps = surveyed(&Supplied::ExactSteps, 12, &TABLE);
    agree(
        &rt,
        steps,
        (Ok(3), [meets(1, 1), meets(3, 1), meets(10, 4)]),
    );
    let found = [meets(1, 1), meets(3, 1), misses(3)];
    let tail = Supplied::LinearTail(tail(&rt, 2));
    agree(&rt, surveyed(&tail, 12, &TABLE), (Ok(3), found));
    let found = [meets(1, 1), meets(3, 1), meets(11, 4)];
    let whole = Supplied::Staircase(stairs(&rt, 1));
    let rising = [
        surveyed(&whole, 12, &TABLE),
        surveyed(&stairs(&rt, 1), 12, &TABLE),
    ];
    agree(&rt, rising, [(Ok(3), found); 2]);
}

// Four places of a list of 34.
fn places(list: &[Finding; 34]) -> [Finding; 4] {
    [list[0], list[30], list[31], list[32]]
}

// Thirty-two rows of work 1 and period 32: the last rests at 32. There is no 33rd.
#[test]
fn as_many_rows_as_may_stand(rt: HostRuntime) {
    let mut list = [misses(7); 34];
    let frame = FrameNumbers { ticks: 32 };
    let table = [numbers(1, 32, 32, 0); 32];
    let answer = survey(&ExactSteps, frame, &table, &mut list);
    let found = [meets(1, 1), meets(31, 1), meets(32, 1), misses(7)];
    agree(&rt, (answer, places(&list)), (Ok(32), found));
    let crowd = [numbers(0, 0, 0, 0); 33];
    let answer = survey(&ExactSteps, frame, &crowd, &mut list);
    let full = Refusal::FullTable.at(0);
    agree(&rt, (answer, places(&list)), (Err(full), found));
}

// Numbers that are a row on a frame of 6, and numbers that are not: the name tells the first flaw.
const GOOD: Numbers = Numbers {
    work: 1,
    deadline: 6,
    period: 6,
    jitter: 0,
};

const IDLE: Numbers = Numbers {
    work: 0,
    deadline: 9,
    period: 6,
    jitter: 9,
};

const WINDOWLESS: Numbers = Numbers {
    work: 5,
    deadline: 6,
    period: 6,
    jitter: 2,
};

const LATE: Numbers = Numbers {
    work: 1,
    deadline: 7,
    period: 6,
    jitter: 0,
};

const LONG: Numbers = Numbers {
    work: 1,
    deadline: 1,
    period: HORIZON + 1,
    jitter: 0,
};

const OFF: Numbers = Numbers {
    work: 1,
    deadline: 5,
    period: 5,
    jitter: 0,
};

// Four numbers of 0.
const ZERO: Numbers = Numbers {
    work: 0,
    deadline: 0,
    period: 0,
    jitter: 0,
};

// Numbers with several flaws.
const IDLE_AND_LATER: Numbers = Numbers {
    work: 0,
    deadline: 1,
    period: 6,
    jitter: 9,
};

const WINDOWLESS_AND_LATER: Numbers = Numbers {
    work: 9,
    deadline: 8,
    period: 7,
    jitter: 0,
};

const LATE_AND_LATER: Numbers = Numbers {
    work: 1,
    deadline: u32::MAX,
    period: HORIZON + 1,
    jitter: 0,
};

// A frame and a table each, with the refusal and its place.
static REFUSED: [(u32, &[Numbers], Refusal, u32); 16] = [
    // The frame comes before the number of rows, that before the places, and those before any row.
    (0, &[ZERO; 33], Refusal::BadFrame, 0),
    (HORIZON + 1, &[ZERO; 33], Refusal::BadFrame, 0),
    (1, &[ZERO; 33], Refusal::FullTable, 0),
    (1, &[ZERO; 4], Refusal::ShortList, 0),
    // All rows are checked for one thing before any is checked for the next.
    (6, &[WINDOWLESS, IDLE], Refusal::IdleRow, 2),
    (6, &[LATE, WINDOWLESS], Refusal::NoWindow, 2),
    (6, &[LONG, LATE], Refusal::LateDeadline, 2),
    (6, &[OFF, LONG], Refusal::LongPeriod, 2),
    (6, &[GOOD, OFF], Refusal::OffFrame, 2),
    // A row with several flaws is refused for the first of them.
    (6, &[IDLE_AND_LATER], Refusal::IdleRow, 1),
    (6, &[WINDOWLESS_AND_LATER], Refusal::NoWindow, 1),
    (6, &[LATE_AND_LATER], Refusal::LateDeadline, 1),
    (6, &[LONG], Refusal::LongPeriod, 1),
    // Of the rows with one flaw the first is told, also past rows with others.
    (6, &[GOOD, IDLE, IDLE], Refusal::IdleRow, 2),
    (6, &[OFF, GOOD, IDLE], Refusal::IdleRow, 3),
    (6, &[OFF, OFF, OFF], Refusal::OffFrame, 1),
];

#[test]
fn refusals_in_their_order(rt: HostRuntime) {
    for &(ticks, table, refusal, at) in &REFUSED {
        let wanted = (Err(refusal.at(at)), misses(7), misses(8));
        agree(&rt, answered(ticks, table), wanted);
    }
}

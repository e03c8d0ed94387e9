// Examples of the bench, of calls played on it, and of rows exchanged, counted by hand.
use crate::exchange;
use admission::{Bench, Call, Reply, play};
use batches::Batches;
use bounds::{Bound, ExactSteps, LinearTail};
use rows::{Fault, Finding, FrameNumbers, Numbers, Refusal, Verdict};
use std::test::Fail;
use tables::survey;

// The rows of the worked table (docs/RULES.md, A worked table).
const A: Numbers = Numbers {
    work: 1,
    deadline: 4,
    period: 4,
    jitter: 0,
};

const B: Numbers = Numbers {
    work: 2,
    deadline: 6,
    period: 6,
    jitter: 1,
};

const E: Numbers = Numbers {
    work: 3,
    deadline: 12,
    period: 12,
    jitter: 0,
};

// The frame of the worked table.
const FRAME: FrameNumbers = FrameNumbers { ticks: 12 };

// Four plain numbers: work, deadline, period and jitter.
fn numbers(work: u32, deadline: u32, period: u32, jitter: u32) -> Numbers {
    Numbers {
        work,
        deadline,
        period,
        jitter,
    }
}

// A finding of a first rest.
fn meets(rest: u32, points: u32) -> Finding {
    Finding {
        verdict: Verdict::Meets(rest),
        points,
    }
}

// The numbers of the row at a rank, and its finding.
fn standing<T: Bound>(bench: &Bench<T>, rank: usize) -> Result<(Numbers, Finding), Fault> {
    let (row, finding) = bench.inquire(rank)?;
    Ok((row.numbers(), finding))
}

#[test]
fn worked_bench(rt: HostRuntime) -> Result<(), Fail> {
    let mut bench = Bench::new(LinearTail::new(2)?);
    bench.set_frame(FRAME)?;
    bench.admit(1, A)?;
    bench.admit(2, B)?;
    assert_eq!(rt; bench.admit(3, E), Err(Refusal::NewcomerOverload.at(3)));
    bench.dismiss(1)?;
    bench.admit(2, E)?;
    assert_eq!(rt; standing(&bench, 2)?, (E, meets(5, 1)));
    Ok(())
}

// What a bench by a bound on which B and E stand answers to a row of work 5, at each rank.
fn crowded<T: Bound + Drop>(bound: T) -> Result<[Result<(), Fault>; 3], Fault> {
    let mut bench = Bench::new(bound);
    bench.set_frame(FRAME)?;
    bench.admit(1, B)?;
    bench.admit(2, E)?;
    let crowd = numbers(5, 6, 6, 0);
    Ok([
        bench.admit(1, crowd),
        bench.admit(2, crowd),
        bench.admit(3, crowd),
    ])
}

// Above B and E it meets, and both of them would miss. Below B it misses itself, and E would miss too.
// Below both it misses alone.
#[test]
fn whose_miss_is_told(rt: HostRuntime) -> Result<(), Fail> {
    let refused = [
        Err(Refusal::Overload.at(2)),
        Err(Refusal::NewcomerOverload.at(2)),
        Err(Refusal::NewcomerOverload.at(3)),
    ];
    assert_eq!(rt; crowded(ExactSteps)?, refused);
    assert_eq!(rt; crowded(LinearTail::new(2)?)?, refused);
    assert_eq!(rt; crowded(Batches::new(1, 2)?)?, refused);
    Ok(())
}

// Rows that ask for a tick in 64, in exact steps: 32 stand, and there is no 33rd.
#[test]
fn as_many_rows_as_may_stand(rt: HostRuntime) -> Result<(), Fail> {
    let mut bench = Bench::new(ExactSteps);
    bench.set_frame(FrameNumbers { ticks: 64 })?;
    for rank in 1..=32 {
        bench.admit(rank, numbers(1, 64, 64, 0))?;
    }
    assert_eq!(rt;
        bench.admit(1, numbers(1, 64, 64, 0)),
        Err(Refusal::FullTable.at(0))
    );
    assert_eq!(rt; bench.table().len(), 32);
    assert_eq!(rt; standing(&bench, 32)?.1, meets(32, 1));
    Ok(())
}

// What an exchange answers on a bench by a bound with A and B, and the two rows afterwards.
fn answered<T: Bound + Drop>(
    bound: T,
    rank: usize,
    new: Numbers,
) -> Result<(Result<(), Fault>, [(Numbers, Finding); 2]), Fault> {
    let mut bench = Bench::new(bound);
    bench.set_frame(FRAME)?;
    bench.admit(1, A)?;
    bench.admit(2, B)?;
    let answer = exchange(&mut bench, rank, new);
    Ok((answer, [standing(&bench, 1)?, standing(&bench, 2)?]))
}

// E in the place of B: it rests at 4, by every bound.
#[test]
fn exchanged_rows(rt: HostRuntime) -> Result<(), Fail> {
    let exchanged = (Ok(()), [(A, meets(1, 1)), (E, meets(4, 1))]);
    assert_eq!(rt; answered(ExactSteps, 2, E)?, exchanged);
    assert_eq!(rt; answered(LinearTail::new(2)?, 2, E)?, exchanged);
    assert_eq!(rt; answered(Batches::new(1, 2)?, 2, E)?, exchanged);
    Ok(())
}

// Below a row of work 5 in the place of A, B would miss; in the place of B, a row with a deadline of 4
// misses itself, below A. Rows and findings stay.
#[test]
fn refused_exchanges(rt: HostRuntime) -> Result<(), Fail> {
    let crowd = numbers(5, 6, 6, 0);
    let rows = [(A, meets(1, 1)), (B, meets(3, 1))];
    let refused = (Err(Refusal::Overload.at(2)), rows);
    assert_eq!(rt; answered(ExactSteps, 1, crowd)?, refused);
    assert_eq!(rt; answered(LinearTail::new(2)?, 1, crowd)?, refused);
    assert_eq!(rt; answered(Batches::new(1, 2)?, 1, crowd)?, refused);
    let hasty = numbers(4, 4, 12, 0);
    let refused = (Err(Refusal::NewcomerOverload.at(2)), rows);
    assert_eq!(rt; answered(ExactSteps, 2, hasty)?, refused);
    assert_eq!(rt; answered(LinearTail::new(2)?, 2, hasty)?, refused);
    assert_eq!(rt; answered(Batches::new(1, 2)?, 2, hasty)?, refused);
    assert_eq!(rt;
        answered(ExactSteps, 3, E)?,
        (Err(Refusal::NoRank.at(0)), rows)
    );
    Ok(())
}

// Calls with refusals among them. A survey of the rows that stand then has the findings of the bench.
#[test]
fn played_calls(rt: HostRuntime) -> Result<(), Fail> {
    let calls = [
        Call::Admit(1, A),
        Call::Frame(FRAME),
        Call::Admit(1, B),
        Call::Frame(FrameNumbers { ticks: 6 }),
        Call::Admit(1, A),
        Call::Admit(3, E),
        Call::Dismiss(3),
        Call::Inquire(2),
    ];
    let mut replies = [Reply::Done; 8];
    let bench = play(LinearTail::new(2)?, &calls, &mut replies)?;
    let expected = [
        Reply::Refused(Refusal::OffFrame.at(0)),
        Reply::Done,
        Reply::Done,
        Reply::Refused(Refusal::StandingRows.at(0)),
        Reply::Done,
        Reply::Refused(Refusal::NewcomerOverload.at(3)),
        Reply::Refused(Refusal::NoRank.at(0)),
        Reply::Found(B.judge(0)?, meets(3, 1)),
    ];
    assert_eq!(rt; replies, expected);
    let mut list = [meets(7, 7); 2];
    let frame = bench.table().frame().numbers();
    survey(bench.bound(), frame, &[A, B], &mut list)?;
    assert_eq!(rt; bench.findings(), list.as_slice());
    Ok(())
}

// The bound comes back, and can be counted by again.
#[test]
fn too_few_places(rt: HostRuntime) -> Result<(), Fail> {
    let calls = [Call::Frame(FRAME), Call::Admit(1, A)];
    let stays = [Reply::Refused(Refusal::OffFrame.at(7))];
    let mut replies = stays;
    let Err(not_played) = play(LinearTail::new(2)?, &calls, &mut replies) else {
        return Err(Fail::new("two calls were played into one place"));
    };
    assert_eq!(rt; not_played.fault, Refusal::ShortList.at(0));
    assert_eq!(rt; replies, stays);
    let mut more = [Reply::Done; 2];
    let bench = play(not_played.bound, &calls, &mut more)?;
    assert_eq!(rt; standing(&bench, 1)?, (A, meets(1, 1)));
    Ok(())
}

// Swaps on a full bench, timed.
use crate::digests::with_findings;
use crate::outcomes::WorkOutcome;
use crate::works::Work;
use admission::Bench;
use anyhow::bail;
use bounds::Bound;
use rows::{Fault, Numbers, Table, count_met};
use std::rt::Clock;
use std::time::Instant;

// A bench on which the rows of a table stand.
fn filled<B: Bound + Drop>(bound: B, table: &Table) -> Result<Bench<B>, Fault> {
    let mut bench = Bench::new(bound);
    bench.set_frame(table.frame().numbers())?;
    for (i, row) in table.rows().iter().enumerate() {
        bench.admit(i.saturating_add(1), row.numbers())?;
    }
    Ok(bench)
}

// Dismisses the row at a rank, and admits it there again.
fn swap<B: Bound>(bench: &mut Bench<B>, rank: usize, numbers: Numbers) -> Result<(), Fault> {
    bench.dismiss(rank)?;
    bench.admit(rank, numbers)
}

/// Swaps the row at a rank of a bench on which the one table of a work stands, in as many rounds as the
/// work tells. The digest is of the findings after a dismissal, of those after the admission, and of
/// those after the rounds that are timed.
pub(crate) fn play_swap<B: Bound + Drop>(
    rt: &impl Clock,
    bound: B,
    rank: usize,
    work: &Work,
) -> anyhow::Result<WorkOutcome> {
    let [table] = &*work.tables else {
        bail!("a bench has one table");
    };
    let mut bench = filled(bound, table)?;
    let numbers = bench.inquire(rank)?.0.numbers();
    bench.dismiss(rank)?;
    let digest = with_findings(0, bench.findings());
    bench.admit(rank, numbers)?;
    let digest = with_findings(digest, bench.findings());
    let start = Instant::now(rt)?;
    for _ in 0..work.rounds {
        swap(&mut bench, rank, numbers)?;
    }
    let nanoseconds = start.elapsed(rt)?.as_nanos();
    Ok(WorkOutcome {
        met: count_met(bench.findings()),
        digest: with_findings(digest, bench.findings()),
        nanoseconds,
    })
}

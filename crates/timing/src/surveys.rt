// Surveys of many tables, timed.
use crate::digests::with_findings;
use crate::outcomes::{NO_FINDINGS, WorkOutcome};
use crate::works::Work;
use bounds::Bound;
use findings::recount;
use rows::{Fault, MOST_ROWS, Table, count_met};
use std::rt::Clock;
use std::time::Instant;

// The digest after a survey of each table, and how many rows met.
fn survey_round<B: Bound>(bound: &B, tables: &[Table], digest: u64) -> Result<(usize, u64), Fault> {
    let mut list = NO_FINDINGS;
    let mut met: usize = 0;
    let mut digest = digest;
    for table in tables {
        recount(bound, table, 0, &mut list)?;
        let findings = &list[..table.len().min(MOST_ROWS)];
        digest = with_findings(digest, findings);
        met = met.saturating_add(count_met(findings));
    }
    Ok((met, digest))
}

/// Surveys the tables of a work by a bound, in as many rounds as it tells.
pub(crate) fn play_survey<B: Bound>(
    rt: &impl Clock,
    bound: &B,
    work: &Work,
) -> anyhow::Result<WorkOutcome> {
    let mut met = 0;
    let mut digest = 0;
    let start = Instant::now(rt)?;
    for _ in 0..work.rounds {
        (met, digest) = survey_round(bound, &work.tables, digest)?;
    }
    let nanoseconds = start.elapsed(rt)?.as_nanos();
    Ok(WorkOutcome {
        met,
        digest,
        nanoseconds,
    })
}

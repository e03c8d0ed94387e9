// The worked table and what is found about its rows, as text.
use crate::table::{FRAME, worked_calls};
use admission::{Call, Reply, play};
use bounds::Bound;
use brackets::{count_both, least_accuracy, response_time};
use findings::{Finding, Verdict};
use rows::{Fault, Row, Table};
use tables::survey;

// The names of the three rows, in rank order.
const NAMES: [&str; 3] = ["A", "B", "E"];

// Rows on the frame of the worked table, as a table.
fn table_of(rows: &[Row]) -> Result<Table, Fault> {
    Table::of(&FRAME.judge()?, rows)
}

// The rows by rank, with their four numbers and their windows.
pub(crate) fn print_rows(rt: &HostRuntime, rows: &[Row; 3]) -> anyhow::Result<()> {
    println!(rt; "frame {}", FRAME.ticks)?;
    println!(rt; "rank  task  work  deadline  period  jitter  window")?;
    for (i, row) in rows.iter().enumerate() {
        let rank = i + 1;
        let name = NAMES[i];
        let window = row.window();
        println!(rt;
            "{rank:>4}  {name:<4}  {:>4}  {:>8}  {:>6}  {:>6}  {window:>6}",
            row.work, row.deadline, row.period, row.jitter
        )?;
    }
    Ok(())
}

// A survey of the table by a bound.
pub(crate) fn print_survey<B: Bound>(
    rt: &HostRuntime,
    title: &str,
    bound: &B,
    rows: &[Row; 3],
) -> anyhow::Result<()> {
    println!(rt; "")?;
    println!(rt; "{title}")?;
    println!(rt; "rank  task  first rest  response  points")?;
    let table = [rows[0].numbers(), rows[1].numbers(), rows[2].numbers()];
    let mut findings = [Finding::default(); 3];
    survey(bound, FRAME, &table, &mut findings)?;
    for (i, finding) in findings.iter().enumerate() {
        let rank = i + 1;
        let name = NAMES[i];
        let points = finding.points;
        match finding.verdict {
            Verdict::Meets(rest) => {
                let response = finding.response_bound(&rows[i]).unwrap_or(0);
                println!(rt; "{rank:>4}  {name:<4}  {rest:>10}  {response:>8}  {points:>6}")?;
            }
            Verdict::Misses => println!(rt;
                "{rank:>4}  {name:<4}      misses         -  {points:>6}"
            )?,
        }
    }
    Ok(())
}

// Each row counted in exact steps and by a bound, side by side, with the gap between the first
// rests.
pub(crate) fn print_both<B: Bound>(
    rt: &HostRuntime,
    title: &str,
    bound: &B,
    rows: &[Row; 3],
) -> anyhow::Result<()> {
    println!(rt; "")?;
    println!(rt; "exact steps beside {title}")?;
    println!(rt; "rank  task   exact   bound  gap")?;
    for (i, row) in rows.iter().enumerate() {
        let rank = i + 1;
        let name = NAMES[i];
        let counts = count_both(bound, row, &table_of(&rows[0..i])?)?;
        let gap = counts.gap().unwrap_or(0);
        match (counts.exact.verdict, counts.bounded.verdict) {
            (Verdict::Meets(exact), Verdict::Meets(bounded)) => println!(rt;
                "{rank:>4}  {name:<4}  {exact:>6}  {bounded:>6}  {gap:>3}"
            )?,
            (Verdict::Meets(exact), Verdict::Misses) => {
                println!(rt; "{rank:>4}  {name:<4}  {exact:>6}  misses    -")?
            }
            (Verdict::Misses, _) => println!(rt; "{rank:>4}  {name:<4}  misses  misses    -")?,
        }
    }
    Ok(())
}

// The least accuracy of a linear tail by which each row meets.
pub(crate) fn print_accuracies(rt: &HostRuntime, rows: &[Row; 3]) -> anyhow::Result<()> {
    println!(rt; "")?;
    println!(rt; "least accuracy of a linear tail")?;
    println!(rt; "rank  task  accuracy")?;
    for (i, row) in rows.iter().enumerate() {
        let rank = i + 1;
        let name = NAMES[i];
        match least_accuracy(row, &table_of(&rows[0..i])?)? {
            Some(accuracy) => println!(rt; "{rank:>4}  {name:<4}  {accuracy:>8}")?,
            None => println!(rt; "{rank:>4}  {name:<4}      none")?,
        }
    }
    Ok(())
}

// The response time of each row, in exact steps, beside its deadline.
pub(crate) fn print_response_times(rt: &HostRuntime, rows: &[Row; 3]) -> anyhow::Result<()> {
    println!(rt; "")?;
    println!(rt; "response times")?;
    println!(rt; "rank  task  response  deadline")?;
    for (i, row) in rows.iter().enumerate() {
        let rank = i + 1;
        let name = NAMES[i];
        let deadline = row.deadline;
        match response_time(row, &rows[0..i])? {
            Some(time) => println!(rt; "{rank:>4}  {name:<4}  {time:>8}  {deadline:>8}")?,
            None => println!(rt; "{rank:>4}  {name:<4}    misses  {deadline:>8}")?,
        }
    }
    Ok(())
}

// A call, with the row of its numbers where it brings one.
fn print_call(rt: &HostRuntime, call: &Call) -> anyhow::Result<()> {
    match call {
        Call::Frame(frame) => print!(rt; "frame {}", frame.ticks)?,
        Call::Admit(rank, row) => print!(rt;
            "admit {rank} {} {} {} {}",
            row.work, row.deadline, row.period, row.jitter
        )?,
        Call::Dismiss(rank) => print!(rt; "dismiss {rank}")?,
        Call::Inquire(rank) => print!(rt; "inquire {rank}")?,
    }
    Ok(())
}

// The reply to a call, of a row its finding.
fn print_reply(rt: &HostRuntime, reply: &Reply) -> anyhow::Result<()> {
    match reply {
        Reply::Done => println!(rt; "done")?,
        Reply::Found(_, finding) => {
            let points = finding.points;
            match finding.verdict {
                Verdict::Meets(rest) => println!(rt; "first rest {rest}, points {points}")?,
                Verdict::Misses => println!(rt; "misses, points {points}")?,
            }
        }
        Reply::Refused(fault) => println!(rt; "{fault}")?,
    }
    Ok(())
}

// The worked calls, played on a new bench by a bound.
pub(crate) fn print_bench<B: Bound + Drop>(
    rt: &HostRuntime,
    title: &str,
    bound: B,
) -> anyhow::Result<()> {
    println!(rt; "")?;
    println!(rt; "bench by the {title}")?;
    let calls = worked_calls();
    let mut replies = [Reply::Done; 9];
    play(bound, &calls, &mut replies)?;
    for (call, reply) in calls.iter().zip(replies.iter()) {
        print_call(rt, call)?;
        print!(rt; ": ")?;
        print_reply(rt, reply)?;
    }
    Ok(())
}

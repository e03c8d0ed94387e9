//! Plays the works in standard input by the library, prints what was found to standard output, and the
//! nanoseconds that each took to standard error (benchmark/README.md).
#![tactic(auto)]

mod digests;
mod lines;
mod outcomes;
mod surveys;
mod swaps;
mod works;

use anyhow::Context;
use bounds::{ExactSteps, Supplied};
use lines::WorkLine;
use outcomes::WorkOutcome;
use std::io::{BufRead, BufReader};
use std::rt::Clock;
use surveys::play_survey;
use swaps::play_swap;
use works::{Action, Work};

// Plays a work by a bound. Each bound that the toolkit supplies has its own code.
fn play(rt: &impl Clock, work: &Work) -> anyhow::Result<WorkOutcome> {
    match (work.action, work.bound) {
        (Action::Survey, Supplied::ExactSteps) => play_survey(rt, &ExactSteps, work),
        (Action::Survey, Supplied::LinearTail(tail)) => play_survey(rt, &tail, work),
        (Action::Survey, Supplied::Staircase(stairs)) => play_survey(rt, &stairs, work),
        (Action::Swap(rank), Supplied::ExactSteps) => play_swap(rt, ExactSteps, rank, work),
        (Action::Swap(rank), Supplied::LinearTail(tail)) => play_swap(rt, tail, rank, work),
        (Action::Swap(rank), Supplied::Staircase(stairs)) => play_swap(rt, stairs, rank, work),
    }
}

// Plays a work and prints what was found and how long it took.
fn play_and_print(rt: &(impl Clock + Print + Eprint), work: &Work) -> anyhow::Result<()> {
    let name = &work.name;
    let tables = work.tables.len();
    let rows = work.rows();
    let outcome = play(rt, work).context(format_args!("work {name}"))?;
    let met = outcome.met;
    let digest = outcome.digest;
    let nanoseconds = outcome.nanoseconds;
    println!(rt; "{name} tables {tables} rows {rows} met {met} digest {digest}")?;
    eprintln!(rt; "{name} {nanoseconds}")?;
    Ok(())
}

// Plays the works one after the other, each when its last line was read.
fn run(rt: &HostRuntime) -> anyhow::Result<()> {
    let alloc = rt.alloc();
    let mut work: Option<Work> = None;
    let lines = BufReader::new(alloc, rt.reader())?.lines(alloc);
    for (i, text) in lines.enumerate() {
        let text = text?;
        let number = i.saturating_add(1);
        let line = WorkLine::parse(alloc, &text).context(format_args!("line {number}"))?;
        if let WorkLine::Work(next) = line {
            if let Some(played) = work.replace(next) {
                play_and_print(rt, &played)?;
            }
        } else {
            let work = work.as_mut().context("no work before its tables")?;
            work.add(&line)?;
        }
    }
    match &work {
        Some(work) => play_and_print(rt, work),
        None => Ok(()),
    }
}

fn main(rt: HostRuntime) -> anyhow::Result<()> {
    run(&rt)
}

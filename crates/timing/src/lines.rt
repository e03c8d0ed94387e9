// The lines of works.
use crate::works::{Action, Work};
use anyhow::{Context, bail, ensure};
use bounds::{Family, Supplied};
use rows::{FrameNumbers, Numbers, Row};
use std::alloc::Global;

/// A line: a work that has no table yet, the frame of a table, or a row.
#[derive(Drop)]
pub(crate) enum WorkLine {
    Work(Work),
    Table(FrameNumbers),
    Row(Row),
}

impl WorkLine {
    /// The line that a text tells.
    pub(crate) fn parse(alloc: Global, text: &str) -> anyhow::Result<WorkLine> {
        match text.split_once(' ') {
            Some(("work", rest)) => Ok(WorkLine::Work(work(alloc, rest)?)),
            Some(("table", rest)) => {
                let ticks = rest.parse().context("reading a frame")?;
                Ok(WorkLine::Table(FrameNumbers { ticks }))
            }
            Some(("row", rest)) => Ok(WorkLine::Row(row(alloc, rest)?)),
            _ => bail!("a line begins with work, table or row: {text:?}"),
        }
    }
}

// A work in five words: name, action, bound, accuracy and rounds.
fn work(alloc: Global, text: &str) -> anyhow::Result<Work> {
    let mut words = text.split_ascii_whitespace();
    let name = words.next().context("no name")?;
    let action = action(words.next().context("no action")?)?;
    let kind = words.next().context("no bound")?;
    let accuracy = words.next().context("no accuracy")?;
    let rounds = words.next().context("no rounds")?;
    ensure!(words.next().is_none(), "more than five words: {text:?}");
    Ok(Work {
        name: name.to_string(alloc)?,
        action,
        bound: bound(alloc, kind, accuracy)?,
        rounds: rounds.parse().context("reading the rounds")?,
        tables: Vec::new(alloc),
    })
}

// The action that a word names: `survey`, or `swap-` and a rank.
fn action(word: &str) -> anyhow::Result<Action> {
    match word.split_once('-') {
        None if word == "survey" => Ok(Action::Survey),
        Some(("swap", rank)) => Ok(Action::Swap(rank.parse().context("reading a rank")?)),
        _ => bail!("an action is survey or swap-RANK: {word:?}"),
    }
}

// The bound that a word and an accuracy name; where there is but one of the kind, any accuracy does.
fn bound(alloc: Global, word: &str, accuracy: &str) -> anyhow::Result<Supplied> {
    for family in Family::all() {
        if family.word() == word {
            return bound_of(family, accuracy);
        }
    }
    let words = Family::all()
        .map(|family| family.word())
        .join(alloc, " or ")?;
    bail!("a bound is {words}: {word:?}")
}

// The bound of a kind and an accuracy.
fn bound_of(family: Family, accuracy: &str) -> anyhow::Result<Supplied> {
    let accuracy = if family.has_accuracies() {
        accuracy.parse().context("reading the accuracy")?
    } else {
        0
    };
    Ok(family.bound(accuracy)?)
}

// The row of four numbers.
fn row(alloc: Global, text: &str) -> anyhow::Result<Row> {
    let words: Vec<&str> = text.split_ascii_whitespace().collect(alloc)?;
    let [work, deadline, period, jitter] = words.as_slice() else {
        bail!("a row has four numbers: {text:?}");
    };
    let numbers = Numbers {
        work: work.parse().context("reading the work")?,
        deadline: deadline.parse().context("reading the deadline")?,
        period: period.parse().context("reading the period")?,
        jitter: jitter.parse().context("reading the jitter")?,
    };
    Ok(numbers.judge(0)?)
}

// Questions about a row.
use anyhow::{Context, bail};
use batches::Batches;
use bounds::{LinearTail, Staircase};
use rows::{Fault, FrameNumbers, Numbers, Row, Table};
use std::alloc::Global;
use std::str;

/// A row below others, on a frame that nobody has judged.
#[derive(Drop)]
pub(crate) struct RowQuestion {
    pub(crate) frame: FrameNumbers,
    pub(crate) above: Vec<Row>,
    pub(crate) row: Row,
}

/// The question that a line tells, and the linear tail by which it is counted beside the exact steps:
/// the frame, the accuracy of the tail, and the rows.
pub(crate) fn with_tail(alloc: Global, line: &[u8]) -> anyhow::Result<(LinearTail, RowQuestion)> {
    let (accuracy, question) = with_accuracy(alloc, line)?;
    Ok((LinearTail::new(accuracy)?, question))
}

/// The question that a line tells, and the staircase by which it is counted: the frame, the accuracy of
/// the staircase, and the rows.
pub(crate) fn with_staircase(
    alloc: Global,
    line: &[u8],
) -> anyhow::Result<(Staircase, RowQuestion)> {
    let (accuracy, question) = with_accuracy(alloc, line)?;
    Ok((Staircase::new(accuracy)?, question))
}

// The question that a line tells, and the accuracy of the bound by which it is counted.
fn with_accuracy(alloc: Global, line: &[u8]) -> anyhow::Result<(u32, RowQuestion)> {
    let numbers = numbers(alloc, str::from_utf8(line)?)?;
    let [frame, accuracy, rows @ ..] = numbers.as_slice() else {
        bail!("no frame and accuracy");
    };
    Ok((*accuracy, RowQuestion::of(alloc, *frame, rows)?))
}

/// The question that a line tells, and the batches by which it is counted: the frame, the accuracy and
/// the size of a batch, and the rows.
pub(crate) fn with_batches(alloc: Global, line: &[u8]) -> anyhow::Result<(Batches, RowQuestion)> {
    let numbers = numbers(alloc, str::from_utf8(line)?)?;
    let [frame, accuracy, size, rows @ ..] = numbers.as_slice() else {
        bail!("no frame, accuracy and size");
    };
    let question = RowQuestion::of(alloc, *frame, rows)?;
    Ok((Batches::new(*accuracy, *size)?, question))
}

impl RowQuestion {
    // The question of a frame and of four numbers for each row in rank order, the last of which is
    // the row asked about.
    fn of(alloc: Global, frame: u32, rows: &[u32]) -> anyhow::Result<RowQuestion> {
        let mut above = Vec::new(alloc);
        for numbers in rows.chunks(4) {
            let rank = u32::try_from(above.len())?.saturating_add(1);
            above.push(row(numbers, rank)?)?;
        }
        let row = above.pop().context("no row")?;
        Ok(RowQuestion {
            frame: FrameNumbers { ticks: frame },
            above,
            row,
        })
    }

    /// The table of the rows above.
    pub(crate) fn table(&self) -> Result<Table, Fault> {
        Table::of(&self.frame.judge()?, &self.above)
    }
}

// The numbers in a text, with blanks between them.
fn numbers(alloc: Global, text: &str) -> anyhow::Result<Vec<u32>> {
    let mut numbers = Vec::new(alloc);
    for word in text.split_ascii_whitespace() {
        numbers.push(word.parse::<u32>().context("reading a number")?)?;
    }
    Ok(numbers)
}

// The row of four numbers, judged at its rank.
fn row(numbers: &[u32], rank: u32) -> anyhow::Result<Row> {
    let [work, deadline, period, jitter] = *numbers else {
        bail!("a row has four numbers");
    };
    let numbers = Numbers {
        work,
        deadline,
        period,
        jitter,
    };
    Ok(numbers.judge(rank)?)
}

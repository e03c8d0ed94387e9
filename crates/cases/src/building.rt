// Short ways to write down rows, tables, findings and headings.
ghost use Rattle.std.specs.Prelude.{◌+◌, ◌≤◌};
ghost use Rattle.rows.specs.Times.{horizon};

use leaves::HeadingNumbers;
use rows::{Fault, Finding, FrameNumbers, Numbers, Row, Table, Verdict};

// Four plain numbers: work, deadline, period and jitter.
pub(crate) fn numbers(work: u32, deadline: u32, period: u32, jitter: u32) -> Numbers {
    Numbers {
        work,
        deadline,
        period,
        jitter,
    }
}

// The row of four numbers that are one: written down as it is, with nothing to judge.
pub(crate) fn row(work: u32, deadline: u32, period: u32, jitter: u32) -> Row
    requires busy { 1 ≤ work }
    requires roomy { work + jitter ≤ deadline }
    requires timely { deadline ≤ period }
    requires near { period ≤ horizon }
{
    Row {
        work,
        deadline,
        period,
        jitter,
    }
}

// Rows on a frame of so many ticks, as a table.
pub(crate) fn table(ticks: u32, rows: &[Row]) -> Result<Table, Fault> {
    Table::of(&FrameNumbers { ticks }.judge()?, rows)
}

// A finding of a first rest.
pub(crate) fn meets(rest: u32, points: u32) -> Finding {
    Finding {
        verdict: Verdict::Meets(rest),
        points,
    }
}

// A finding of a miss.
pub(crate) fn misses(points: u32) -> Finding {
    Finding {
        verdict: Verdict::Misses,
        points,
    }
}

// The numbers of a heading: frame, bound and accuracy.
pub(crate) fn heading(ticks: u32, bound: u8, accuracy: u8) -> HeadingNumbers {
    HeadingNumbers {
        frame: FrameNumbers { ticks },
        bound,
        accuracy,
    }
}

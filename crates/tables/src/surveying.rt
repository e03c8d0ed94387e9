// The survey of a table.
ghost use Rattle.std.specs.Prelude.{◌≡◌, map, length, MatchResult, OnOk};
ghost use Rattle.rows.specs.Answers.{answer, checked};
ghost use Rattle.rows.specs.Judging.{plain, rows_of};
ghost use Rattle.rows.specs.Lists.{written, StaysOutside};
ghost use Rattle.rows.specs.Found.{tells};
ghost use Rattle.findings.specs.Tables.{findings_of, TableSays};
ghost use Rattle.tables.specs.Surveys.{survey_checks};

use bounds::Bound;
use findings::{check_size, recount};
use rows::{Fault, Finding, FrameNumbers, Numbers, Table};

/// The survey of a table (docs/RULES.md, Surveys): judges the frame and every place, and puts the
/// findings of the rows into the list, in rank order; the places past the last row stay. Answers how
/// many rows there are.
///
/// Refused, each at 0, with 1, bad frame, 9, full table, and 12, short list; then with 4, idle row,
/// 5, no window, 6, late deadline, 7, long period, and 8, off frame, at the smallest rank that is so
/// (docs/REFUSALS.md). A refused call leaves the list as it was.
pub fn survey<B: Bound>(
    bound: &B,
    frame: FrameNumbers,
    table: &[Numbers],
    list: &mut [Finding],
) -> Result<usize, Fault>
    ensures answered { answer (λ n. n) result
        ≡ checked (survey_checks frame table.now (length list.old)) (length table.now) }
    ensures filled { MatchResult result (λ _. map tells list.new
        ≡ written (map tells list.old) 0
        (findings_of (B.meaning bound.now) frame (rows_of table.now)))
        (λ _. list.new ≡ list.old) }
    ensures stay { StaysOutside 0 (length table.now) list.old list.new }
    ensures rows { OnOk result (map plain (rows_of table.now) ≡ table.now) }
    ensures says { OnOk result (TableSays (B.meaning bound.now) frame (rows_of table.now)) }
{
    let frame = frame.judge()?;
    check_size(table.len(), list.len())?;
    let judged = Table::judge(&frame, table)?;
    recount(bound, &judged, 0, list)?;
    Ok(table.len())
}

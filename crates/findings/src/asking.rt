// The public questions about a row: its input is checked before anything is counted.
ghost use Rattle.std.specs.Prelude.{◌≡◌, ◌≤◌, IfOk, OnOk, length};
ghost use Rattle.rows.specs.Answers.{answer, checked};
ghost use Rattle.rows.specs.Books.{IsJudged};
ghost use Rattle.findings.specs.Asking.{most_above, question_checks};
ghost use Rattle.rows.specs.Found.{tells};
ghost use Rattle.findings.specs.Findings.{row_finding, RowSays};

use crate::loads::Load;
use crate::preparing::Prepared;
use bounds::Bound;
use rows::{Fault, Finding, MOST_ROWS, Refusal, Row, Table};

// One row of a table less: at most so many stand above another.
const MOST_ABOVE: usize = MOST_ROWS - 1;

// What is checked of a question before anything is counted.
pub(crate) fn check_question(row: &Row, above: &Table) -> Result<(), Fault>
    ensures answered { answer (λ u. u) result
        ≡ checked (question_checks row.now above.now) tt }
    ensures few { OnOk result (length above.now.rows ≤ most_above) }
    ensures judged { OnOk result (IsJudged above.now) }
{
    let above_it = above.rows().len();
    if above_it > MOST_ABOVE {
        return Err(Refusal::FullTable.at(0));
    }
    if !row.stands_on(above.frame()) {
        return Err(Refusal::OffFrame.at(above_it as u32 + 1));
    }
    Ok(())
}

/// The finding about a row below a table, by a bound: its first rest in ticks, at most its window,
/// and the points tested (docs/RULES.md, Findings).
///
/// Refused with 9, full table, at 0 below more than 31 rows; 8, off frame, at the rank below the
/// table's last where its period does not divide the table's frame.
pub fn find<B: Bound>(bound: &B, row: &Row, above: &Table) -> Result<Finding, Fault>
    ensures answered { answer tells result ≡ checked (question_checks row.now above.now)
        (row_finding (B.meaning bound.now) above.now.frame row.now above.now.rows) }
    ensures says { IfOk result (λ f. RowSays (B.meaning bound.now) above.now.frame row.now
        above.now.rows (tells f)) }
    ensures judged { OnOk result (IsJudged above.now) }
{
    check_question(row, above)?;
    let frame = above.frame();
    let rows = above.rows();
    let mut prepared = Prepared::new();
    prepared.keep(bound, frame, rows);
    Ok(Load::new(bound, frame, row.work, rows, &prepared).finding(row.window()))
}

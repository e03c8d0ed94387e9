// How accurate a linear tail has to be for a row to meet.
ghost use Rattle.std.specs.Prelude.{◌≡◌, IfOk};
ghost use Rattle.rows.specs.Answers.{answer, checked};
ghost use Rattle.bounds.specs.Instants.{least};
ghost use Rattle.bounds.specs.Meaning.{finest};
ghost use Rattle.findings.specs.Asking.{question_checks};
ghost use Rattle.brackets.specs.Bracketing.{FinerIsNoLater};
ghost use Rattle.brackets.specs.Counting.{has_rest_by, MeetsFrom};

use bounds::{FINEST, LinearTail};
use findings::find;
use rows::{Fault, Row, Table, Verdict};

/// The least accuracy of a linear tail, from 1 to 64, by which a row below a table meets, if there
/// is one (docs/RULES.md, How far two counts part).
///
/// Refused as `findings::find` is: 9, full table, at 0; 8, off frame, at the rank below the table's
/// last.
#[tactic(auto, using(crate::proofs::Tails::finer_tails))]
pub fn least_accuracy(row: &Row, above: &Table) -> Result<Option<u32>, Fault>
    ensures answered { answer (λ o. o) result
        ≡ checked (question_checks row.now above.now)
        (least (has_rest_by above.now.frame row.now above.now.rows) finest 1) }
    ensures from { IfOk result (λ o. MeetsFrom above.now.frame row.now above.now.rows o) }
    ensures finer { FinerIsNoLater }
{
    for accuracy in 1..=FINEST {
        let tail = LinearTail::new(accuracy)?;
        let finding = find(&tail, row, above)?;
        if let Verdict::Meets(_) = finding.verdict {
            return Ok(Some(accuracy));
        }
    }
    Ok(None)
}

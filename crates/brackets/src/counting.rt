// A row counted twice, and how far apart the counts are.
ghost use Rattle.std.specs.Prelude.{◌≡◌, IfOk};
ghost use Rattle.rows.specs.Answers.{answer, checked};
ghost use Rattle.findings.specs.Asking.{question_checks};
ghost use Rattle.findings.specs.Exact.{exact_rest};
ghost use Rattle.rows.specs.Found.{verdict_rest};
ghost use Rattle.brackets.specs.Bracketing.{OrderIsFree, LiesBetween, Brackets, FewerIsNoLater};
ghost use Rattle.brackets.specs.Counting.{both_found, gap, row_counts};

use bounds::{Bound, ExactSteps};
use findings::find;
use rows::{Fault, Finding, Row, Table, Verdict};

/// A row counted twice: in exact steps and by a bound.
#[derive(Clone, Copy, PartialEq, Eq, Debug)]
pub struct Counts {
    pub exact: Finding,
    pub bounded: Finding,
}

impl Counts {
    /// How many ticks later the row rests by the bound than in exact steps, where it meets by both.
    pub fn gap(&self) -> Option<u32>
        ensures { result
            ≡ gap (verdict_rest self.now.exact.verdict) (verdict_rest self.now.bounded.verdict) }
    {
        match (self.exact.verdict, self.bounded.verdict) {
            (Verdict::Meets(exact), Verdict::Meets(bounded)) => Some(bounded.saturating_sub(exact)),
            _ => None,
        }
    }
}

/// The findings about a row below a table, in exact steps and by a bound (docs/RULES.md, How far two
/// counts part).
///
/// Refused as `findings::find` is: 9, full table, at 0; 8, off frame, at the rank below the table's
/// last.
#[tactic(auto, using(crate::proofs::TwoCounts::both_told))]
pub fn count_both<B: Bound>(bound: &B, row: &Row, above: &Table) -> Result<Counts, Fault>
    ensures answered { answer both_found result
        ≡ checked (question_checks row.now above.now)
        (row_counts (B.meaning bound.now) above.now.frame row.now above.now.rows) }
    ensures exactly { IfOk result
        (λ c. verdict_rest c.exact.verdict ≡ exact_rest row.now above.now.rows) }
    ensures between { IfOk result
        (λ c. LiesBetween (B.meaning bound.now).accuracy row.now above.now.rows
        (verdict_rest c.bounded.verdict)) }
    ensures brackets { Brackets (B.meaning bound.now) }
    ensures fewer { FewerIsNoLater (B.meaning bound.now) }
    ensures order { OrderIsFree (B.meaning bound.now) }
{
    let exact = find(&ExactSteps, row, above)?;
    let bounded = find(bound, row, above)?;
    Ok(Counts { exact, bounded })
}

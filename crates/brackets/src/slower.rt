// The first rest of a row on a slower processor, in exact steps.
ghost use Rattle.std.specs.Prelude.{◌≡◌, IfOk};
ghost use Rattle.rows.specs.Answers.{answer, checked};
ghost use Rattle.findings.specs.Exact.{exact_rest};
ghost use Rattle.brackets.specs.Bracketing.{IsNoLater, slow_rest};
ghost use Rattle.brackets.specs.Slower.{slow_checks, IsFirstSlowRest, BoundsAreNoLater};

use crate::speeds::{Speed, climb};
use bounds::FINEST;
use rows::{Fault, MOST_ROWS, Refusal, Row};

/// The first rest in ticks of a row below others, in exact steps on a processor of speed k/(k + 1),
/// where k is the accuracy: none where it misses (docs/RULES.md, How far two counts part). It needs
/// no frame.
///
/// Refused with 3, bad accuracy, at 0 outside 1 to 64; then with 9, full table, at 0 with more than
/// 31 rows above.
#[tactic(auto, using(crate::proofs::SlowRests::slow_rest_says))]
pub fn slow_rest(accuracy: u32, row: &Row, above: &[Row]) -> Result<Option<u32>, Fault>
    ensures answered { answer (λ o. o) result
        ≡ checked (slow_checks accuracy above.now) (slow_rest accuracy row.now above.now) }
    ensures first { IfOk result (λ o. IsFirstSlowRest accuracy row.now above.now o) }
    ensures exactly { IfOk result (λ o. IsNoLater (exact_rest row.now above.now) o) }
    ensures bounds { IfOk result (λ o. BoundsAreNoLater accuracy row.now above.now o) }
{
    if accuracy == 0 || accuracy > FINEST {
        return Err(Refusal::BadAccuracy.at(0));
    }
    // With the row itself there is one more.
    if above.len() >= MOST_ROWS {
        return Err(Refusal::FullTable.at(0));
    }
    let speed = Speed {
        served: accuracy,
        within: accuracy + 1,
    };
    Ok(climb(speed, row, above))
}

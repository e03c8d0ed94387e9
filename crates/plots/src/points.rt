// The test points of a demand that is lent.
ghost use Rattle.std.specs.Prelude.{◌≡◌};
ghost use Rattle.bounds.specs.Instants.{count};
ghost use Rattle.findings.specs.Findings.{is_tested};
ghost use Rattle.findings.specs.Lent.{lent_load, lent_window};

use bounds::Bound;
use findings::Demand;

// Whether an instant is a test point.
pub(crate) fn is_point<B: Bound>(demand: &Demand<'_, B>, at: u32) -> bool
    ensures { result ≡ is_tested (lent_load demand.now) (lent_window demand.now) at }
{
    1 <= at && demand.next_point(at - 1) == Some(at)
}

// How many test points there are.
#[tactic(auto, using(crate::proofs::Walk::count_none))]
pub(crate) fn count_points<B: Bound>(demand: &Demand<'_, B>) -> u32
    ensures { result ≡ count (is_tested (lent_load demand.now) (lent_window demand.now))
        (lent_window demand.now) }
{
    let mut points = 0;
    let mut at = 0;
    while let Some(next) = demand.next_point(at) {
        at = next;
        points += 1;
    }
    points
}

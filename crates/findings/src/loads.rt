// A load on the processor, as the search holds it.
ghost use Rattle.std.specs.Prelude.{◌≤◌};
ghost use Rattle.rows.specs.Times.{horizon};
ghost use Rattle.findings.specs.Asking.{most_above};
ghost use Rattle.findings.specs.Countable.{CanBeCounted};
ghost use Rattle.findings.specs.Prepared.{Prepares};

use crate::preparing::Prepared;
use bounds::Bound;
use rows::Row;

// Some own work below rows that stand on a frame and are few enough, counted by a bound, with what is
// kept of the rows.
#[derive(Drop)]
pub(crate) struct Load<'a, B: Bound> {
    pub(crate) bound: &'a B,
    pub(crate) frame: u32,
    pub(crate) own: u32,
    pub(crate) above: &'a [Row],
    pub(crate) prepared: &'a Prepared,
    ghost countable: { CanBeCounted most_above frame above.now },
    ghost small: { own ≤ horizon },
    ghost kept: { Prepares (B.meaning bound.now) frame above.now prepared.now },
}

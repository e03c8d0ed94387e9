// A question about a row below a table, as its demand is lent.
ghost use Rattle.std.specs.Prelude.{◌≤◌, length};
ghost use Rattle.findings.specs.Asking.{most_above};
ghost use Rattle.findings.specs.Prepared.{Prepares};

use crate::preparing::Prepared;
use bounds::Bound;
use rows::{Row, Table};

/// The demand of a row below a table by a bound, to be read: its amounts, the instants at which it is
/// served, and its test points (docs/RULES.md, Rests). `of` makes it.
#[derive(Drop)]
pub struct Demand<'a, B: Bound> {
    pub(crate) bound: &'a B,
    pub(crate) row: &'a Row,
    pub(crate) above: &'a Table,
    pub(crate) prepared: Prepared,
    pub(crate) ghost few: { length above.now.rows ≤ most_above },
    pub(crate) ghost kept: { Prepares (B.meaning bound.now) above.now.frame.ticks above.now.rows prepared },
}

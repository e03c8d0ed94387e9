// The demand of a load at an instant, and the next instant to test.
ghost use Rattle.std.specs.Prelude.{◌≡◌, ◌<◌, ◌≤◌, fold, get_or, length, min};
ghost use Rattle.std.specs.List.{filter_map};
ghost use Rattle.rows.specs.declared.tasks.Row.{Row as TheRow};
ghost use Rattle.rows.specs.Times.{horizon};
ghost use Rattle.bounds.specs.Answering.{corner_after};
ghost use Rattle.bounds.specs.Instants.{IsFirst};
ghost use Rattle.bounds.specs.Questions.{asked_at, asked_frame, asked_row};
ghost use Rattle.findings.specs.Asking.{most_above};
ghost use Rattle.findings.specs.Demand.{load, demand, is_rest};
ghost use Rattle.findings.specs.Findings.{is_tested};
ghost use Rattle.findings.specs.Countable.{CanBeCounted};
ghost use Rattle.findings.specs.Loads.{load_of};
ghost use Rattle.findings.specs.Prepared.{Prepares};
ghost use Rattle.findings.specs.Served.{exact_of};

use crate::loads::Load;
use crate::preparing::Prepared;
use bounds::{Asked, Bound};
use rows::{Frame, Row};

impl<'a, B: Bound> Load<'a, B> {
    // The load of some own work below rows that passed their checks.
    pub(crate) fn new(
        bound: &'a B,
        frame: &Frame,
        own: u32,
        above: &'a [Row],
        prepared: &'a Prepared,
    ) -> Self
        requires countable { CanBeCounted most_above frame.now.ticks above.now }
        requires small { own ≤ horizon }
        requires kept { Prepares (B.meaning bound.now) frame.now.ticks above.now prepared.now }
        ensures { load_of result ≡ load (B.meaning bound.now) frame.now.ticks own above.now }
    {
        Load {
            bound,
            frame: frame.ticks(),
            own,
            above,
            prepared,
        }
    }

    // The question how much the row at a place above can demand up to an instant.
    fn asked(&self, place: usize, at: u32) -> Asked<'_>
        requires there { place < length self.now.above.now }
        requires near { at ≤ horizon }
        ensures frame { asked_frame result ≡ self.now.frame }
        ensures row { (d : TheRow) → asked_row result ≡ get_or self.now.above.now place d }
        ensures at { asked_at result ≡ at }
    {
        self.prepared.rows[place].at(at).unwrap()
    }

    // The exact demand up to the instant, in units of work.
    pub(crate) fn exact(&self, at: u32) -> u32
        requires near { at ≤ horizon }
        ensures { result ≡ exact_of (load_of self.now) at }
    {
        let mut demand = self.own;
        for i in 0..self.above.len() {
            demand += self.asked(i, at).steps();
        }
        demand
    }

    // The least of an instant and the next corners of the rows above.
    fn nearest_corner(&self, after: u32, last: u32) -> u32
        ensures { result ≡ fold min last (filter_map
            (λ r. corner_after (B.meaning self.now.bound.now) r after) self.now.above.now) }
    {
        self.above
            .iter()
            .filter_map(|row| self.bound.corner_after(row, after))
            .fold(last, |next, corner| next.min(corner))
    }

    // All that is demanded up to the instant, in parts.
    pub(crate) fn demand(&self, at: u32) -> u64
        requires { at ≤ horizon }
        ensures { result ≡ demand (load_of self.now) at }
    {
        let mut demand = u64::from(self.frame) * u64::from(self.own);
        for i in 0..self.above.len() {
            demand += self.bound.amount_asked(&self.asked(i, at));
        }
        demand
    }

    // Whether all that is demanded up to the instant is served by it.
    pub(crate) fn is_rest(&self, at: u32) -> bool
        requires { at ≤ horizon }
        ensures { result ≡ is_rest (load_of self.now) at }
    {
        self.demand(at) <= u64::from(self.frame) * u64::from(at)
    }

    // The first test point after the instant, for a row that may rest up to `last`.
    pub(crate) fn next_point(&self, after: u32, last: u32) -> u32
        requires before { after < last }
        requires near { last ≤ horizon }
        ensures { IsFirst (is_tested (load_of self.now) last) after last result }
    {
        self.nearest_corner(after, last)
    }
}

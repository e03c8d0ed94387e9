// Bounds that are exact up to some number of releases, and something of their own from there on.
ghost use Rattle.std.specs.Prelude.{◌≡◌, ◌+◌, ◌-◌, ◌*◌, ◌≤◌, min};
ghost use Rattle.rows.specs.Times.{horizon};
ghost use Rattle.bounds.specs.Tails.{LateLaws, Shape, is_exact, late_asked};

use crate::interface::Bound;
use crate::questions::{Asked, OnFrame};
use crate::releases::{mark_rises, rise_after};
use rows::{HORIZON, Row};

/// What a bound counts past the releases that it counts exactly (docs/OWN_BOUND.md, Exact at first).
/// `Tail` makes a bound of it, whose corners are the rises of the exact releases.
pub trait Late {
    ghost shape: { Self → Shape };

    /// The amount of a question past the exact releases, in parts, frame parts to a unit of work.
    fn late(&self, question: &Asked) -> u64
        ensures { result ≡ late_asked (shape self.now) question.now };

    /// The accuracy k: past the exact releases no amount is more than (k + 1) / k times the exact steps.
    fn accuracy(&self) -> u32
        ensures { result ≡ (shape self.now).accuracy };

    /// How many releases of each row are counted exactly.
    fn exact(&self) -> u32
        ensures { result ≡ (shape self.now).exact };

    ghost lawful: { (s : Self) → LateLaws (shape s) };
}

/// A bound that is exact for the first releases of each row, and then late.
#[derive(Clone, Copy, PartialEq, Eq, Debug, Drop)]
pub struct Tail<L: Late> {
    /// What it counts past them.
    pub late: L,
}

impl<L: Late> Tail<L> {
    // How long the exact releases of the row last, counted from the first.
    fn covered(&self, row: &Row) -> u64
        ensures { result ≡ (L.shape self.now.late).exact * row.now.period }
    {
        u64::from(self.late.exact()) * u64::from(row.period)
    }

    // Whether the instant is not past them.
    fn is_exact(&self, row: &Row, at: u32) -> bool
        ensures { result ≡ is_exact (L.shape self.now.late).exact row.now at }
    {
        u64::from(at) + u64::from(row.jitter) <= self.covered(row)
    }

    // The last instant up to the horizon that is not past them, and 0 where the jitter is.
    fn last_exact(&self, row: &Row) -> u32
        ensures { result ≡ min ((L.shape self.now.late).exact * row.now.period - row.now.jitter) horizon }
    {
        self.covered(row)
            .saturating_sub(u64::from(row.jitter))
            .min(u64::from(HORIZON)) as u32
    }
}

impl<L: Late> Bound for Tail<L> {
    ghost use Rattle.bounds.specs.Tails.{tail};
    ghost use Rattle.bounds.specs.Lemmas.TailLaws.{tail_laws};

    ghost meaning = { λ b. tail (L.shape b.late) };

    ghost lawful = { λ b. tail_laws (L.shape b.late) (L.lawful b.late) };

    fn amount_asked(&self, question: &Asked) -> u64 {
        if self.is_exact(question.row(), question.at()) {
            u64::from(question.frame()) * u64::from(question.steps())
        } else {
            self.late.late(question)
        }
    }

    fn corner_after(&self, row: &Row, after: u32) -> Option<u32> {
        rise_after(row, after, self.last_exact(row))
    }

    fn mark(&self, row: &Row, after: u32, marks: &mut [bool]) -> Option<u32> {
        mark_rises(row, after, self.last_exact(row), marks)
    }

    fn corner_past(&self, row: &OnFrame, after: u32) -> Option<u32> {
        row.rise_after(after, self.last_exact(row.row()))
    }

    fn accuracy(&self) -> u32 {
        self.late.accuracy()
    }

    fn most(&self) -> u32 {
        self.late.exact()
    }
}

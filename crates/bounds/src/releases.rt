// The instants at which exact steps rise.
ghost use Rattle.std.specs.Prelude.{IsTrue, ◌≡◌, ◌+◌, ◌-◌, ◌/◌, ◌≤◌, length};
ghost use Rattle.rows.specs.Times.{horizon};
ghost use Rattle.rows.specs.Counting.{is_rise};
ghost use Rattle.bounds.specs.Instants.{IsFirst, least};
ghost use Rattle.bounds.specs.Marks.{Marks, up_to};
ghost use Rattle.bounds.specs.Ratios.{ratio_of};

use crate::ratios::quotient;
use crate::walks::{Walk, mark_along};
use rows::Row;

// The first instant after the given one just after which the row's steps rise.
#[tactic(auto, using(crate::proofs::Rises::first_rise))]
fn next_rise(row: &Row, after: u32) -> u32
    requires { after ≤ horizon }
    ensures { IsFirst (is_rise row.now) after (after + row.now.period) result }
{
    ((after + row.jitter) / row.period + 1) * row.period - row.jitter
}

// The same, with no division where it is the first rise of all.
fn early_rise(row: &Row, after: u32) -> u32
    requires { after ≤ horizon }
    ensures { IsFirst (is_rise row.now) after (after + row.now.period) result }
{
    if after + row.jitter < row.period {
        row.period - row.jitter
    } else {
        next_rise(row, after)
    }
}

// The same of a row whose ratio is known, with no division.
#[tactic(auto, using(crate::proofs::Rises::first_rise))]
fn rise_by(row: &Row, ratio: u32, after: u32) -> u32
    requires known { ratio ≡ ratio_of row.now }
    requires near { after ≤ horizon }
    ensures { IsFirst (is_rise row.now) after (after + row.now.period) result }
{
    (quotient(after + row.jitter, row, ratio) + 1) * row.period - row.jitter
}

// How many rises there are up to an instant: with no division where it is before the first.
pub(crate) fn rises_until(row: &Row, at: u32) -> u32
    requires { at ≤ horizon }
    ensures { result ≡ (at + row.now.jitter) / row.now.period }
{
    if at + row.jitter < row.period {
        0
    } else {
        (at + row.jitter) / row.period
    }
}

// The first rise after an instant, up to `last`.
pub(crate) fn rise_after(row: &Row, after: u32, last: u32) -> Option<u32>
    requires { last ≤ horizon }
    ensures { result ≡ least (is_rise row.now) (last - after) (after + 1) }
{
    if after >= last {
        return None;
    }
    let rise = next_rise(row, after);
    if rise <= last { Some(rise) } else { None }
}

// The same of a row whose ratio is known.
pub(crate) fn rise_after_by(row: &Row, ratio: u32, after: u32, last: u32) -> Option<u32>
    requires known { ratio ≡ ratio_of row.now }
    requires near { last ≤ horizon }
    ensures { result ≡ least (is_rise row.now) (last - after) (after + 1) }
{
    if after >= last {
        return None;
    }
    let rise = rise_by(row, ratio, after);
    if rise <= last { Some(rise) } else { None }
}

// The rises of a row, gone through from one on: every period has one.
#[derive(Drop)]
struct Rises<'a> {
    row: &'a Row,
    period: u32,
    at: u32,
    ghost same: { period ≡ row.now.period },
    ghost rise: { IsTrue (is_rise row.now at) },
}

impl Walk for Rises<'_> {
    ghost kind = { λ w. is_rise w.row.now };

    ghost here = { λ w. w.at };

    fn at(&self) -> u32 {
        self.at
    }

    #[tactic(auto, using(crate::proofs::Rises::period_later))]
    fn go_on(&mut self) -> u32 {
        let (row, period) = (self.row, self.period);
        let at = self.at + period;
        *self = Rises { row, period, at };
        period
    }
}

// Sets the flags of the rises up to `last` among the instants just after `after`, where flag k
// stands for after + 1 + k, and answers the first rise past these instants, up to `last`. At most one
// division finds the first rise.
#[tactic(auto, using(crate::proofs::Marking::least_over))]
pub(crate) fn mark_rises(row: &Row, after: u32, last: u32, marks: &mut [bool]) -> Option<u32>
    requires { last ≤ horizon }
    ensures marks { Marks (up_to last (is_rise row.now)) after marks.old marks.new }
    ensures past { result ≡ least (is_rise row.now) (last - (after + length marks.old)) (after + length marks.old + 1) }
{
    if after >= last {
        return None;
    }
    let (period, at) = (row.period, early_rise(row, after));
    mark_along(Rises { row, period, at }, after, last, marks)
}

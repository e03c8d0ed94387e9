// The laws of a bound, tried at one instant after the other.
ghost use Rattle.std.specs.Prelude.{◌≡◌, ◌+◌, ◌*◌, min, false, length, MatchOption};
ghost use Rattle.bounds.specs.Answering.{amount_answered};
ghost use Rattle.trials.specs.Trials.{broken_at, is_bent, last_tried, HoldOf, HoldOn, IsBreachOf, IsBreachOn, IsFound};

use crate::breaches::{Breach, Broken};
use bounds::{Bound, ExactSteps};
use rows::{HORIZON, Row};

// Whether the amount bends upward at an instant that is no corner.
fn is_bent<B: Bound>(bound: &B, frame: u32, row: &Row, at: u32) -> bool
    ensures { result ≡ is_bent (B.meaning bound.now) frame row.now at }
{
    if at == 0 || at >= HORIZON {
        return false;
    }
    let mut corner = [false];
    bound.mark(row, at - 1, &mut corner);
    let here = u128::from(bound.amount(frame, row, at));
    let around = [at - 1, at + 1].map(|near| u128::from(bound.amount(frame, row, near)));
    !corner[0] && 2 * here < around[0] + around[1]
}

// The law that fails at an instant, the first of the three.
fn broken_at<B: Bound>(bound: &B, frame: u32, row: &Row, at: u32) -> Option<Broken>
    ensures { result ≡ broken_at (B.meaning bound.now) frame row.now at }
{
    let amount = bound.amount(frame, row, at);
    let exact = ExactSteps.amount(frame, row, at);
    let accuracy = bound.accuracy();
    if amount < exact {
        return Some(Broken::Covers { amount, exact });
    }
    let k = u128::from(accuracy);
    if (k + 1) * u128::from(exact) < k * u128::from(amount) {
        return Some(Broken::Close {
            accuracy,
            amount,
            exact,
        });
    }
    if is_bent(bound, frame, row, at) {
        return Some(Broken::Bends {
            before: bound.amount(frame, row, at - 1),
            here: amount,
            next: bound.amount(frame, row, at + 1),
        });
    }
    None
}

// The last instant that is tried of a row.
fn last_tried<B: Bound>(bound: &B, row: &Row) -> u32
    ensures { result ≡ last_tried (B.meaning bound.now) row.now }
{
    ((bound.accuracy() + 3) * row.period).min(HORIZON)
}

// The first instant at which a law fails of a row on a frame.
fn breach_on<B: Bound>(bound: &B, frame: u32, row: &Row) -> Option<Breach>
    ensures { MatchOption result (HoldOn (B.meaning bound.now) frame row.now)
        (IsBreachOn (B.meaning bound.now) frame row.now) }
{
    for at in 0..last_tried(bound, row) + 1 {
        if let Some(broken) = broken_at(bound, frame, row, at) {
            return Some(Breach {
                frame,
                row: *row,
                at,
                broken,
            });
        }
    }
    None
}

// The first breach of a row, on the frame that is its period and then on twice that.
fn breach_of<B: Bound>(bound: &B, row: &Row) -> Option<Breach>
    ensures { MatchOption result (HoldOf (B.meaning bound.now) row.now) (IsBreachOf (B.meaning bound.now) row.now) }
{
    match breach_on(bound, row.period, row) {
        Some(breach) => Some(breach),
        None => breach_on(bound, 2 * row.period, row),
    }
}

/// The first breach of the laws 1 to 3 by a bound (docs/RULES.md, Bounds), where there is one: the rows are
/// tried in their order, each on the frame that is its period and then on twice that, and at one instant after
/// the other, from 0 to three periods past as many as the accuracy says, up to the horizon.
///
/// A bound whose laws are proved has none: this is to be run before they are (docs/OWN_BOUND.md, Try the laws).
pub fn first_breach<B: Bound>(bound: &B, rows: &[Row]) -> Option<Breach>
    ensures { IsFound (B.meaning bound.now) rows.now result }
{
    for row in rows {
        if let Some(breach) = breach_of(bound, row) {
            return Some(breach);
        }
    }
    None
}

// The worked table surveyed by a bound from outside, and why such a bound is not made.
use crate::agreeing::agree;
use crate::building::{meets, misses, row};
use crate::surveyed::{TABLE, surveyed};
use batches::{BatchError, Batches};
use bounds::Bound;
use rows::{HORIZON, Refusal};
use std::process::Abort;

// Batches of 2 from two jobs on.
fn pairs(rt: &impl Abort) -> Batches {
    Batches::new(1, 2).expect(rt, "batches of 2 are refused")
}

// At 10 the three jobs of A count as four.
#[test]
fn the_worked_table_by_batches(rt: HostRuntime) {
    let found = [meets(1, 1), meets(3, 1), meets(11, 4), misses(7)];
    agree(&rt, surveyed(&pairs(&rt), 12, &TABLE), (Ok(3), found));
}

#[test]
fn amounts_in_batches(rt: HostRuntime) {
    let a = row(1, 4, 4, 0);
    let pairs = pairs(&rt);
    let early = [pairs.amount(12, &a, 4), pairs.amount(12, &a, 5)];
    let late = [pairs.amount(12, &a, 9), pairs.amount(12, &a, 13)];
    agree(&rt, [early, late], [[12, 24], [48, 48]]);
    let corner = pairs.next_corner(12, &a, 4);
    let answers = (pairs.accuracy(), pairs.most(), corner);
    agree(&rt, answers, (1, HORIZON, Some(8)));
}

// The corners of A are 4, 8 and so on, whatever the batches.
#[test]
fn flags_in_batches(rt: HostRuntime) {
    let mut flags = [false; 5];
    let past = pairs(&rt).mark(&row(1, 4, 4, 0), 3, &mut flags);
    let marked = [true, false, false, false, true];
    agree(&rt, (flags, past), (marked, Some(12)));
}

// The accuracy of the bound that is made with k and a batch size.
fn made(k: u32, size: u32) -> Result<u32, BatchError> {
    Ok(Batches::new(k, size)?.accuracy())
}

// An accuracy is refused before a size.
#[test]
fn accuracies_and_sizes(rt: HostRuntime) {
    agree(&rt, [made(1, 1), made(64, HORIZON)], [Ok(1), Ok(64)]);
    let bad = BatchError::Refused(Refusal::BadAccuracy.at(0));
    let inaccurate = [made(0, 1), made(65, 1), made(0, 0)];
    agree(&rt, inaccurate, [Err(bad); 3]);
    let sizes = [made(1, 0), made(1, HORIZON + 1)];
    let (none, many) = (BatchError::BadSize(0), BatchError::BadSize(HORIZON + 1));
    agree(&rt, sizes, [Err(none), Err(many)]);
}

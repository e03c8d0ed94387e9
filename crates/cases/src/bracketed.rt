// Rows counted in exact steps and by a bound, side by side.
use crate::agreeing::agree;
use crate::bounded::tail;
use crate::building::{meets, misses, row, table};
use bounds::{ExactSteps, LinearTail};
use brackets::{Counts, count_both, least_accuracy, slow_rest};
use findings::find;
use rows::{Fault, Finding, Refusal};
use std::test::Fail;

// What is found about E in exact steps and by a linear tail, and the gap between.
fn both(tail: &LinearTail) -> Result<(Finding, Finding, Option<u32>), Fault> {
    let above = table(12, &[row(1, 4, 4, 0), row(2, 6, 6, 1)])?;
    let both = count_both(tail, &row(3, 12, 12, 0), &above)?;
    Ok((both.exact, both.bounded, both.gap()))
}

#[test]
fn gaps(rt: HostRuntime) {
    agree(
        &rt,
        both(&tail(&rt, 3)),
        Ok((meets(10, 4), meets(11, 4), Some(1))),
    );
    agree(
        &rt,
        both(&tail(&rt, 2)),
        Ok((meets(10, 4), misses(3), None)),
    );
}

// Counts written down by hand may be any: no gap is below 0.
#[test]
fn gaps_of_any_counts(rt: HostRuntime) {
    let reversed = Counts {
        exact: meets(9, 1),
        bounded: meets(4, 1),
    };
    let odd = Counts {
        exact: misses(1),
        bounded: meets(4, 1),
    };
    agree(&rt, [reversed.gap(), odd.gap()], [Some(0), None]);
}

// A row below one that takes the whole processor meets by no tail.
#[test]
fn least_accuracies(rt: HostRuntime) -> Result<(), Fail> {
    let (a, b) = (row(1, 4, 4, 0), row(2, 6, 6, 1));
    let least = [
        least_accuracy(&b, &table(12, &[a])?),
        least_accuracy(&row(3, 12, 12, 0), &table(12, &[a, b])?),
        least_accuracy(&row(1, 5, 5, 0), &table(5, &[row(1, 1, 1, 0)])?),
    ];
    agree(&rt, least, [Ok(Some(1)), Ok(Some(3)), Ok(None)]);
    Ok(())
}

// On a processor of speed 3/4 B rests one instant later than in exact steps at full speed, and E
// misses. A table of 32 rows is the largest: 31 stand above the last.
#[test]
fn rests_on_a_slower_processor(rt: HostRuntime) {
    let (a, b) = (row(1, 4, 4, 0), row(2, 6, 6, 1));
    let last = row(1, 64, 64, 0);
    let crowd = [last; 32];
    let rests = [
        slow_rest(3, &b, &[a]),
        slow_rest(3, &row(3, 12, 12, 0), &[a, b]),
        slow_rest(1, &last, &crowd[..31]),
        slow_rest(1, &last, &crowd),
        slow_rest(0, &last, &crowd),
        slow_rest(65, &last, &[]),
    ];
    let wanted = [
        Ok(Some(4)),
        Ok(None),
        Ok(Some(64)),
        Err(Refusal::FullTable.at(0)),
        Err(Refusal::BadAccuracy.at(0)),
        Err(Refusal::BadAccuracy.at(0)),
    ];
    agree(&rt, rests, wanted);
}

#[test]
fn questions_that_are_refused(rt: HostRuntime) -> Result<(), Fail> {
    let (on, off) = (row(1, 6, 6, 0), row(1, 5, 5, 0));
    let (full, two) = (table(6, &[on; 32])?, table(6, &[on, on])?);
    let refused = (Refusal::FullTable.at(0), Refusal::OffFrame.at(3));
    let both = [
        count_both(&ExactSteps, &off, &full),
        count_both(&ExactSteps, &off, &two),
    ];
    agree(&rt, both, [Err(refused.0), Err(refused.1)]);
    let least = [least_accuracy(&off, &full), least_accuracy(&off, &two)];
    agree(&rt, least, [Err(refused.0), Err(refused.1)]);
    Ok(())
}

#[test]
fn rows_above_in_another_order_and_one_fewer(rt: HostRuntime) -> Result<(), Fail> {
    let (a, b) = (row(1, 4, 4, 0), row(2, 6, 6, 1));
    let e = row(3, 12, 12, 0);
    let found = [
        find(&tail(&rt, 3), &e, &table(12, &[b, a])?),
        find(&ExactSteps, &e, &table(12, &[b])?),
        find(&ExactSteps, &e, &table(12, &[a])?),
    ];
    agree(
        &rt,
        found,
        [Ok(meets(11, 4)), Ok(meets(5, 1)), Ok(meets(4, 1))],
    );
    Ok(())
}

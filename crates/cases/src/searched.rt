// Findings about rows, counted by hand, and questions that are refused.
use crate::agreeing::agree;
use crate::bounded::tail;
use crate::building::{meets, misses, row, table};
use batches::Batches;
use bounds::ExactSteps;
use brackets::response_time;
use findings::find;
use rows::{HORIZON, Refusal};
use std::test::Fail;

// With a window of 1 there is one instant to test.
#[test]
fn windows_of_1(rt: HostRuntime) -> Result<(), Fail> {
    let late = row(1, 4, 4, 3);
    let found = [
        find(&ExactSteps, &row(1, 1, 1, 0), &table(1, &[])?),
        find(&ExactSteps, &late, &table(4, &[])?),
        find(&ExactSteps, &late, &table(4, &[row(1, 2, 2, 0)])?),
    ];
    agree(
        &rt,
        found,
        [Ok(meets(1, 1)), Ok(meets(1, 1)), Ok(misses(1))],
    );
    Ok(())
}

// A job of the row above may come at once, and the next just after instant 1: the demand at 4 is 4.
#[test]
fn jitter_just_below_the_period(rt: HostRuntime) -> Result<(), Fail> {
    let above = table(8, &[row(1, 8, 8, 7)])?;
    let found = find(&ExactSteps, &row(2, 8, 8, 0), &above);
    let time = response_time(&row(2, 8, 8, 3), above.rows());
    agree(&rt, (found, time), (Ok(meets(4, 2)), Ok(Some(7))));
    Ok(())
}

// A row with period 1 takes the whole processor: every instant is a corner, and none is a rest.
#[test]
fn period_1_above(rt: HostRuntime) -> Result<(), Fail> {
    let above = table(5, &[row(1, 1, 1, 0)])?;
    let below = row(1, 5, 5, 0);
    let steps = find(&ExactSteps, &below, &above);
    let line = find(&tail(&rt, 3), &below, &above);
    agree(&rt, [steps, line], [Ok(misses(5)), Ok(misses(3))]);
    agree(&rt, response_time(&below, above.rows()), Ok(None));
    Ok(())
}

// By the tail of accuracy 1 the demand is two frames and one part an instant, so 2 is too early.
#[test]
fn frame_at_the_horizon(rt: HostRuntime) -> Result<(), Fail> {
    let long = row(1, HORIZON, HORIZON, 0);
    let above = table(HORIZON, &[long])?;
    let found = [
        find(&ExactSteps, &long, &above),
        find(&tail(&rt, 1), &long, &above),
        find(&tail(&rt, 64), &long, &above),
    ];
    agree(
        &rt,
        found,
        [Ok(meets(2, 1)), Ok(meets(3, 1)), Ok(meets(2, 1))],
    );
    Ok(())
}

// At 10 the exact demand of 5 + 5 is served, and by the tail of accuracy 1 the demand is 6 and half an
// instant: it is served at 12, far before the next test point, which is the window. In batches of 4 the
// jobs at 10 count as 8, so the row rests at 13, past the corners 2, 4 and so on up to 12.
#[test]
fn rests_between_exact_steps_and_the_window(rt: HostRuntime) -> Result<(), Fail> {
    let above = table(40, &[row(1, 2, 2, 0)])?;
    let below = row(5, 40, 40, 0);
    let fours = Batches::new(1, 4).expect(&rt, "batches of 4 are refused");
    let found = [
        find(&ExactSteps, &below, &above),
        find(&tail(&rt, 1), &below, &above),
        find(&fours, &below, &above),
    ];
    let wanted = [Ok(meets(10, 5)), Ok(meets(12, 1)), Ok(meets(13, 7))];
    agree(&rt, found, wanted);
    Ok(())
}

#[test]
fn a_corner_that_two_rows_share_is_one_point(rt: HostRuntime) -> Result<(), Fail> {
    let rows = [row(1, 4, 4, 0), row(1, 4, 4, 0), row(2, 8, 8, 0)];
    let found = find(&ExactSteps, &row(2, 8, 8, 0), &table(8, &rows)?);
    agree(&rt, found, Ok(meets(8, 2)));
    Ok(())
}

// Periods without a common multiple up to the horizon: there is no frame, and the response needs none.
#[test]
fn responses_with_no_frame(rt: HostRuntime) -> Result<(), Fail> {
    let above = [row(1, 4_099, 4_099, 0), row(2, 4_111, 4_111, 1)];
    let below = row(5, HORIZON, HORIZON, 0);
    let times = [
        response_time(&below, &above),
        response_time(&row(3, 5, 7, 1), &above),
    ];
    agree(&rt, times, [Ok(Some(8)), Ok(None)]);
    Ok(())
}

// Below 31 rows there is a rank for a row; below 32 there is none, whatever the row.
#[test]
fn refusals_in_their_order(rt: HostRuntime) -> Result<(), Fail> {
    let (on, off) = (row(1, 6, 6, 0), row(1, 5, 5, 0));
    let full = table(6, &[on; 32])?;
    let found = [
        find(&ExactSteps, &off, &full),
        find(&ExactSteps, &off, &table(6, &[on; 31])?),
        find(&ExactSteps, &off, &table(6, &[on; 3])?),
        find(&ExactSteps, &off, &table(6, &[])?),
    ];
    let wanted = [
        Err(Refusal::FullTable.at(0)),
        Err(Refusal::OffFrame.at(32)),
        Err(Refusal::OffFrame.at(4)),
        Err(Refusal::OffFrame.at(1)),
    ];
    agree(&rt, found, wanted);
    agree(
        &rt,
        response_time(&on, full.rows()),
        Err(Refusal::FullTable.at(0)),
    );
    Ok(())
}

// The findings of a table's rows counted into a list, from a place on.
use crate::agreeing::agree;
use crate::building::{meets, misses, row, table};
use bounds::ExactSteps;
use findings::recount;
use rows::Refusal;
use std::test::Fail;

#[test]
fn the_front_of_the_list_stays(rt: HostRuntime) -> Result<(), Fail> {
    let worked = table(12, &[row(1, 4, 4, 0), row(2, 6, 6, 1), row(3, 12, 12, 0)])?;
    let mut list = [misses(7); 4];
    let counted = [misses(7), meets(3, 1), meets(10, 4), misses(7)];
    let answer = recount(&ExactSteps, &worked, 1, &mut list);
    agree(&rt, (answer, list), (Ok(()), counted));
    let answer = recount(&ExactSteps, &worked, 9, &mut list);
    agree(&rt, (answer, list), (Ok(()), counted));
    Ok(())
}

#[test]
fn a_refusal_leaves_the_list(rt: HostRuntime) -> Result<(), Fail> {
    let three = table(6, &[row(1, 6, 6, 0); 3])?;
    let mut list = [misses(7); 2];
    let answer = recount(&ExactSteps, &three, 0, &mut list);
    let short = Refusal::ShortList.at(0);
    agree(&rt, (answer, list), (Err(short), [misses(7); 2]));
    Ok(())
}

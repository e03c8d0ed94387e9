//! The worked table, surveyed in exact steps, by linear tails and by a staircase, counted both ways,
//! and printed, and a bench that refuses a row and admits it later, and refuses one for two reasons.
#![tactic(auto)]

mod printing;
mod table;

use bounds::{Bound, ExactSteps, LinearTail, Staircase};
use printing::{
    print_accuracies, print_bench, print_both, print_response_times, print_rows, print_survey,
};
use rows::Row;
use table::worked_rows;

// A survey by a bound, and both counts beside each other.
fn compare<B: Bound>(
    rt: &HostRuntime,
    title: &str,
    bound: &B,
    rows: &[Row; 3],
) -> anyhow::Result<()> {
    print_survey(rt, title, bound, rows)?;
    print_both(rt, title, bound, rows)
}

fn run(rt: &HostRuntime) -> anyhow::Result<()> {
    let rows = worked_rows();
    print_rows(rt, &rows)?;
    print_survey(rt, "exact steps", &ExactSteps, &rows)?;
    compare(rt, "linear tail, accuracy 1", &LinearTail::new(1)?, &rows)?;
    compare(rt, "linear tail, accuracy 2", &LinearTail::new(2)?, &rows)?;
    compare(rt, "linear tail, accuracy 3", &LinearTail::new(3)?, &rows)?;
    compare(rt, "staircase, accuracy 1", &Staircase::new(1)?, &rows)?;
    print_accuracies(rt, &rows)?;
    print_response_times(rt, &rows)?;
    print_bench(rt, "linear tail, accuracy 2", LinearTail::new(2)?)
}

fn main(rt: HostRuntime) -> anyhow::Result<()> {
    run(&rt)
}

//! Findings bracketed: a bound lies between the exact count at full speed and at a lower one; and
//! response times.
#![tactic(auto)]

mod accuracies;
mod counting;
mod responding;
mod slower;
mod speeds;

pub use accuracies::least_accuracy;
pub use counting::{Counts, count_both};
pub use responding::{response_time, response_times};
pub use slower::slow_rest;

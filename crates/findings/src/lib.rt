//! The findings of rows: the demand by a bound, and the search for the first rest.
#![tactic(auto)]

mod asking;
mod counting;
mod demands;
mod flags;
mod lending;
mod lines;
mod loads;
mod merging;
mod preparing;
mod questions;
mod recounting;
mod searching;
mod sizes;
mod skipping;
mod trees;

pub use asking::find;
pub use questions::Demand;
pub use recounting::recount;
pub use rows::{Finding, Verdict};
pub use sizes::check_size;

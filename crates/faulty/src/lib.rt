//! For tests: a reader and a writer that move a byte at a time, are interrupted before each, and fail; and
//! what a failure tells.
#![tactic(auto)]

mod giver;
mod taker;
mod telling;

pub use giver::Giver;
pub use taker::Taker;
pub use telling::told;

//! Leaves read from bytes, entry by entry and whole, and what they hold.
#![tactic(auto)]

mod bodies;
mod entries;
mod held;
mod phases;
mod readers;
mod whole;

pub use held::{Leaf, RowsWithFindings};
pub use phases::Phase;
pub use readers::Reader;
pub use whole::read;

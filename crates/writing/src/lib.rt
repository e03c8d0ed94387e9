//! Leaves written into a lent buffer, entry by entry and whole.
#![tactic(auto)]

mod bytes;
mod closed;
mod taking_findings;
mod taking_rows;
mod whole;

pub use closed::{ClosedLeaf, Unclosed};
pub use taking_findings::FindingsLeaf;
pub use taking_rows::{RowsLeaf, begin, begin_numbers};
pub use whole::{file, file_numbers};

//! The format of leaves: what an entry holds, which headings and findings can be filed, and numbers in
//! four bytes.
#![tactic(auto)]

mod entries;
mod judging;
mod numbers;

pub use entries::{END_SIZE, Entry, FINDING_SIZE, HEADING_SIZE, Heading, HeadingNumbers, ROW_SIZE};
pub use judging::judge_finding;
pub use numbers::last_number;

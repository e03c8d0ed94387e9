//! The survey of a whole table: its frame and numbers judged, then every row's finding.
#![tactic(auto)]

mod surveying;

pub use surveying::survey;

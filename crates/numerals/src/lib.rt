//! Numbers as people and scripts write them: which bytes are blanks, and which words are numbers.
#![tactic(auto)]

mod numerals;

pub use numerals::{is_blank, is_digits, number};

//! A client of the bench: a row that stands, exchanged for another one.
#![tactic(auto)]

mod exchanging;
#[cfg(test)]
mod tests;

pub use exchanging::exchange;

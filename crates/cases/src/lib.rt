//! Examples of the toolkit's calls, as tests: numbers at the edges, and answers counted by hand.
#![tactic(auto)]

#[cfg(test)]
mod agreeing;
#[cfg(test)]
mod answered;
#[cfg(test)]
mod batched;
#[cfg(test)]
mod bounded;
#[cfg(test)]
mod bracketed;
#[cfg(test)]
mod building;
#[cfg(test)]
mod filed;
#[cfg(test)]
mod judged;
#[cfg(test)]
mod last_numbers;
#[cfg(test)]
mod recounted;
#[cfg(test)]
mod searched;
#[cfg(test)]
mod surveyed;
#[cfg(test)]
mod tabled;
#[cfg(test)]
mod worked_leaf;
#[cfg(test)]
mod written;

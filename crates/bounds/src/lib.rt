//! Bounds on the demand of rows, behind one interface, and those that are supplied.
#![tactic(auto)]

mod corners;
mod exact;
mod families;
mod interface;
mod linear;
mod questions;
mod ratios;
mod releases;
mod stairs;
mod supplied;
mod tails;
mod walks;

pub use exact::ExactSteps;
pub use families::{Family, Short};
pub use interface::{Bound, FINEST};
pub use linear::{Line, LinearTail};
pub use questions::{Asked, OnFrame};
pub use stairs::Staircase;
pub use supplied::Supplied;
pub use tails::{Late, Tail};

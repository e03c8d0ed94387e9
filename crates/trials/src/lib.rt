//! The laws of a bound, tried on small rows before any of them is proved (docs/OWN_BOUND.md, Try the laws).
#![tactic(auto)]

mod breaches;
mod trying;

pub use breaches::{Breach, Broken};
pub use trying::first_breach;

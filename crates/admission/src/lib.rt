//! The admission bench: tasks arrive and leave, and every one that stands meets its deadline.
#![tactic(auto)]

mod benches;
mod calls;
mod keeping;
mod playing;
mod unplayed;

pub use benches::Bench;
pub use calls::{Call, Reply, tells_rank};
pub use playing::play;
pub use unplayed::NotPlayed;

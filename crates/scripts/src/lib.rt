//! Scripts: calls of a bench as lines of text, what is answered to them, and the run that answers
//! them.
#![tactic(auto)]

mod buffer;
mod expecting;
mod forms;
mod lines;
mod player;
mod running;
mod session;
mod shown;
mod words;

pub use expecting::ExpectedWords;
pub use forms::{Field, LineForm};
pub use lines::{ScriptLine, parse};
pub use running::{name_failure, run};
pub use shown::{CallLine, NoCallLine, ReplyLine};
pub use streams::Failure;

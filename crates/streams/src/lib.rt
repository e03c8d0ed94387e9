//! Bytes moved from readers and into writers, with interrupted calls made again: of what was moved
//! each call says exactly which bytes, where `std` knows those of the reader or the writer.
#![tactic(auto)]

mod failures;
mod input;
mod output;

pub use failures::{Failure, NamedFailure};
pub use input::{fill, read_again};
pub use output::{put, write_whole};

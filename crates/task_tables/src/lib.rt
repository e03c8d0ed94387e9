//! Task tables as people keep them, read from text: names and numbers, and the line on which each
//! stood (docs/PROGRAMS.md, Task tables).
#![tactic(auto)]

mod columns;
mod ends;
mod errors;
mod explaining;
mod fields;
mod forms;
mod headings;
mod lines;
mod misreads;
mod printing;
mod reading;
mod records;
mod tables;
mod tasks;
mod telling;
mod words;

pub use columns::Column;
pub use errors::ReadError;
pub use misreads::{Expected, Misread, Refused, Spot};
pub use printing::Printable;
pub use reading::read;
pub use tables::TaskTable;

//! The tasks of a table, its frame, the refusals of the toolkit and what is found about a row: what
//! every other crate speaks of.
#![tactic(auto)]

mod counting;
mod frames;
mod judging;
mod ranks;
mod refusals;
mod tables;
mod tasks;
mod verdicts;

pub use counting::{HORIZON, MOST_ROWS, is_frame};
pub use frames::{Frame, FrameNumbers};
pub use judging::{Flaw, frame_flaws, row_flaws};
pub use ranks::{check_rank, put_in, take_out};
pub use refusals::{Fault, Refusal};
pub use tables::{Table, check_table, judge_rows};
pub use tasks::{Numbers, Row};
pub use verdicts::{Finding, Verdict, count_met};

//! A table of plain numbers judged, given a frame, counted by bounds and filed as leaves; and its sheet.
#![tactic(auto)]

mod counting;
mod filings;
mod frames;
mod judging;
mod progress;
mod sheet_writing;

pub use counting::count_by;
pub use filings::Filing;
pub use frames::common_frame;
pub use judging::judge;
pub use progress::{Progress, Quiet};
pub use sheet_writing::write_sheet;

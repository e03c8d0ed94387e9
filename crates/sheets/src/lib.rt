//! Sheets: tables that wait to be surveyed, read from bytes, surveyed, and answered in bytes.
#![tactic(auto)]

mod answering;
mod reading_sheets;
mod sheets;

pub use answering::{DECIDING, MOST_ANSWER, MOST_SHEET, answer_sheet};
pub use reading_sheets::read;
pub use sheets::Sheet;

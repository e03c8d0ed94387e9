//! Tables of cells under headings, and their texts: aligned by blanks, as CSV and as JSON.
#![tactic(auto)]

mod cells;
mod columns;
mod csv_records;
mod csv_text;
mod json_text;
mod lines;
mod shown;
mod table;

pub use cells::Cell;
pub use csv_text::to_csv;
pub use json_text::to_json;
pub use lines::aligned;
pub use table::Grid;

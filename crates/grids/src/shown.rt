// The text of a cell, as an aligned table shows it.
ghost use Rattle.std.specs.Prelude.{◌≡◌, IfOk};
ghost use Rattle.grids.specs.Shown.{printable, shown_at, shown_of, shown_text};

use crate::cells::Cell;
use std::alloc::{AllocError, Global};

// What stands where there is nothing.
const DASH: u8 = b'-';

// A byte of a text as it is shown: a question mark for a control character, which is one byte in
// UTF-8 and no byte of another character.
fn printable_byte(byte: u8) -> u8
    ensures { result ≡ printable byte }
{
    if byte.is_ascii_control() { b'?' } else { byte }
}

// A text as it is shown.
pub(crate) fn show_text(alloc: Global, text: &str) -> Result<Vec<u8>, AllocError>
    ensures { IfOk result (λ shown. shown.items ≡ shown_text text.now) }
{
    if text.is_empty() {
        return Vec::from_slice(alloc, &[DASH]);
    }
    text.as_bytes()
        .iter()
        .map(|byte| printable_byte(*byte))
        .collect(alloc)
}

// A cell as it is shown.
fn show_cell(alloc: Global, cell: &Cell) -> Result<Vec<u8>, AllocError>
    ensures { IfOk result (λ shown. shown.items ≡ shown_of cell.now) }
{
    match cell {
        Cell::Nothing => Vec::from_slice(alloc, &[DASH]),
        Cell::Truth(true) => Vec::from_slice(alloc, b"yes"),
        Cell::Truth(false) => Vec::from_slice(alloc, b"no"),
        Cell::Number(number) => Ok(number.to_string(alloc)?.into_bytes()),
        Cell::Text(text) => show_text(alloc, text.as_str()),
    }
}

// What is shown at a place of a row, places being counted from 0.
pub(crate) fn show_at(alloc: Global, row: &[Cell], place: usize) -> Result<Vec<u8>, AllocError>
    ensures { IfOk result (λ shown. shown.items ≡ shown_at row.now place) }
{
    match row.get(place) {
        Some(cell) => show_cell(alloc, cell),
        None => Vec::from_slice(alloc, &[DASH]),
    }
}

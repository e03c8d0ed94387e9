// The text of a table, aligned by blanks.
ghost use Rattle.std.specs.Prelude.{◌≡◌, ◌++◌, IfOk, OnOk};
ghost use Rattle.grids.specs.Aligned.{aligned_text, blanks, fields_text, line_text, padded_text};
ghost use Rattle.grids.specs.Lines.{text_at};
ghost use Rattle.grids.specs.Cells.{NumbersReadBack};
ghost use Rattle.grids.specs.Shown.{shown_of};

use crate::cells::Cell;
use crate::columns::{AlignedColumn, count_characters, measure_all};
use crate::shown::{show_at, show_text};
use crate::table::Grid;
use std::alloc::{AllocError, Global};

// A line of a table: its headings, or a row.
#[derive(Clone, Copy)]
enum GridLine<'a> {
    Head(&'a [&'static str]),
    Row(&'a [Cell]),
}

impl GridLine<'_> {
    // What is shown at a place of the line.
    fn show(self, alloc: Global, place: usize) -> Result<Vec<u8>, AllocError>
        ensures { IfOk result (λ shown. shown.items ≡ text_at self.entry place) }
    {
        match self {
            GridLine::Head(headings) => match headings.get(place) {
                Some(heading) => show_text(alloc, heading),
                None => show_text(alloc, ""),
            },
            GridLine::Row(row) => show_at(alloc, row, place),
        }
    }
}

// Writes this many blanks.
fn write_blanks(line: &mut Vec<u8>, count: usize) -> Result<(), AllocError>
    ensures { OnOk result (line.new.items ≡ line.old.items ++ blanks count) }
{
    for _ in 0..count {
        line.push(b' ')?;
    }
    Ok(())
}

// Writes a text, set to its column's side.
fn write_padded(line: &mut Vec<u8>, column: AlignedColumn, text: &[u8]) -> Result<(), AllocError>
    ensures { OnOk result (line.new.items ≡ line.old.items ++ padded_text column text.now) }
{
    let room = column.width.saturating_sub(count_characters(text));
    if column.right {
        write_blanks(line, room)?;
        line.extend_from_slice(text)
    } else {
        line.extend_from_slice(text)?;
        write_blanks(line, room)
    }
}

// The fields of a line, each with two blanks behind it.
fn padded_fields(
    alloc: Global,
    columns: &[AlignedColumn],
    line: GridLine<'_>,
) -> Result<Vec<u8>, AllocError>
    ensures { IfOk result (λ fields. fields.items ≡ fields_text (text_at line.entry) 0 columns.now) }
{
    let mut fields = Vec::new(alloc);
    for (place, column) in columns.iter().enumerate() {
        let shown = line.show(alloc, place)?;
        write_padded(&mut fields, *column, &shown)?;
        write_blanks(&mut fields, 2)?;
    }
    Ok(fields)
}

// Writes a line with no blanks at its end, and the LF that ends it.
fn write_line(
    text: &mut Vec<u8>,
    alloc: Global,
    columns: &[AlignedColumn],
    line: GridLine<'_>,
) -> Result<(), AllocError>
    ensures { OnOk result (text.new.items ≡ text.old.items ++ line_text (text_at line.entry) columns.now) }
{
    let fields = padded_fields(alloc, columns, line)?;
    text.extend_from_slice(fields.trim_ascii_end())?;
    text.push(b'\n')?;
    Ok(())
}

/// A table as text: a line for the headings and one for each row, each ended by LF, in columns two
/// blanks apart and with no blanks at the end of a line. A column is as wide as its longest text, in
/// characters, and set to the right where it has a number or there is no row, else to the left.
/// Nothing is shown as `-`, a truth as `yes` or `no`, a number in decimal, and a text as it is, with
/// `?` for each control character (below U+0020, and U+007F), and as `-` where it is empty.
/// Out of memory is an `Err`.
pub fn aligned(alloc: Global, grid: &Grid) -> Result<Vec<u8>, AllocError>
    ensures numbers { OnOk result (NumbersReadBack shown_of) }
    ensures text { IfOk result (λ text. text.items ≡ aligned_text grid.now.headings.items grid.now.rows.items) }
{
    let columns = measure_all(alloc, &grid.headings, &grid.rows)?;
    let mut text = Vec::new(alloc);
    write_line(&mut text, alloc, &columns, GridLine::Head(&grid.headings))?;
    for row in &grid.rows {
        write_line(&mut text, alloc, &columns, GridLine::Row(row))?;
    }
    Ok(text)
}

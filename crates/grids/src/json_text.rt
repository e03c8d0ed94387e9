// A table written as JSON.
ghost use Rattle.std.specs.Prelude.{◌≡◌, ◌++◌, IfOk, IsUtf8, OnOk, string_bytes};
ghost use Rattle.json.specs.Token as token;
ghost use Rattle.json.specs.Tree.{items_tokens, json_tokens, members_tokens};
ghost use Rattle.grids.specs.JsonReads.{IsTextOf, NumbersTaken, ReadsAs};
ghost use Rattle.grids.specs.JsonTrees.{cell_tree, members_from, rows_tree, tree_at};

use crate::cells::Cell;
use crate::table::Grid;
use json::Writer;
use std::alloc::{AllocError, Global};

// Writes a cell.
fn write_cell(writer: &mut Writer, cell: &Cell) -> Result<(), AllocError>
    ensures ok { OnOk result (writer.new.tokens ≡ writer.old.tokens ++ json_tokens (cell_tree cell.now)) }
    ensures before { writer.new.before ≡ writer.old.before }
{
    match cell {
        Cell::Nothing => writer.null(),
        Cell::Truth(truth) => writer.boolean(*truth),
        Cell::Number(number) => writer.u64(*number),
        Cell::Text(text) => writer.string(text.as_str()),
    }
}

// Writes what a row has at a place: null where it has no cell there.
fn write_at(writer: &mut Writer, row: &[Cell], place: usize) -> Result<(), AllocError>
    ensures ok { OnOk result (writer.new.tokens ≡ writer.old.tokens ++ json_tokens (tree_at row.now place)) }
    ensures before { writer.new.before ≡ writer.old.before }
{
    match row.get(place) {
        Some(cell) => write_cell(writer, cell),
        None => writer.null(),
    }
}

// Writes the members of a row's object, and the brace that closes it.
fn write_members(
    writer: &mut Writer,
    headings: &[&'static str],
    row: &[Cell],
) -> Result<(), AllocError>
    ensures ok { OnOk result (writer.new.tokens
        ≡ writer.old.tokens ++ members_tokens (members_from headings.now 0 row.now)) }
    ensures before { writer.new.before ≡ writer.old.before }
{
    for (place, heading) in headings.iter().enumerate() {
        writer.key(heading)?;
        write_at(writer, row, place)?;
    }
    writer.end_object()
}

// Writes the objects of the rows, and the bracket that closes their array.
fn write_row_objects(
    writer: &mut Writer,
    headings: &[&'static str],
    rows: &[Vec<Cell>],
) -> Result<(), AllocError>
    ensures ok { OnOk result (writer.new.tokens ≡ writer.old.tokens ++ items_tokens (rows_tree headings.now rows.now)) }
    ensures before { writer.new.before ≡ writer.old.before }
{
    for row in rows {
        writer.begin_object()?;
        write_members(writer, headings, row)?;
    }
    writer.end_array()
}

// The text of a table.
fn text_of(alloc: Global, grid: &Grid) -> Result<Vec<u8>, AllocError>
    ensures reads { IfOk result (λ text. ReadsAs text.items grid.now.headings.items grid.now.rows.items) }
    ensures utf8 { IfOk result (λ text. IsUtf8 text.items) }
{
    let mut writer = Writer::new(Vec::new(alloc));
    writer.begin_array()?;
    write_row_objects(&mut writer, &grid.headings, &grid.rows)?;
    Ok(writer.into_inner())
}

/// A table as JSON: an array with an object for each row, whose members stand in the order of the
/// headings, and LF behind it. Nothing is null, a truth true or false, and a number and a text are
/// what they are. Out of memory is an `Err`.
pub fn to_json(alloc: Global, grid: &Grid) -> Result<String, AllocError>
    ensures text { IfOk result (λ text. IsTextOf (string_bytes text) grid.now.headings.items grid.now.rows.items) }
    ensures numbers { OnOk result NumbersTaken }
{
    match String::from_utf8(text_of(alloc, grid)?) {
        Ok(mut text) => {
            text.push('\n')?;
            Ok(text)
        }
        Err(_) => unreachable!(),
    }
}

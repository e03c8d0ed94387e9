// The columns of an aligned table: how wide each is, and to which side it is set.
ghost use Rattle.std.specs.Prelude.{◌≡◌, IfOk};
ghost use Rattle.std.specs.List.{list_any};
ghost use Rattle.grids.specs.Cells.{has_number};
ghost use Rattle.grids.specs.Columns.{column_under, columns_under, is_right, widest, width_of};

use crate::cells::Cell;
use crate::shown::{show_at, show_text};
use std::alloc::{AllocError, Global};

// A column: how many characters it is wide, and whether its texts are set to the right.
#[derive(Clone, Copy, Debug)]
pub(crate) struct AlignedColumn {
    pub(crate) width: usize,
    pub(crate) right: bool,
}

// How many characters a text has: the bytes that begin one.
pub(crate) fn count_characters(text: &[u8]) -> usize
    ensures { result ≡ width_of text.now }
{
    text.iter()
        .filter(|byte| **byte < 0x80 || 0xC0 <= **byte)
        .count()
}

// How wide the widest text is that the rows have at a place.
fn widest_at(alloc: Global, place: usize, rows: &[Vec<Cell>]) -> Result<usize, AllocError>
    ensures { IfOk result (λ wide. wide ≡ widest place rows.now) }
{
    let mut wide = 0usize;
    for row in rows {
        let text = show_at(alloc, row, place)?;
        wide = wide.max(count_characters(&text));
    }
    Ok(wide)
}

// Whether a row has a number at a place.
fn has_number_at(place: usize, row: &[Cell]) -> bool
    ensures { result ≡ has_number place row.now }
{
    matches!(row.get(place), Some(Cell::Number(_)))
}

// Whether one of the rows has a number at a place.
fn any_has_number(place: usize, rows: &[Vec<Cell>]) -> bool
    ensures { result ≡ list_any (λ row. has_number place row.items) rows.now }
{
    rows.iter().any(|row| has_number_at(place, row))
}

// Whether a column is set to the right: where it has a number, or there is no row.
fn sets_right(place: usize, rows: &[Vec<Cell>]) -> bool
    ensures { result ≡ is_right place rows.now }
{
    rows.is_empty() || any_has_number(place, rows)
}

// The column under a heading.
fn measure(
    alloc: Global,
    heading: &str,
    place: usize,
    rows: &[Vec<Cell>],
) -> Result<AlignedColumn, AllocError>
    ensures { IfOk result (λ column. column ≡ column_under heading.now place rows.now) }
{
    let shown = show_text(alloc, heading)?;
    let width = count_characters(&shown).max(widest_at(alloc, place, rows)?);
    Ok(AlignedColumn {
        width,
        right: sets_right(place, rows),
    })
}

// The columns under headings.
pub(crate) fn measure_all(
    alloc: Global,
    headings: &[&'static str],
    rows: &[Vec<Cell>],
) -> Result<Vec<AlignedColumn>, AllocError>
    ensures { IfOk result (λ all. all.items ≡ columns_under headings.now 0 rows.now) }
{
    let mut all = Vec::new(alloc);
    for (place, heading) in headings.iter().enumerate() {
        all.push(measure(alloc, heading, place, rows)?)?;
    }
    Ok(all)
}

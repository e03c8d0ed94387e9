// The records of a table, as CSV: what stands in each field.
ghost use Rattle.std.specs.Prelude.{◌≡◌, ◌++◌, ◌∷◌, [], IfOk, OnOk};
ghost use Rattle.csv.specs.Records.{fields_of, partial_of};
ghost use Rattle.grids.specs.CsvFields.{field_at, field_of, fields_from, headings_of};

use crate::cells::Cell;
use csv::ByteRecord;
use std::alloc::{AllocError, Global};

// Puts a cell's field behind those of a record: nothing is an empty field.
fn push_cell(alloc: Global, fields: &mut ByteRecord, cell: &Cell) -> Result<(), AllocError>
    requires { partial_of fields.old ≡ [] }
    ensures fields { OnOk result (fields_of fields.new ≡ fields_of fields.old ++ field_of cell.now ∷ []) }
    ensures partial { OnOk result (partial_of fields.new ≡ []) }
{
    match cell {
        Cell::Nothing => fields.push_field(b""),
        Cell::Truth(true) => fields.push_field(b"true"),
        Cell::Truth(false) => fields.push_field(b"false"),
        Cell::Number(number) => fields.push_field(number.to_string(alloc)?.as_bytes()),
        Cell::Text(text) => fields.push_field(text.as_bytes()),
    }
}

// Puts the field at a place of a row behind those of a record: an empty one, where the row has none.
fn push_at(
    alloc: Global,
    fields: &mut ByteRecord,
    row: &[Cell],
    place: usize,
) -> Result<(), AllocError>
    requires { partial_of fields.old ≡ [] }
    ensures fields { OnOk result (fields_of fields.new ≡ fields_of fields.old ++ field_at row.now place ∷ []) }
    ensures partial { OnOk result (partial_of fields.new ≡ []) }
{
    match row.get(place) {
        Some(cell) => push_cell(alloc, fields, cell),
        None => fields.push_field(b""),
    }
}

// The record of a row: a field under each heading.
pub(crate) fn record_of_row(
    alloc: Global,
    headings: &[&'static str],
    row: &[Cell],
) -> Result<ByteRecord, AllocError>
    ensures { IfOk result (λ fields. fields_of fields ≡ fields_from headings.now 0 row.now) }
{
    let mut fields = ByteRecord::new(alloc);
    for (place, _) in headings.iter().enumerate() {
        push_at(alloc, &mut fields, row, place)?;
    }
    Ok(fields)
}

// The record of the headings.
pub(crate) fn record_of_headings(
    alloc: Global,
    headings: &[&'static str],
) -> Result<ByteRecord, AllocError>
    ensures { IfOk result (λ fields. fields_of fields ≡ headings_of headings.now) }
{
    let mut fields = ByteRecord::new(alloc);
    for heading in headings {
        fields.push_field(heading.as_bytes())?;
    }
    Ok(fields)
}

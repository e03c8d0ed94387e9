// A table written as CSV.
ghost use Rattle.std.specs.Prelude.{◌≡◌, IfOk, OnOk, map, Ok};
ghost use Rattle.std.specs.Io.KnownBytes.{Appends};
ghost use Rattle.csv.specs.Reading.{AreRecords, default_config};
ghost use Rattle.csv.specs.Writing.{read_back, row_text, default_writer, text_written};
ghost use Rattle.csv.specs.declared.parser.State.TheVariants as st;
ghost use Rattle.grids.specs.Cells.{NumbersReadBack};
ghost use Rattle.grids.specs.CsvFields.{field_of, fields_from, headings_of, records_of};
ghost use Rattle.grids.specs.CsvRecords.{IsFresh, rows_text};

use crate::cells::Cell;
use crate::csv_records::{record_of_headings, record_of_row};
use crate::table::Grid;
use csv::{ByteRecord, Error, Writer, WriterBuilder};
use std::alloc::{AllocError, Global};
use std::io::Write;

// The record that memory made, or the error that there was none.
fn made(fields: Result<ByteRecord, AllocError>) -> Result<ByteRecord, Error>
    ensures { IfOk result (λ it. fields ≡ Ok it) }
{
    match fields {
        Ok(it) => Ok(it),
        Err(AllocError) => Err(Error::out_of_memory()),
    }
}

// Writes the record of a row.
fn write_row_record<W: Write + Drop>(
    alloc: Global,
    writer: &mut Writer<W>,
    headings: &[&'static str],
    row: &[Cell],
) -> Result<(), Error>
    requires { IsFresh writer.old }
    ensures fresh { OnOk result (IsFresh writer.new) }
    ensures bytes { OnOk result (Appends (text_written W.contents writer.old) (text_written W.contents writer.new)
        (row_text default_writer (fields_from headings.now 0 row.now))) }
{
    writer.write_byte_record(&made(record_of_row(alloc, headings, row))?)
}

// Writes the records of the rows.
fn write_row_records<W: Write + Drop>(
    alloc: Global,
    writer: &mut Writer<W>,
    headings: &[&'static str],
    rows: &[Vec<Cell>],
) -> Result<(), Error>
    requires { IsFresh writer.old }
    ensures fresh { OnOk result (IsFresh writer.new) }
    ensures bytes { OnOk result (Appends (text_written W.contents writer.old) (text_written W.contents writer.new)
        (rows_text (map (λ row. fields_from headings.now 0 row.items) rows.now))) }
{
    for row in rows {
        write_row_record(alloc, writer, headings, row)?;
    }
    Ok(())
}

// Writes the record of the headings.
fn write_heading_record<W: Write + Drop>(
    alloc: Global,
    writer: &mut Writer<W>,
    headings: &[&'static str],
) -> Result<(), Error>
    requires { IsFresh writer.old }
    ensures fresh { OnOk result (IsFresh writer.new) }
    ensures bytes { OnOk result (Appends (text_written W.contents writer.old) (text_written W.contents writer.new)
        (row_text default_writer (headings_of headings.now))) }
{
    writer.write_byte_record(&made(record_of_headings(alloc, headings))?)
}

/// A table as CSV: a record of its headings, and one of each row, with a field under each heading and
/// LF at the end. Nothing is an empty field, a truth `true` or `false`, a number in decimal, and a
/// text as it is. A field is quoted where it needs to be. Out of memory is an `Err`.
pub fn to_csv(alloc: Global, grid: &Grid) -> Result<Vec<u8>, Error>
    ensures numbers { OnOk result (NumbersReadBack field_of) }
    ensures records { IfOk result (λ text. AreRecords default_config st.StartRecord text.items
        (map read_back (records_of grid.now.headings.items grid.now.rows.items))) }
{
    let mut writer = WriterBuilder::new().from_writer(Vec::new(alloc));
    write_heading_record(alloc, &mut writer, &grid.headings)?;
    write_row_records(alloc, &mut writer, &grid.headings, &grid.rows)?;
    match writer.into_inner() {
        Ok(text) => Ok(text),
        Err(error) => Err(error.into_error()),
    }
}

// A table of tasks, read from text.
ghost use Rattle.std.specs.Prelude.{◌≡◌, ℕ, List, [], ◌∷◌, ◌++◌, true, Some, IfErr, IfOk, map};
ghost use Rattle.csv.specs.Reading.{strip_bom};
ghost use Rattle.csv.specs.Records.{fields_of};
ghost use Rattle.std.specs.List.{list_any};
ghost use Rattle.task_tables.specs.Forms.{is_filled};
ghost use Rattle.task_tables.specs.Refusals.{AreNoTable, IsNoTable, ReadsNone, is_misread};
ghost use Rattle.task_tables.specs.Lines.{line_behind};
ghost use Rattle.task_tables.specs.Misreads.{of_line, told_by};
ghost use Rattle.task_tables.specs.Rows.{FieldRow, row_at, rows_in};
ghost use Rattle.task_tables.specs.Tables.{AreRead, IsReadFrom, IsTable, ReadsAll};
ghost use Rattle.task_tables.specs.Told.{AreTaken, Tells, TellsOf, TellsOfAll, rows_told};
ghost use Rattle.task_tables.specs.Tasks.{DecimalsRead};

use crate::ends::behind_one;
use crate::errors::ReadError;
use crate::forms::{FieldsForm, without_mark};
use crate::headings::read_columns;
use crate::lines::{line_behind, line_of};
use crate::misreads::{Expected, Misread};
use crate::records::read_records;
use crate::tables::TaskTable;
use csv::ByteRecord;
use std::alloc::{AllocError, Global};
use std::io::Read;

/// Reads the table of tasks that a reader holds, to the end of the input (docs/PROGRAMS.md, Task tables).
///
/// An interrupted read is made again; any other error of the reader is passed on. A misread is told
/// only where no table can be read from what the reader held, and it is the first in the order of the
/// lines: with the line, the field and its column, what was expected, and the refusal whose condition
/// holds.
#[tactic(auto, using(crate::proofs::Decimals::decimals_read, crate::proofs::Tellings::no_misread_of_all))]
pub fn read<R: Read>(alloc: Global, reader: &mut R) -> Result<TaskTable, ReadError>
    ensures read { IfOk result (λ table. ReadsAll (R.remaining reader.old) table) }
    ensures refused { IfErr result (λ e.
        is_misread e ≡ true → ReadsNone (R.remaining reader.old)) }
    ensures told { IfErr result (TellsOfAll (R.remaining reader.old)) }
    ensures decimals { DecimalsRead }
{
    let mut text = Vec::new(alloc);
    reader.read_to_end(&mut text)?;
    read_text(alloc, text.as_slice())
}

// Reads the table of tasks that a text is.
#[tactic(auto, using(crate::proofs::Tellings::no_misread_of))]
fn read_text(alloc: Global, text: &[u8]) -> Result<TaskTable, ReadError>
    ensures read { IfOk result (λ table. IsReadFrom text.now table) }
    ensures refused { IfErr result (λ e. is_misread e ≡ true → IsNoTable text.now) }
    ensures told { IfErr result (TellsOf text.now) }
{
    let form = FieldsForm::of(text);
    let records = read_records(alloc, form, text)?;
    let text = without_mark(text);
    match read_table(alloc, form, text, records.as_slice())? {
        Some(table) => Ok(table),
        None => Err(no_heading(alloc, text)?.into()),
    }
}

// The table that the records of a text are: the first that is not blank is its heading, and each
// after it that is not blank is a task.
#[tactic(auto, using(crate::proofs::Tellings::no_misread))]
fn read_table(
    alloc: Global,
    form: FieldsForm,
    text: &[u8],
    records: &[ByteRecord],
) -> Result<Option<TaskTable>, ReadError>
    ensures read { IfOk result (λ table.
        AreRead (rows_in form text.now (map fields_of records.now)) table) }
    ensures refused { IfErr result (λ e.
        is_misread e ≡ true → AreNoTable (rows_in form text.now (map fields_of records.now))) }
    ensures told { IfErr result (Tells (rows_told text.now (rows_in form text.now (map fields_of records.now)))) }
{
    let mut table: Option<TaskTable> = None;
    let mut left = text;
    for record in records {
        let fields = form.fields(alloc, record)?;
        let row = fields.as_slice();
        if says(row) {
            let line = line_of(text, left);
            table = Some(read_row(alloc, line, row, table)?);
        }
        left = behind_one(form, left);
    }
    Ok(table)
}

// Whether a row says something: a field of it is not empty.
fn says(fields: &[&[u8]]) -> bool
    ensures { result ≡ list_any (λ f. is_filled f.now) fields.now }
{
    fields.iter().any(|field| is_filled(field))
}

// Whether a field is not empty.
fn is_filled(field: &[u8]) -> bool
    ensures { result ≡ is_filled field.now }
{
    !field.is_empty()
}

// What a table comes to with one row more: the first is its heading.
fn read_row(
    alloc: Global,
    line: u64,
    fields: &[&[u8]],
    table: Option<TaskTable>,
) -> Result<TaskTable, ReadError>
    ensures read { IfOk result (λ after. (rows : List FieldRow) → AreRead rows table
        → IsTable (rows ++ row_at line fields.now ∷ []) after) }
    ensures taken { IfOk result (λ after. (rows : List FieldRow) → AreTaken rows table
        → AreTaken (rows ++ row_at line fields.now ∷ []) (Some after)) }
    ensures refused { IfErr result (λ e.
        is_misread e ≡ true → (rows rest : List FieldRow) → AreRead rows table
        → AreNoTable (rows ++ row_at line fields.now ∷ rest)) }
    ensures told { IfErr result (λ e. (text : List ℕ) (rows rest : List FieldRow) → AreTaken rows table
        → Tells (rows_told text (rows ++ row_at line fields.now ∷ rest)) e) }
{
    match table {
        Some(mut table) => {
            table.take(alloc, line, fields)?;
            Ok(table)
        }
        None => {
            let columns = read_columns(alloc, line, fields)?;
            Ok(TaskTable::new(alloc, columns))
        }
    }
}

// No heading stands in a text.
fn no_heading(alloc: Global, text: &[u8]) -> Result<Misread, AllocError>
    ensures { IfOk result (λ m. told_by m ≡ Some (of_line (line_behind text.now) Expected.HeadingLine None)) }
{
    let line = line_behind(text);
    let stood = String::from_str(alloc, "nothing")?;
    Ok(Misread::at_line(line, stood, Expected::HeadingLine))
}

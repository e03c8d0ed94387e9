// The heading of a table: which column each of its fields names.
ghost use Rattle.std.specs.Prelude.{◌≡◌, None, Some, [], false, map, true, IfErr, IfOk, MatchOption};
ghost use Rattle.task_tables.specs.Columns.{column_named, AreDistinct, IsHeading, has_numbers};
ghost use Rattle.task_tables.specs.Misreads.{of_line, told_by};
ghost use Rattle.task_tables.specs.Refusals.{AreNoHeading, is_misread};
ghost use Rattle.task_tables.specs.Told.{Tells, columns_of, headings_told};

use crate::columns::{Column, has};
use crate::errors::ReadError;
use crate::misreads::{Expected, Misread, Place};
use std::alloc::{AllocError, Global};

// The columns that the headings of a line name, in order.
#[tactic(auto, using(crate::proofs::Tellings::no_misread))]
pub(crate) fn read_columns(
    alloc: Global,
    line: u64,
    headings: &[&[u8]],
) -> Result<Vec<Column>, ReadError>
    ensures columns { IfOk result (λ columns.
        IsHeading (map (λ h. h.now) headings.now) columns.items) }
    ensures same { IfOk result (λ columns. columns.items ≡ columns_of (map (λ h. h.now) headings.now)) }
    ensures none { IfOk result (λ _. headings_told line [] (map (λ h. h.now) headings.now) ≡ None) }
    ensures refused { IfErr result (λ e.
        is_misread e ≡ true → AreNoHeading (map (λ h. h.now) headings.now)) }
    ensures told { IfErr result (Tells (headings_told line [] (map (λ h. h.now) headings.now))) }
{
    let columns = read_headings(alloc, line, headings)?;
    match missing(columns.as_slice()) {
        Some(column) => Err(no_heading(alloc, line, column)?.into()),
        None => Ok(columns),
    }
}

// The columns that headings name, whichever they are, each once.
#[tactic(auto, using(crate::proofs::Tellings::no_misread))]
fn read_headings(alloc: Global, line: u64, headings: &[&[u8]]) -> Result<Vec<Column>, ReadError>
    ensures named { IfOk result (λ columns. map column_named (map (λ h. h.now) headings.now)
        ≡ map (λ c. Some c) columns.items) }
    ensures once { IfOk result (λ columns. AreDistinct columns.items) }
    ensures last { IfOk result (λ columns. headings_told line [] (map (λ h. h.now) headings.now)
        ≡ headings_told line columns.items []) }
    ensures refused { IfErr result (λ e.
        is_misread e ≡ true → AreNoHeading (map (λ h. h.now) headings.now)) }
    ensures told { IfErr result (Tells (headings_told line [] (map (λ h. h.now) headings.now))) }
{
    let mut columns = Vec::new(alloc);
    for (index, heading) in headings.iter().enumerate() {
        let place = Place {
            line,
            field: index + 1,
        };
        let Some(column) = Column::named(heading) else {
            let none = Misread::of_bytes(alloc, place, None, heading, Expected::Heading)?;
            return Err(none.into());
        };
        if has(columns.as_slice(), column) {
            let again = Misread::of_field(alloc, place, None, heading, Expected::OtherHeading)?;
            return Err(again.into());
        }
        columns.push(column)?;
    }
    Ok(columns)
}

// The first column that must be there and is not.
fn missing(columns: &[Column]) -> Option<Column>
    ensures { MatchOption result (has_numbers columns.now ≡ true) (λ _. has_numbers columns.now ≡ false) }
{
    if !has(columns, Column::Work) {
        Some(Column::Work)
    } else if !has(columns, Column::Deadline) {
        Some(Column::Deadline)
    } else if !has(columns, Column::Period) {
        Some(Column::Period)
    } else {
        None
    }
}

// The heading of a column stands nowhere in a line.
fn no_heading(alloc: Global, line: u64, column: Column) -> Result<Misread, AllocError>
    ensures { IfOk result (λ m. told_by m ≡ Some (of_line line Expected.Headings None)) }
{
    let stood = format!(in alloc; "no heading {column}")?;
    Ok(Misread::at_line(line, stood, Expected::Headings))
}

// The task of a record, by the columns that the heading names.
ghost use Rattle.std.specs.Prelude.{◌≡◌, Some, map, option_map, IfOk, MatchOption};
ghost use Rattle.std.specs.Option.{option_or};
ghost use Rattle.std.specs.Str.{IsUtf8};
ghost use Rattle.task_tables.specs.Misreads.{expected_for, of_field, told_by};
ghost use Rattle.task_tables.specs.Rows.{row_at};
ghost use Rattle.task_tables.specs.Tasks.{field_under, fits, jitter_of, name_of, number_under, numbers_of, refusal_of};
ghost use Rattle.task_tables.specs.Told.{count_told, misfit_told};

use crate::columns::{Column, has, place_of};
use crate::fields::is_text;
use crate::misreads::{Expected, Misread, Place};
use numerals::{is_digits, number};
use rows::{Numbers, Refusal};
use std::alloc::{AllocError, Global};
use std::str;

// The field of a record under a column.
fn field_under<'a>(columns: &[Column], fields: &[&'a [u8]], column: Column) -> Option<&'a [u8]>
    ensures { option_map (λ f. f.now) result
        ≡ field_under columns.now (map (λ f. f.now) fields.now) column }
{
    fields.get(place_of(columns, column)?).copied()
}

// The number that stands under a column.
fn number_under(columns: &[Column], fields: &[&[u8]], column: Column) -> Option<u32>
    ensures { result ≡ number_under columns.now (map (λ f. f.now) fields.now) column }
{
    number(field_under(columns, fields, column)?)
}

// The jitter of a record: 0, where there is no such column.
fn jitter(columns: &[Column], fields: &[&[u8]]) -> Option<u32>
    ensures { result ≡ jitter_of columns.now (map (λ f. f.now) fields.now) }
{
    if has(columns, Column::Jitter) {
        number_under(columns, fields, Column::Jitter)
    } else {
        Some(0)
    }
}

// The name of a record: none, where there is no such column.
pub(crate) fn name<'a>(columns: &[Column], fields: &[&'a [u8]]) -> Option<&'a str>
    ensures { MatchOption result
        (¬ (IsUtf8 (name_of columns.now (map (λ f. f.now) fields.now))))
        (λ name. (name.now ≡ name_of columns.now (map (λ f. f.now) fields.now))
        × IsUtf8 (name_of columns.now (map (λ f. f.now) fields.now))) }
{
    match field_under(columns, fields, Column::Name) {
        Some(field) => str::from_utf8(field).ok(),
        None => Some(""),
    }
}

// The numbers of a record that has a field for each column.
pub(crate) fn numbers(columns: &[Column], fields: &[&[u8]]) -> Option<Numbers>
    ensures { result ≡ numbers_of columns.now (map (λ f. f.now) fields.now) }
{
    if fields.len() != columns.len() {
        return None;
    }
    Some(Numbers {
        work: number_under(columns, fields, Column::Work)?,
        deadline: number_under(columns, fields, Column::Deadline)?,
        period: number_under(columns, fields, Column::Period)?,
        jitter: jitter(columns, fields)?,
    })
}

// Whether a field can stand under a column.
fn fits(column: Column, field: &[u8]) -> bool
    ensures { result ≡ fits column field.now }
{
    match column {
        Column::Name => is_text(field),
        _ => number(field).is_some(),
    }
}

// The refusal whose condition holds of a record with this field under a column, which writes no
// number of 32 bits.
fn refusal(columns: &[Column], fields: &[&[u8]], column: Column, field: &[u8]) -> Option<Refusal>
    ensures { result
        ≡ refusal_of columns.now (map (λ f. f.now) fields.now) column field.now }
{
    if !is_digits(field) {
        return None;
    }
    match column {
        Column::Name => None,
        Column::Period => Some(Refusal::LongPeriod),
        Column::Deadline => {
            number_under(columns, fields, Column::Period).map(|_| Refusal::LateDeadline)
        }
        Column::Work | Column::Jitter => {
            number_under(columns, fields, Column::Deadline).map(|_| Refusal::NoWindow)
        }
    }
}

// What of a record cannot be taken: the leftmost field that cannot stand under its column, or else the
// number of its fields.
pub(crate) fn misread(
    alloc: Global,
    line: u64,
    columns: &[Column],
    fields: &[&[u8]],
) -> Result<Misread, AllocError>
    ensures { IfOk result (λ m. told_by m ≡ option_or (misfit_told columns.now (row_at line fields.now))
        (Some (count_told columns.now (row_at line fields.now)))) }
{
    if fields.len() == columns.len() {
        for (index, column) in columns.iter().enumerate() {
            if !fits(*column, fields[index]) {
                let place = Place {
                    line,
                    field: index + 1,
                };
                return misfit(alloc, place, *column, columns, fields, fields[index]);
            }
        }
    }
    let count = fields.len();
    let stood = format!(in alloc; "{count} fields")?;
    Ok(Misread::at_line(line, stood, Expected::Fields(columns.len())))
}

// A field that cannot stand under its column.
fn misfit(
    alloc: Global,
    place: Place,
    column: Column,
    columns: &[Column],
    fields: &[&[u8]],
    field: &[u8],
) -> Result<Misread, AllocError>
    ensures { IfOk result (λ m. told_by m
        ≡ Some (of_field place (Some column) (expected_for Expected.Number field.now)
        (refusal_of columns.now (map (λ f. f.now) fields.now) column field.now))) }
{
    let misread = Misread::of_bytes(alloc, place, Some(column), field, Expected::Number)?;
    Ok(misread.refused(refusal(columns, fields, column, field)))
}

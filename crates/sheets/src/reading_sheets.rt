// A sheet read from bytes.
ghost use Rattle.std.specs.Prelude.{IsTrue, ◌≡◌, ℕ, ◌<◌, [], ◌∷◌, ◌++◌, length, IfOk, MatchOption};
ghost use Rattle.rows.specs.Answers.{answer, refusal, first_refusal};
ghost use Rattle.rows.specs.Books.{book};
ghost use Rattle.rows.specs.Counting.{is_on_frame};
ghost use Rattle.rows.specs.Times.{most_rows};
ghost use Rattle.leaves.specs.declared.entries.Entry.{Entry};
ghost use Rattle.leaves.specs.declared.entries.Heading.{Heading};
ghost use Rattle.reading.specs.Checks.{next_checks};
ghost use Rattle.reading.specs.Readers.{reading_of};
ghost use Rattle.reading.specs.Stepping.{TakesEntry};
ghost use Rattle.reading.specs.declared.phases.Phase.{Phase};
ghost use Rattle.sheets.specs.Reading.{sheet_row_checks, FitsSheet, FitsOneSheet};

use crate::sheets::Sheet;
use leaves::{Entry, Heading};
use reading::Reader;
use rows::{Fault, Refusal, Row, Table};

/// The sheet that the bytes are, or the first check that fails, with its place (docs/FORMAT.md,
/// Sheets, has the order of the checks). Every string of bytes has exactly one answer.
pub fn read(bytes: &[u8]) -> Result<Sheet, Fault>
    ensures fits { FitsSheet bytes.now (answer (λ t. t) result) }
    ensures once { FitsOneSheet }
{
    let mut reader = Reader::new(bytes);
    let heading = next_heading(&mut reader)?;
    let mut table = Table::new(&heading.frame());
    while let Some(row) = next_row(&mut reader)? {
        add(&mut table, row);
    }
    Ok(Sheet::of(table, heading.bound))
}

// Puts a row that the reader took in below the others.
fn add(table: &mut Table, row: Row)
    requires room { length table.old.rows < most_rows }
    requires on { IsTrue (is_on_frame table.old.frame.ticks row) }
    ensures { table.new ≡ book table.old.frame (table.old.rows ++ row ∷ []) }
{
    let rank = table.len() + 1;
    table.put_in(rank, row).unwrap();
}

// The heading, before which nothing has come.
fn next_heading(reader: &mut Reader<'_>) -> Result<Heading, Fault>
    requires { (reading_of reader.old).phase ≡ Phase.Opening }
    ensures answered { refusal result
        ≡ first_refusal (next_checks Phase.Opening 0 (reading_of reader.old).left) }
    ensures taken { IfOk result (λ h.
        TakesEntry (reading_of reader.old) (Entry.Heading h) (reading_of reader.new)) }
{
    match reader.next_entry()? {
        Some(Entry::Heading(heading)) => Ok(heading),
        _ => unreachable!(),
    }
}

// The next row, after the heading and any others: none where no byte is left.
fn next_row(reader: &mut Reader<'_>) -> Result<Option<Row>, Fault>
    requires { (h : Heading) × (n : ℕ) × ((reading_of reader.old).phase ≡ Phase.Rows h n) }
    ensures answered { refusal result
        ≡ first_refusal (sheet_row_checks (reading_of reader.old).phase (reading_of reader.old).left) }
    ensures taken { IfOk result (λ o. MatchOption o ((reading_of reader.old).left ≡ [])
        (λ r. TakesEntry (reading_of reader.old) (Entry.Row r) (reading_of reader.new))) }
{
    match reader.left() {
        [] => return Ok(None),
        [b'A' | b'Z', ..] => return Err(Refusal::OutOfTurn.at(reader.place())),
        _ => {}
    }
    match reader.next_entry()? {
        Some(Entry::Row(row)) => Ok(Some(row)),
        _ => unreachable!(),
    }
}

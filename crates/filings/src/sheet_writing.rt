// The sheet of a table of numbers.
ghost use Rattle.std.specs.Prelude.{◌≡◌, ◌+◌, ◌*◌, ◌≤◌, length, map, MatchResult, take};
ghost use Rattle.rows.specs.Answers.{answer, checked, gives};
ghost use Rattle.rows.specs.Lists.{written};
ghost use Rattle.leaves.specs.declared.entries.Entry.{Entry};
ghost use Rattle.leaves.specs.Entries.{row_size};
ghost use Rattle.reading.specs.Phases.{place_of, rows_in, frame_in};
ghost use Rattle.writing.specs.Filing.{FilesAll};
ghost use Rattle.sheets.specs.Tables.{OnSheet, sheet_bytes};
ghost use Rattle.sheets.specs.Reading.{FitsSheet};
ghost use Rattle.filings.specs.Checks.{frame_for};
ghost use Rattle.filings.specs.Filings.{heading_numbers};
ghost use Rattle.filings.specs.Sheets.{sheet_checks, sheet_length, IsTableOf};

use crate::judging::{judge_frame, judge_on};
use bounds::Family;
use leaves::{HEADING_SIZE, Heading, ROW_SIZE};
use rows::{Fault, FrameNumbers, Numbers, Refusal, Table};
use writing::{RowsLeaf, begin};

/// Writes the sheet of a table at the first byte of a buffer, and no other byte (docs/FORMAT.md,
/// Sheets). Its heading tells the frame given, or else the common frame of the periods, and the bound
/// that a kind and an accuracy name. Answers the length of the sheet in bytes.
///
/// Refused as `judge` is with that bound, and last with 19, short buffer, at 0 (docs/REFUSALS.md). A
/// refusal leaves the buffer as it was.
pub fn write_sheet(
    frame: Option<FrameNumbers>,
    family: Family,
    accuracy: u32,
    table: &[Numbers],
    buffer: &mut [u8],
) -> Result<usize, Fault>
    ensures answered { answer (λ n. n) result
        ≡ checked (sheet_checks frame (family, accuracy) table.now (length buffer.old))
        (sheet_length table.now) }
    ensures written { MatchResult result (λ n. (t : OnSheet)
        × IsTableOf (heading_numbers (frame_for frame table.now) (family, accuracy)) table.now t
        × (buffer.new ≡ written buffer.old 0 (sheet_bytes t))
        × FitsSheet (take n buffer.new) (gives t))
        (λ _. buffer.new ≡ buffer.old) }
{
    let frame = judge_frame(frame)?;
    let bound = family.bound(accuracy)?;
    let judged = judge_on(frame, table)?;
    if buffer.len() < 1 + HEADING_SIZE + (1 + ROW_SIZE) * table.len() {
        return Err(Refusal::ShortBuffer.at(0));
    }
    let frame = judged.frame().numbers();
    let leaf = begin(Heading { frame, bound }, buffer)?;
    Ok(put_rows(leaf, &judged, buffer).phase().place() as usize)
}

// Writes the rows of a table behind the heading.
fn put_rows(leaf: RowsLeaf, table: &Table, buffer: &mut [u8]) -> RowsLeaf
    requires empty { rows_in leaf ≡ 0 }
    requires frame { frame_in leaf ≡ table.now.frame }
    requires room { place_of leaf + (1 + row_size) * length table.now.rows ≤ length buffer.old }
    ensures { FilesAll leaf buffer.old (map Entry.Row table.now.rows) result buffer.new }
{
    let mut leaf = leaf;
    for row in table.rows() {
        leaf.row(row, buffer).unwrap();
    }
    leaf
}

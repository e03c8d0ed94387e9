// The answer to a sheet, in bytes.
ghost use Rattle.std.specs.Prelude.{◌≡◌, ◌≤◌, length, IsOk};
ghost use Rattle.rows.specs.Answers.{Answer, gives, refuses};
ghost use Rattle.rows.specs.Refusals.{number};
ghost use Rattle.leaves.specs.Contents.{Contents};
ghost use Rattle.sheets.specs.Answers.{Answers, AnswersOnce, deciding, most_answer, most_sheet, FirstDecide, IsPut};
ghost use Rattle.sheets.specs.Answers.{IsLeafOf};
ghost use Rattle.sheets.specs.Surveying.{IsSurveyOf};

use crate::reading_sheets::read;
use crate::sheets::Sheet;
use leaves::{END_SIZE, FINDING_SIZE, HEADING_SIZE, ROW_SIZE};
use rows::{Fault, Finding, MOST_ROWS, Refusal};
use writing::file;

/// How many bytes the sheet of a full table has; none is longer.
pub const MOST_SHEET: usize = 1 + HEADING_SIZE + (1 + ROW_SIZE) * MOST_ROWS;

/// How many bytes of any input decide what it is answered (docs/FORMAT.md, Sheets): a row after those
/// of a full table is refused by its first byte.
pub const DECIDING: usize = MOST_SHEET + 1;

/// How many bytes the longest answer has: the leaf of a full table.
pub const MOST_ANSWER: usize = MOST_SHEET + (1 + FINDING_SIZE) * MOST_ROWS + 1 + END_SIZE;

/// Puts the answer to a string of bytes into a buffer (docs/FORMAT.md, The answer to a sheet): where
/// the bytes are a sheet, the leaf of its survey by the bound that its heading names; else the
/// refusal, with its number and place. It is written from the first byte of the buffer on, and no
/// other byte. Answers its length in bytes.
///
/// Refused with 19, short buffer, at 0 where the buffer is shorter than the answer
/// (docs/REFUSALS.md), and never with `MOST_ANSWER` bytes or more. A refused call leaves the buffer
/// as it was.
pub fn answer_sheet(bytes: &[u8], buffer: &mut [u8]) -> Result<usize, Fault>
    ensures fits { (a : Answer Contents) × Answers bytes.now a }
    ensures put { (a : Answer Contents) → Answers bytes.now a →
        IsPut a buffer.old buffer.new result }
    ensures room { most_answer ≤ length buffer.old → IsOk result }
    ensures leaf { (c : Contents) → Answers bytes.now (gives c) → IsLeafOf bytes.now c }
    ensures once { AnswersOnce }
    ensures decide { FirstDecide }
    ensures sizes { (MOST_SHEET ≡ most_sheet) × (DECIDING ≡ deciding) × (MOST_ANSWER ≡ most_answer) }
{
    match read(bytes) {
        Ok(sheet) => file_survey(&sheet, buffer),
        Err(fault) => put_refusal(fault, buffer),
    }
}

// Files the leaf of the survey of a sheet.
fn file_survey(sheet: &Sheet, buffer: &mut [u8]) -> Result<usize, Fault>
    ensures { (c : Contents) × IsSurveyOf sheet.now c
        × IsPut (gives c) buffer.old buffer.new result }
{
    let mut list = [Finding::default(); MOST_ROWS];
    let heading = sheet.heading();
    let count = sheet.survey(&mut list)?;
    file(heading, sheet.rows(), &list[..count], buffer)
}

// Puts a refusal into a buffer: its letter, its number and its place.
fn put_refusal(fault: Fault, buffer: &mut [u8]) -> Result<usize, Fault>
    ensures { IsPut (refuses fault.refusal fault.at) buffer.old buffer.new result }
{
    let [a, b, c, d] = fault.at.to_be_bytes();
    let bytes = [b'X', fault.refusal.number(), a, b, c, d];
    if buffer.len() < bytes.len() {
        return Err(Refusal::ShortBuffer.at(0));
    }
    buffer[..bytes.len()].copy_from_slice(&bytes);
    Ok(bytes.len())
}

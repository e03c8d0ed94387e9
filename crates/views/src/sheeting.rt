// The sheet of a task table.
ghost use Rattle.std.specs.Prelude.{◌≤◌, ◌∷◌, [], length, take, IfOk, OnOk, IfErr};
ghost use Rattle.views.specs.Sheeted.{IsSheetFor, IsSheetOf};
ghost use Rattle.views.specs.Troubles.{Fails, TellsFirst, Writes, of_table};

use crate::counted::{Counting, trouble};
use crate::outputs::write_out;
use crate::troubles::Trouble;
use bounds::Family;
use filings::write_sheet;
use rows::FrameNumbers;
use sheets::MOST_SHEET;
use std::alloc::Global;
use std::io::{Read, Write};
use task_tables::{TaskTable, read};

/// Reads a task table and writes its sheet, for the program `survey` (docs/FORMAT.md, Sheets): on the
/// frame that is named, or the least common multiple of the periods, and by the bound that is named by its
/// kind and an accuracy.
///
/// Refused as `count_table` refuses with that bound; nothing is written then.
pub fn sheet<R: Read, W: Write>(
    alloc: Global,
    reader: &mut R,
    frame: Option<FrameNumbers>,
    bound: (Family, u32),
    writer: &mut W,
) -> Result<(), Trouble>
    ensures written { OnOk result (Writes (IsSheetFor frame bound (R.remaining reader.old))
        (W.contents writer.old) (W.contents writer.new)) }
    ensures failed { IfErr result (λ t. Fails (IsSheetFor frame bound (R.remaining reader.old))
        (of_table (R.remaining reader.old) frame (bound ∷ []))
        (W.contents writer.old) (W.contents writer.new) t) }
{
    let mut buffer = [0; MOST_SHEET];
    match read(alloc, reader) {
        Ok(table) => match put_sheet(alloc, &table, frame, bound, &mut buffer) {
            Ok(length) => write_out(writer, &buffer[..length]),
            Err(trouble) => Err(trouble),
        },
        Err(error) => Err(Trouble::Table(error)),
    }
}

// Puts the sheet of a table in front into a buffer that has room for every sheet. Answers its length.
fn put_sheet(
    alloc: Global,
    table: &TaskTable,
    frame: Option<FrameNumbers>,
    bound: (Family, u32),
    buffer: &mut [u8; MOST_SHEET],
) -> Result<usize, Trouble>
    ensures within { IfOk result (λ n. n ≤ length buffer.new) }
    ensures sheet { IfOk result (λ n. IsSheetOf frame bound table.now (take n buffer.new)) }
    ensures refused { IfErr result (λ t. TellsFirst frame (bound ∷ []) table.now t) }
{
    let (family, accuracy) = bound;
    match write_sheet(frame, family, accuracy, table.numbers(), buffer) {
        Ok(length) => Ok(length),
        Err(fault) => {
            let bounds = &[bound];
            Err(trouble(alloc, table, Counting { frame, bounds }, fault))
        }
    }
}

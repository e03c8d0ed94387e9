// What is answered to a sheet.
ghost use Rattle.std.specs.Prelude.{◌≡◌, replicate, IfOk};
ghost use Rattle.rows.specs.Answers.{Answer};
ghost use Rattle.leaves.specs.Contents.{Contents};
ghost use Rattle.sheets.specs.Answers.{Answers, IsPut};

use crate::puts::{FILLING, Put, buffer};
use sheets::{MOST_ANSWER, answer_sheet};
use std::alloc::{AllocError, Global};
use std::io::Write;

/// Prints the answer to a sheet in three buffers: one with room for every answer, one of the length
/// of this answer, and one that is a byte shorter.
pub(crate) fn answer_in_buffers<W: Write + Drop>(
    alloc: Global,
    sheet: &[u8],
    writer: &mut W,
) -> anyhow::Result<()> {
    let roomy = answer_in(alloc, sheet, MOST_ANSWER)?;
    let length = roomy.answered.unwrap_or(0);
    let fitting = answer_in(alloc, sheet, length)?;
    let short = answer_in(alloc, sheet, length.saturating_sub(1))?;
    writeln!(writer, "{roomy}, {fitting}, {short}")?;
    Ok(())
}

// The answer to a sheet in a buffer of some length.
fn answer_in(alloc: Global, sheet: &[u8], length: usize) -> Result<Put<'_>, AllocError>
    ensures about { IfOk result (λ put. put.about.now ≡ sheet.now) }
    ensures put { IfOk result (λ put. (a : Answer Contents) → Answers sheet.now a →
        IsPut a (replicate length FILLING) put.buffer.items put.answered) }
{
    let mut buffer = buffer(alloc, length)?;
    Ok(Put {
        about: sheet,
        answered: answer_sheet(sheet, &mut buffer),
        buffer,
    })
}

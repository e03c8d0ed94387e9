// A whole leaf.
ghost use Rattle.std.specs.Prelude.{IfOk};
ghost use Rattle.rows.specs.Answers.{Answer};
ghost use Rattle.leaves.specs.Contents.{Contents};
ghost use Rattle.reading.specs.Whole.{Fits, FitsOnce};
ghost use Rattle.reading.specs.Leaves.{ArePartsOf, Reads};

use crate::held::Leaf;
use crate::phases::{Phase, place_after};
use crate::readers::Reader;
use rows::Fault;

/// The leaf that the bytes are, or the first check that fails, with its place (docs/FORMAT.md has
/// the format and the order of the checks). Every string of bytes has exactly one answer.
pub fn read(bytes: &[u8]) -> Result<Leaf<'_>, Fault>
    ensures fits { (a : Answer Contents) × Fits bytes.now a × Reads result a }
    ensures only { (a : Answer Contents) → Fits bytes.now a → Reads result a }
    ensures once { FitsOnce }
    ensures parts { IfOk result (ArePartsOf bytes.now) }
{
    let mut reader = Reader::new(bytes);
    while reader.next_entry()?.is_some() {}
    let Phase::Closed { heading, rows } = reader.phase() else {
        unreachable!()
    };
    let rows_from = place_after(0, 0) as usize;
    let findings_from = place_after(rows, 0) as usize;
    let findings_to = place_after(rows, rows) as usize;
    Ok(Leaf {
        heading,
        rows: &bytes[rows_from..findings_from],
        findings: &bytes[findings_from..findings_to],
    })
}

// The answer to what a reader holds.
ghost use Rattle.std.specs.Prelude.{◌≡◌, ℕ, ◌<◌, ◌≤◌, List, length, take, IfSome, IfOk, OnOk, OnErr};
ghost use Rattle.std.specs.Io.KnownBytes.{Consumes};
ghost use Rattle.sheets.specs.Answers.{deciding};
ghost use Rattle.survey.specs.Answering.{IsAnswerTo, IsAnswerToHeld};

use sheets::{DECIDING, MOST_ANSWER, answer_sheet};
use std::io;
use std::io::Read;
use streams::fill;

/// Reads a sheet and puts its answer in front into a buffer (docs/FORMAT.md, The answer to a sheet).
/// Answers its length in bytes. Of the input no more is read than the bytes that decide.
pub(crate) fn read_answer<R: Read>(
    reader: &mut R,
    buffer: &mut [u8; MOST_ANSWER],
) -> io::Result<usize>
    ensures within { IfOk result (λ n. n ≤ length buffer.new) }
    ensures answered { IfOk result (λ n.
        IsAnswerToHeld (R.remaining reader.old) (take n buffer.new)) }
    ensures read { OnOk result (IfSome (R.remaining reader.old) (λ bytes.
        Consumes (R.remaining reader.old) (R.remaining reader.new) (take deciding bytes))) }
    ensures lost { OnErr result ((lost : List ℕ) × (length lost < deciding)
        × Consumes (R.remaining reader.old) (R.remaining reader.new) lost) }
    ensures most { (taken : List ℕ) × (length taken ≤ deciding)
        × Consumes (R.remaining reader.old) (R.remaining reader.new) taken }
{
    let mut bytes = [0; DECIDING];
    let count = fill(reader, &mut bytes)?;
    Ok(put_answer(&bytes[..count], buffer))
}

// Puts the answer to some bytes in front into a buffer, and answers its length. It answers all that
// begins with these bytes, if they are enough to decide.
fn put_answer(bytes: &[u8], buffer: &mut [u8; MOST_ANSWER]) -> usize
    ensures within { result ≤ length buffer.new }
    ensures answers { (all : List ℕ) → bytes.now ≡ take deciding all
        → IsAnswerTo all (take result buffer.new) }
{
    answer_sheet(bytes, buffer).unwrap()
}

// What a reader holds, answered into a writer.
ghost use Rattle.std.specs.Prelude.{◌≡◌, ℕ, ◌≤◌, List, length, OnOk, IfErr};
ghost use Rattle.std.specs.Io.KnownBytes.{Appends, Consumes};
ghost use Rattle.sheets.specs.Answers.{deciding};
ghost use Rattle.survey.specs.Answering.{IsAnswerToHeld};
ghost use Rattle.survey.specs.Surveyed.{HasGot, HasRead};

use crate::answers::read_answer;
use sheets::MOST_ANSWER;
use std::io::{Read, Write};
use streams::{Failure, NamedFailure, put};

/// A failure of `run` with the names of what it read and wrote, as people are told it.
pub(crate) fn name_failure(failure: Failure) -> NamedFailure
    ensures { result.failure ≡ failure }
{
    failure.named("the sheet", "the answer")
}

/// Reads a sheet from a reader and writes its answer to a writer (docs/FORMAT.md, The answer to a
/// sheet). Of the input, however long it is, no more is read than the bytes that decide.
///
/// Where reading fails, nothing is written; where writing fails, a beginning of the answer.
pub(crate) fn run<R: Read, W: Write>(reader: &mut R, writer: &mut W) -> Result<(), Failure>
    ensures answered { OnOk result ((out : List ℕ) × IsAnswerToHeld (R.remaining reader.old) out
        × Appends (W.contents writer.old) (W.contents writer.new) out) }
    ensures failed { IfErr result (λ f.
        HasGot f (R.remaining reader.old) (W.contents writer.old) (W.contents writer.new)) }
    ensures read { HasRead result (R.remaining reader.old) (R.remaining reader.new) }
    ensures most { (taken : List ℕ) × (length taken ≤ deciding)
        × Consumes (R.remaining reader.old) (R.remaining reader.new) taken }
{
    let mut buffer = [0; MOST_ANSWER];
    let length = read_answer(reader, &mut buffer).map_err(Failure::Reading)?;
    put(writer, &buffer[..length]).map_err(Failure::Writing)
}

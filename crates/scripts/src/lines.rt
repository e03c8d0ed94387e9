// What a line of a script says.
ghost use Rattle.std.specs.Prelude.{◌≡◌, ℕ, ◌^◌, ◌<◌, Bool, true, false, List, length, take, MatchResult};
ghost use Rattle.bounds.specs.declared.families.Family.{Family};
ghost use Rattle.admission.specs.declared.calls.Call.{Call};
ghost use Rattle.scripts.specs.Lines.{line_by_form, line_by_words, line_of};
ghost use Rattle.scripts.specs.Texts.{bound_text, call_text, FitsBound, FitsLine};
ghost use Rattle.scripts.specs.declared.lines.ScriptLine.{ScriptLine};
ghost use Rattle.scripts.specs.Words.{words_of};

use crate::expecting::ExpectedWords;
use crate::forms::LineForm;
use crate::words::Words;
use admission::Call;
use bounds::Family;
use rows::{FrameNumbers, Numbers};

// The most bytes of a line that is no comment.
const LONGEST_LINE: usize = 128;

/// What a line of a script says (docs/PROGRAMS.md, `bench`).
#[derive(Clone, Copy, PartialEq, Eq, Debug)]
pub enum ScriptLine {
    /// Nothing: it is a comment, or has no word.
    Passed,
    /// That the bench counts by a bound, by its kind and its accuracy, which may be any number here; it
    /// is 0 where there is but one of the kind.
    Bound(Family, u32),
    /// A call.
    Call(Call),
    /// No call: something else was expected.
    NoCall(ExpectedWords),
}

// Reads a line of a form by the words after its first.
fn read(form: LineForm, words: Words) -> Result<ScriptLine, ExpectedWords>
    requires { length (words_of words.0.now) < 2 ^ 64 }
    ensures { MatchResult result (λ line. line ≡ line_by_form form (words_of words.entry.0.now))
        (λ e. ScriptLine.NoCall e ≡ line_by_form form (words_of words.entry.0.now)) }
{
    let fields = form.fields();
    if words.count() != fields.len() {
        return Err(ExpectedWords::Form(form));
    }
    let [first, work, deadline, period, jitter] = words
        .numbers(fields)
        .map_err(ExpectedWords::Number)?;
    Ok(match form {
        LineForm::Bound(family) if family.has_accuracies() => ScriptLine::Bound(family, first),
        LineForm::Bound(family) => ScriptLine::Bound(family, 0),
        LineForm::Frame => ScriptLine::Call(Call::Frame(FrameNumbers { ticks: first })),
        LineForm::Admit => {
            let numbers = Numbers {
                work,
                deadline,
                period,
                jitter,
            };
            ScriptLine::Call(Call::Admit(first as usize, numbers))
        }
        LineForm::Dismiss => ScriptLine::Call(Call::Dismiss(first as usize)),
        LineForm::Inquire => ScriptLine::Call(Call::Inquire(first as usize)),
    })
}

// Reads a line by its words.
fn read_words(mut words: Words, named: bool) -> Result<ScriptLine, ExpectedWords>
    requires { length (words_of words.0.now) < 2 ^ 64 }
    ensures { MatchResult result (λ line. line ≡ line_by_words named (words_of words.entry.0.now))
        (λ e. ScriptLine.NoCall e ≡ line_by_words named (words_of words.entry.0.now)) }
{
    let Some(word) = words.next() else {
        return Ok(ScriptLine::Passed);
    };
    match LineForm::of(word, named) {
        Some(form) => read(form, words),
        None if named => Err(ExpectedWords::CallName),
        None => Err(ExpectedWords::Bound),
    }
}

/// What a line says: its bytes without the line feed at its end, and without one carriage return
/// before that; once a bound has been named, or before (docs/PROGRAMS.md, `bench`).
///
/// Of a line of more than 128 bytes only the first 129 matter. Every call whose rank is below 2^32 is
/// what its own text says, and so is every bound with an accuracy below 2^32, 0 where none is told.
#[tactic(auto, using(crate::proofs::WordList::length_words_of, crate::proofs::Clipping::line_of_clipped, crate::proofs::Printed::call_reads, crate::proofs::Printed::bound_reads))]
pub fn parse(line: &[u8], named: bool) -> ScriptLine
    ensures answered { result ≡ line_of named line.now }
    ensures clipped { (named : Bool) (bytes : List ℕ)
        → line_of named (take 129 bytes) ≡ line_of named bytes }
    ensures reads_calls { (call : Call)
        → FitsLine call → line_of true (call_text call) ≡ ScriptLine.Call call }
    ensures reads_bounds { (f : Family) (k : ℕ)
        → FitsBound f k → line_of false (bound_text f k) ≡ ScriptLine.Bound f k }
{
    if line.first() == Some(&b'#') {
        ScriptLine::Passed
    } else if line.len() > LONGEST_LINE {
        ScriptLine::NoCall(ExpectedWords::ShortLine)
    } else {
        read_words(Words(line), named).unwrap_or_else(ScriptLine::NoCall)
    }
}

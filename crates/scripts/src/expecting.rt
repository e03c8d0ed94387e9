// What was expected where a line is no call.
ghost use Rattle.std.specs.Prelude.{Some};
ghost use Rattle.scripts.specs.declared.expecting.ExpectedWords.{ExpectedWords};
ghost use Rattle.scripts.specs.Texts.{expected_text};

use crate::forms::{Field, LineForm};
use bounds::Family;
use std::fmt;

/// What was expected in the place of a line that is no call (docs/PROGRAMS.md, `bench`).
#[derive(Clone, Copy, PartialEq, Eq, Debug)]
pub enum ExpectedWords {
    /// A line of at most 128 bytes.
    ShortLine,
    /// A line that names a bound: none has been named yet.
    Bound,
    /// One of the four calls.
    CallName,
    /// As many words as the form has.
    Form(LineForm),
    /// A number from 0 to 4294967295 in the place of the leftmost word that is none.
    Number(Field),
}

// What was expected, as docs/PROGRAMS.md writes it: "exact or linear K".
impl fmt::Display for ExpectedWords {
    ghost output = { λ x. Some (expected_text x) };

    fn fmt<W: fmt::Write>(&self, f: &mut fmt::Formatter<W>) -> fmt::Result {
        match self {
            ExpectedWords::ShortLine => write!(f, "a line of at most 128 bytes"),
            ExpectedWords::Bound => write!(f, "{}", AnyBound),
            ExpectedWords::CallName => write!(f, "frame, admit, dismiss or inquire"),
            ExpectedWords::Form(form) => write!(f, "{form}"),
            ExpectedWords::Number(field) => {
                write!(f, "a number from 0 to 4294967295 for {field}")
            }
        }
    }
}

// Any form that names a bound.
struct AnyBound;

// The forms with " or " between them.
impl fmt::Display for AnyBound {
    ghost output = { λ _. Some (expected_text ExpectedWords.Bound) };

    fn fmt<W: fmt::Write>(&self, f: &mut fmt::Formatter<W>) -> fmt::Result {
        for (place, family) in Family::all().iter().enumerate() {
            if place > 0 {
                f.write_str(" or ")?;
            }
            write!(f, "{}", LineForm::Bound(*family))?;
        }
        Ok(())
    }
}

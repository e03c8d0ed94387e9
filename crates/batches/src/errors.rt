// Why a bound by batches is not made.
ghost use Rattle.std.specs.Prelude.{Some};
ghost use Rattle.batches.specs.Shown.{shown_error};

use rows::Fault;
use std::error::Error;
use std::fmt;

/// Why no bound is made of an accuracy and a batch size: a refusal of the toolkit's, or what only
/// this crate can find wrong.
#[derive(Clone, Copy, PartialEq, Eq, Debug)]
pub enum BatchError {
    /// Refusal 3, bad accuracy, at 0: the accuracy is outside 1 to 64.
    Refused(Fault),
    /// The batch size that was handed in: it is 0, or it passes the horizon.
    BadSize(u32),
}

// An error as a person reads it: the fault's own words, or "no batch has 0 jobs".
impl fmt::Display for BatchError {
    ghost output = { λ e. Some (shown_error e) };

    fn fmt<W: fmt::Write>(&self, f: &mut fmt::Formatter<W>) -> fmt::Result {
        match self {
            BatchError::Refused(fault) => write!(f, "{fault}"),
            BatchError::BadSize(size) => write!(f, "no batch has {size} jobs"),
        }
    }
}

impl Error for BatchError {}

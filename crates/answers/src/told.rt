// Answers as they are printed.
use rows::Fault;
use std::fmt;

/// Writes a refusal with its place: "refused 8 at 1".
pub(crate) fn write_refused<W: fmt::Write>(
    f: &mut fmt::Formatter<W>,
    fault: &Fault,
) -> fmt::Result {
    let number = fault.refusal.number();
    let at = fault.at;
    write!(f, "refused {number} at {at}")
}

/// What a call answers: a value, or the refusal with its place.
#[derive(Drop)]
pub(crate) struct ToldAnswer<T>(pub(crate) Result<T, Fault>);

// The value, or the refusal.
impl<T: fmt::Display> fmt::Display for ToldAnswer<T> {
    fn fmt<W: fmt::Write>(&self, f: &mut fmt::Formatter<W>) -> fmt::Result {
        match &self.0 {
            Ok(value) => write!(f, "{value}"),
            Err(fault) => write_refused(f, fault),
        }
    }
}

/// A value that may not be there.
#[derive(Drop)]
pub(crate) struct OrNone<T>(pub(crate) Option<T>);

// The value, or "-".
impl<T: fmt::Display> fmt::Display for OrNone<T> {
    fn fmt<W: fmt::Write>(&self, f: &mut fmt::Formatter<W>) -> fmt::Result {
        match &self.0 {
            Some(value) => write!(f, "{value}"),
            None => write!(f, "-"),
        }
    }
}

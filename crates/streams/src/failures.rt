// What kept bytes from being moved to the end.
ghost use Rattle.std.specs.Prelude.{◌≡◌};

use std::error::Error;
use std::{fmt, io};

/// Why bytes were not moved to the end: some could not be read, or some not be written.
#[derive(Debug, Drop)]
pub enum Failure {
    Reading(io::Error),
    Writing(io::Error),
}

/// A failure as people are told it, by the names of what was read and of what was written.
#[derive(Debug, Drop)]
pub struct NamedFailure {
    pub failure: Failure,
    pub read: &'static str,
    pub written: &'static str,
}

impl Failure {
    /// The failure with the names of what was read and of what was written, as "the sheet" and "the
    /// answer".
    pub fn named(self, read: &'static str, written: &'static str) -> NamedFailure
        ensures failure { result.failure ≡ self }
        ensures read { result.read.now ≡ read.now }
        ensures written { result.written.now ≡ written.now }
    {
        NamedFailure {
            failure: self,
            read,
            written,
        }
    }
}

impl fmt::Display for Failure {
    fn fmt<W: fmt::Write>(&self, f: &mut fmt::Formatter<W>) -> fmt::Result {
        match self {
            Failure::Reading(error) => write!(f, "could not be read: {error}"),
            Failure::Writing(error) => write!(f, "could not be written: {error}"),
        }
    }
}

impl fmt::Display for NamedFailure {
    fn fmt<W: fmt::Write>(&self, f: &mut fmt::Formatter<W>) -> fmt::Result {
        let name = match &self.failure {
            Failure::Reading(_) => self.read,
            Failure::Writing(_) => self.written,
        };
        write!(f, "{name} {}", self.failure)
    }
}

impl Error for Failure {}

impl Error for NamedFailure {}

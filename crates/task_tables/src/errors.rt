// Why a text was not read as a table.
ghost use Rattle.std.specs.Prelude.{◌≡◌, false};
ghost use Rattle.task_tables.specs.Refusals.{is_misread};
ghost use Rattle.task_tables.specs.declared.errors.ReadError.TheVariants as variant;

use crate::misreads::Misread;
use std::alloc::{AllocError, AllocFailed};
use std::error::Error;
use std::{fmt, io};

/// Why a text was not read as a table: it could not be read at all, memory ran out, or something in
/// it cannot be taken.
#[derive(Debug, Drop)]
pub enum ReadError {
    Input(io::Error),
    Memory(AllocError),
    Misread(Misread),
}

impl fmt::Display for ReadError {
    fn fmt<W: fmt::Write>(&self, f: &mut fmt::Formatter<W>) -> fmt::Result {
        match self {
            ReadError::Input(error) => write!(f, "{error}"),
            ReadError::Memory(error) => write!(f, "{error}"),
            ReadError::Misread(misread) => write!(f, "{misread}"),
        }
    }
}

impl Error for ReadError {}

impl From<io::Error> for ReadError {
    ghost from_gives = { λ _ e. is_misread e ≡ false };

    fn from(error: io::Error) -> ReadError {
        if error.kind() == io::ErrorKind::OutOfMemory {
            ReadError::Memory(AllocError)
        } else {
            ReadError::Input(error)
        }
    }
}

impl From<AllocError> for ReadError {
    ghost from_gives = { λ _ e. is_misread e ≡ false };

    fn from(error: AllocError) -> ReadError {
        ReadError::Memory(error)
    }
}

impl<T: Drop> From<AllocFailed<T>> for ReadError {
    ghost from_gives = { λ _ e. is_misread e ≡ false };

    fn from(_error: AllocFailed<T>) -> ReadError {
        ReadError::Memory(AllocError)
    }
}

impl From<Misread> for ReadError {
    ghost from_gives = { λ m e. e ≡ variant.Misread m };

    fn from(misread: Misread) -> ReadError {
        ReadError::Misread(misread)
    }
}

// A reader of records that may differ in length fails by its input or by memory alone.
impl From<csv::Error> for ReadError {
    ghost from_gives = { λ _ e. is_misread e ≡ false };

    fn from(error: csv::Error) -> ReadError {
        match error.into_kind() {
            csv::ErrorKind::Io(error) => ReadError::from(error),
            csv::ErrorKind::OutOfMemory => ReadError::Memory(AllocError),
            _ => ReadError::Input(io::Error::from(io::ErrorKind::InvalidData)),
        }
    }
}

// Why a view was not given.
ghost use Rattle.std.specs.Prelude.{◌≡◌};
ghost use Rattle.views.specs.declared.troubles.Trouble.TheVariants.{Memory};

use crate::damage::Damage;
use crate::differences::Difference;
use bounds::{FINEST, Family};
use rows::HORIZON;
use std::alloc::AllocError;
use std::error::Error;
use std::{fmt, io};
use task_tables::{Misread, ReadError};

/// Why a view was not given, or not all of it (docs/PROGRAMS.md, Task tables, has the words).
#[derive(Drop)]
pub enum Trouble {
    /// The text of a table could not be read or taken.
    Table(ReadError),
    /// A number of the table is refused, told where it stands.
    Row(Misread),
    /// The frame that was named is none: 1.
    Frame,
    /// No frame was named, and the periods have no common multiple up to the horizon: 1.
    NoFrame,
    /// The accuracy is none of a bound of the kind: 3.
    Accuracy(Family),
    /// There is no row of the rank to be drawn among so many: 10.
    Rank(usize),
    /// Bytes are no leaf.
    Damaged(Damage),
    /// Two leaves are not of one table.
    Different(Difference),
    /// What was to be read could not be.
    Input(io::Error),
    /// What was to be written could not be.
    Output(io::Error),
    /// There was no memory.
    Memory(AllocError),
}

impl fmt::Display for Trouble {
    fn fmt<W: fmt::Write>(&self, f: &mut fmt::Formatter<W>) -> fmt::Result {
        match self {
            Trouble::Table(error) => write!(f, "{error}"),
            Trouble::Row(misread) => write!(f, "{misread}"),
            Trouble::Frame => write!(
                f,
                "refused 1 bad frame: expected --frame from 1 to {HORIZON}"
            ),
            Trouble::NoFrame => write!(
                f,
                "refused 1 bad frame: the periods have no common multiple up to {HORIZON}"
            ),
            Trouble::Accuracy(family) => write_accuracy(f, *family),
            Trouble::Rank(0) => f.write_str("refused 10 no rank: the table has no row"),
            Trouble::Rank(rows) => {
                write!(f, "refused 10 no rank: expected --rank from 1 to {rows}")
            }
            Trouble::Damaged(damage) => write!(f, "{damage}"),
            Trouble::Different(difference) => write!(f, "{difference}"),
            Trouble::Input(error) => write!(f, "it could not be read: {error}"),
            Trouble::Output(error) => write!(f, "output failed: {error}"),
            Trouble::Memory(error) => write!(f, "{error}"),
        }
    }
}

// Tells that an accuracy is none, by the word by which a command line names bounds of the kind.
fn write_accuracy<W: fmt::Write>(f: &mut fmt::Formatter<W>, family: Family) -> fmt::Result {
    let word = family.word();
    if family.has_accuracies() {
        write!(
            f,
            "refused 3 bad accuracy: expected --{word} from 1 to {FINEST}"
        )
    } else {
        f.write_str("refused 3 bad accuracy: expected none")
    }
}

impl fmt::Debug for Trouble {
    fn fmt<W: fmt::Write>(&self, f: &mut fmt::Formatter<W>) -> fmt::Result {
        fmt::Display::fmt(self, f)
    }
}

impl Error for Trouble {}

impl From<AllocError> for Trouble {
    ghost from_gives = { λ e t. t ≡ Memory e };

    fn from(error: AllocError) -> Trouble {
        Trouble::Memory(error)
    }
}

// A leaf that is closed, and one that could not be.
ghost use Rattle.std.specs.Prelude.{◌≡◌, Some};
ghost use Rattle.rows.specs.Shown.{shown_fault};

use crate::taking_findings::FindingsLeaf;
use leaves::Heading;
use reading::Phase;
use rows::Fault;
use std::error::Error;
use std::fmt;
use std::marker::Model;

/// A leaf that is closed: nothing more can be filed.
#[must_use]
#[derive(Debug, Drop)]
pub struct ClosedLeaf {
    heading: Heading,
    rows: u8,
}

impl Model for ClosedLeaf {
    ghost use Rattle.std.specs.Prelude.{◌≤◌};
    ghost use Rattle.rows.specs.Times.{most_rows};
    ghost use Rattle.reading.specs.declared.phases.Phase.{Phase};

    ghost Value = { Phase };

    ghost view = { λ leaf. Phase.Closed leaf.heading leaf.rows };

    ghost invariant = { λ leaf. leaf.rows ≤ most_rows };
}

impl ClosedLeaf {
    ghost use Rattle.std.specs.Prelude.{◌≡◌, ◌≤◌};
    ghost use Rattle.rows.specs.Times.{most_rows};
    ghost use Rattle.reading.specs.declared.phases.Phase.{Phase};
    ghost use Rattle.writing.specs.States.{IsFinished};

    // A leaf of so many rows, after its end.
    pub(crate) fn of(heading: Heading, rows: u8) -> ClosedLeaf
        requires { rows ≤ most_rows }
        ensures { result ≡ Phase.Closed heading rows }
    {
        ClosedLeaf { heading, rows }
    }

    /// The phase in which a reader of the leaf ends. Its place is the length of the leaf in bytes.
    pub fn phase(&self) -> Phase
        ensures answered { result ≡ self.now }
        ensures finished { IsFinished self.now }
    {
        Phase::Closed {
            heading: self.heading,
            rows: self.rows,
        }
    }
}

/// A leaf that could not be closed, as it was, and why. `?` passes the fault on.
#[derive(Debug, Drop)]
pub struct Unclosed {
    pub leaf: FindingsLeaf,
    pub fault: Fault,
}

// A leaf that was not closed is written for people as its fault is.
impl fmt::Display for Unclosed {
    ghost output = { λ u. Some (shown_fault u.fault) };

    fn fmt<W: fmt::Write>(&self, f: &mut fmt::Formatter<W>) -> fmt::Result {
        let fault = self.fault;
        write!(f, "{fault}")
    }
}

impl Error for Unclosed {}

impl From<Unclosed> for Fault {
    ghost from_gives = { λ unclosed fault. fault ≡ unclosed.fault };

    fn from(unclosed: Unclosed) -> Fault {
        unclosed.fault
    }
}

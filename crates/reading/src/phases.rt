// How far a leaf has been read.
ghost use Rattle.std.specs.Prelude.{◌≡◌};
ghost use Rattle.leaves.specs.Entries.{finding_place};
ghost use Rattle.reading.specs.Phases.{place_of};

use leaves::{END_SIZE, FINDING_SIZE, HEADING_SIZE, Heading, ROW_SIZE};

/// The phase of a reader: before the heading; in the rows, with the heading and the number of rows
/// so far; in the findings, with the number of those too; or closed, after the end of a leaf of so
/// many rows and as many findings.
#[derive(Clone, Copy, PartialEq, Eq, Debug)]
pub enum Phase {
    Opening,
    Rows {
        heading: Heading,
        rows: u8,
    },
    Findings {
        heading: Heading,
        rows: u8,
        findings: u8,
    },
    Closed {
        heading: Heading,
        rows: u8,
    },
}

impl Phase {
    /// Where the next entry begins: the offset of its kind byte in the bytes of the leaf.
    pub fn place(&self) -> u32
        ensures { result ≡ place_of self.now }
    {
        match self {
            Phase::Opening => 0,
            Phase::Rows { rows, .. } => place_after(*rows, 0),
            Phase::Findings { rows, findings, .. } => place_after(*rows, *findings),
            Phase::Closed { rows, .. } => place_after(*rows, *rows) + 1 + END_SIZE as u32,
        }
    }
}

// Where an entry begins after the heading, so many rows and so many findings.
pub(crate) fn place_after(rows: u8, findings: u8) -> u32
    ensures { result ≡ finding_place rows findings }
{
    let rows = usize::from(rows) * (1 + ROW_SIZE);
    let findings = usize::from(findings) * (1 + FINDING_SIZE);
    (1 + HEADING_SIZE + rows + findings) as u32
}

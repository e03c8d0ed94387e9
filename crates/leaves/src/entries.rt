// What the entries of a leaf hold. A leaf is what the archive keeps about one survey.
ghost use Rattle.rows.specs.Frames.{IsFrame};

use bounds::Supplied;
use rows::{Finding, FrameNumbers, Row};

/// How many bytes the body of a heading has: an entry is one byte more, its letter.
pub const HEADING_SIZE: usize = 6;

/// How many bytes the body of a row has.
pub const ROW_SIZE: usize = 16;

/// How many bytes the body of a finding has.
pub const FINDING_SIZE: usize = 8;

/// How many bytes the body of the end has.
pub const END_SIZE: usize = 4;

/// The plain numbers of a heading, which nobody has judged: the frame, the bound by the number of its
/// kind, and its accuracy (docs/FORMAT.md, Entries).
#[derive(Clone, Copy, PartialEq, Eq, Debug)]
pub struct HeadingNumbers {
    pub frame: FrameNumbers,
    pub bound: u8,
    pub accuracy: u8,
}

/// The heading of a leaf, judged: the numbers of its frame, which are one, and the bound by which its
/// rows were counted.
#[derive(Clone, Copy, PartialEq, Eq, Debug)]
pub struct Heading {
    pub frame: FrameNumbers,
    pub bound: Supplied,
    pub ghost framed: { IsFrame frame },
}

/// An entry of a leaf (docs/FORMAT.md, Entries): the heading, a row, the finding about a row, or the
/// end with the number of entries before it.
#[derive(Clone, Copy, PartialEq, Eq, Debug)]
pub enum Entry {
    Heading(Heading),
    Row(Row),
    Finding(Finding),
    End(u32),
}

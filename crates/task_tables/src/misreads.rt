// What of a text cannot be taken, and where it stands.

use crate::columns::Column;
use rows::Refusal;
use std::error::Error;
use std::fmt;

// Where a field stands: its line, and which field of its record it is, both counted from 1.
#[derive(Clone, Copy)]
pub(crate) struct Place {
    pub(crate) line: u64,
    pub(crate) field: usize,
}

/// What was expected where something else stands.
#[derive(Clone, Copy)]
pub enum Expected {
    /// A heading line: the text has none.
    HeadingLine,
    /// The heading of a column.
    Heading,
    /// A heading that has not been there yet.
    OtherHeading,
    /// The three headings that must be there.
    Headings,
    /// As many fields as the heading has.
    Fields(usize),
    /// No task more than a table may have.
    Tasks(usize),
    /// A number of 32 bits.
    Number,
    /// Bytes that are text.
    Text,
    /// A work that is not 0.
    Work,
    /// A work that fits between the jitter and the deadline.
    Window { deadline: u32, jitter: u32 },
    /// A deadline that is no later than the period.
    Deadline { period: u32 },
    /// A period that is no longer than the horizon.
    Period { horizon: u32 },
    /// A period that divides the frame.
    Divisor,
}

/// What stands at a line or at a field of it, where something else was expected.
#[derive(Drop)]
pub struct Spot {
    /// The line, counted from 1.
    pub line: u64,
    /// Which field of its record it is, counted from 1, where a field is concerned.
    pub field: Option<usize>,
    /// The column of the field, where it has one.
    pub column: Option<Column>,
    /// What stands there, in words.
    pub stood: String,
    pub expected: Expected,
}

/// A refusal, and the rank that it tells, where it tells one.
#[derive(Clone, Copy)]
pub struct Refused {
    pub refusal: Refusal,
    pub rank: Option<u32>,
}

/// What cannot be taken: where it stands, what stands there and what was expected, and the refusal
/// whose condition holds of it, where there is one (docs/PROGRAMS.md, Task tables). A refusal that
/// concerns no line has no spot.
#[derive(Drop)]
pub struct Misread {
    pub spot: Option<Spot>,
    pub refused: Option<Refused>,
}

// Where a program prints it for those who mend it, it stands in the same words.
impl fmt::Debug for Misread {
    fn fmt<W: fmt::Write>(&self, f: &mut fmt::Formatter<W>) -> fmt::Result {
        write!(f, "{self}")
    }
}

impl Error for Misread {}

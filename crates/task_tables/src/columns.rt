// The columns of a table, which its heading names.
ghost use Rattle.std.specs.Prelude.{◌≡◌, ◌<◌, IfSome, length, position};
ghost use Rattle.std.specs.Str.{bytes_eq};
ghost use Rattle.task_tables.specs.declared.columns.Column.{Column};
ghost use Rattle.task_tables.specs.Columns.{column_named, has_column, is_column, is_named};

use std::fmt;

/// A column of a table, by the heading that names it.
#[derive(Clone, Copy, Debug)]
pub enum Column {
    /// What the task is called, which may be missing.
    Name,
    /// The worst-case execution time, in ticks.
    Work,
    /// The relative deadline, in ticks.
    Deadline,
    /// The least gap between two releases, in ticks.
    Period,
    /// The longest release jitter, in ticks, which may be missing.
    Jitter,
}

impl Column {
    // The heading by which the column is told.
    fn heading(self) -> &'static str {
        match self {
            Column::Name => "name",
            Column::Work => "work",
            Column::Deadline => "deadline",
            Column::Period => "period",
            Column::Jitter => "jitter",
        }
    }

    // Whether it is that column.
    pub(crate) fn is(self, column: Column) -> bool
        ensures { result ≡ is_column column self }
    {
        self as u8 == column as u8
    }

    // Whether a heading names the column.
    fn is_named(self, heading: &[u8]) -> bool
        ensures { result ≡ is_named self heading.now }
    {
        match self {
            Column::Name => is(heading, "name"),
            Column::Work => is(heading, "work") || is(heading, "wcet") || is(heading, "C"),
            Column::Deadline => is(heading, "deadline") || is(heading, "D"),
            Column::Period => is(heading, "period") || is(heading, "T"),
            Column::Jitter => is(heading, "jitter") || is(heading, "J"),
        }
    }

    // The column that a heading names, if it names one.
    pub(crate) fn named(heading: &[u8]) -> Option<Column>
        ensures { result ≡ column_named heading.now }
    {
        if Column::Name.is_named(heading) {
            Some(Column::Name)
        } else if Column::Work.is_named(heading) {
            Some(Column::Work)
        } else if Column::Deadline.is_named(heading) {
            Some(Column::Deadline)
        } else if Column::Period.is_named(heading) {
            Some(Column::Period)
        } else if Column::Jitter.is_named(heading) {
            Some(Column::Jitter)
        } else {
            None
        }
    }
}

// Whether a heading is a word.
fn is(heading: &[u8], word: &str) -> bool
    ensures { result ≡ bytes_eq heading.now word.now }
{
    heading == word.as_bytes()
}

// Whether a column is among some.
pub(crate) fn has(columns: &[Column], column: Column) -> bool
    ensures { result ≡ has_column columns.now column }
{
    columns.iter().any(|other| other.is(column))
}

// Which of some columns is this one, counted from 0: the first.
pub(crate) fn place_of(columns: &[Column], column: Column) -> Option<usize>
    ensures place { result ≡ position (is_column column) columns.now }
    ensures within { IfSome result (λ k. k < length columns.now) }
{
    columns.iter().position(|other| other.is(column))
}

// A column by its heading: "deadline".
impl fmt::Display for Column {
    fn fmt<W: fmt::Write>(&self, f: &mut fmt::Formatter<W>) -> fmt::Result {
        let heading = self.heading();
        write!(f, "{heading}")
    }
}

// The words for what cannot be taken.

use crate::misreads::{Expected, Misread, Refused, Spot};
use std::fmt;

impl Expected {
    // The words for what was expected, and the number behind them, where there is one.
    fn words(self) -> (&'static str, Option<u64>) {
        match self {
            Expected::HeadingLine => ("a heading with work, deadline and period", None),
            Expected::Heading => (
                "name, work (wcet, C), deadline (D), period (T) or jitter (J)",
                None,
            ),
            Expected::OtherHeading => ("each heading once", None),
            Expected::Headings => ("work, deadline and period", None),
            Expected::Fields(count) => ("", Some(count as u64)),
            Expected::Tasks(most) => ("at most ", Some(most as u64)),
            Expected::Number => ("a number from 0 to 4294967295", None),
            Expected::Text => ("UTF-8", None),
            Expected::Work => ("at least 1", None),
            Expected::Window { deadline, .. } => ("the deadline ", Some(u64::from(deadline))),
            Expected::Deadline { period } => ("at most the period ", Some(u64::from(period))),
            Expected::Period { horizon } => ("at most ", Some(u64::from(horizon))),
            Expected::Divisor => ("a divisor of the frame", None),
        }
    }
}

// What was expected, as docs/PROGRAMS.md writes it: "a number from 0 to 4294967295".
impl fmt::Display for Expected {
    fn fmt<W: fmt::Write>(&self, f: &mut fmt::Formatter<W>) -> fmt::Result {
        if let Expected::Window { deadline, jitter } = self {
            return write_window(f, *deadline, *jitter);
        }
        match self.words() {
            (words, Some(number)) => write!(f, "{words}{number}"),
            (words, None) => f.write_str(words),
        }
    }
}

// The work that fits between a jitter and a deadline.
fn write_window<W: fmt::Write>(
    f: &mut fmt::Formatter<W>,
    deadline: u32,
    jitter: u32,
) -> fmt::Result {
    match deadline.checked_sub(jitter) {
        Some(0) => write!(
            f,
            "a work of at least 1 that fits: the jitter {jitter} leaves none of the deadline {deadline}"
        ),
        Some(most) => write!(
            f,
            "at most {most}, the deadline {deadline} less the jitter {jitter}"
        ),
        None => write!(
            f,
            "a work of at least 1 that fits: the deadline {deadline} is below the jitter {jitter}"
        ),
    }
}

impl Expected {
    // How what stands in its place is said to stand there.
    fn stands(self) -> &'static str {
        match self {
            Expected::Fields(_) | Expected::Text => "stand there",
            Expected::OtherHeading => "stands there again",
            _ => "stands there",
        }
    }
}

// What stands somewhere: "line 4, field 3 (deadline): "x7" stands there, expected .."
impl fmt::Display for Spot {
    fn fmt<W: fmt::Write>(&self, f: &mut fmt::Formatter<W>) -> fmt::Result {
        let line = self.line;
        write!(f, "line {line}")?;
        if let Some(field) = self.field {
            write!(f, ", field {field}")?;
        }
        if let Some(column) = self.column {
            write!(f, " ({column})")?;
        }
        let stood = self.stood.as_str();
        let stands = self.expected.stands();
        let expected = self.expected;
        write!(f, ": {stood} {stands}, expected {expected}")
    }
}

// A refusal: "refused 4 idle row at rank 1".
impl fmt::Display for Refused {
    fn fmt<W: fmt::Write>(&self, f: &mut fmt::Formatter<W>) -> fmt::Result {
        let number = self.refusal.number();
        let words = self.refusal.words();
        write!(f, "refused {number} {words}")?;
        match self.rank {
            Some(rank) => write!(f, " at rank {rank}"),
            None => Ok(()),
        }
    }
}

impl fmt::Display for Misread {
    fn fmt<W: fmt::Write>(&self, f: &mut fmt::Formatter<W>) -> fmt::Result {
        match (&self.spot, &self.refused) {
            (Some(spot), Some(refused)) => write!(f, "{spot}: {refused}"),
            (Some(spot), None) => write!(f, "{spot}"),
            (None, Some(refused)) => write!(f, "{refused}"),
            (None, None) => Ok(()),
        }
    }
}

// What is answered about numbers that bytes end in.
use crate::puts::BytesOrNone;
use crate::told::ToldAnswer;
use leaves::last_number;
use reading::read;
use rows::Fault;
use std::io::Write;
use std::{fmt, iter};

/// Prints the number that some bytes end in, and the bytes before it.
pub(crate) fn answer_last<W: Write + Drop>(bytes: &[u8], writer: &mut W) -> anyhow::Result<()> {
    let last = ToldAnswer(last_number(bytes).map(Last));
    writeln!(writer, "{last}")?;
    Ok(())
}

/// Prints, about bytes as a leaf, a line for each finding past the last rank, at each rank, and at 0:
/// its fields from the last back; or the refusal.
pub(crate) fn answer_backwards<W: Write + Drop>(
    bytes: &[u8],
    writer: &mut W,
) -> anyhow::Result<()> {
    let leaf = match read(bytes) {
        Ok(leaf) => leaf,
        Err(fault) => {
            let refused = ToldAnswer::<Fields<'_>>(Err(fault));
            writeln!(writer, "{refused}")?;
            return Ok(());
        }
    };
    let last = leaf.len();
    let past = last.saturating_add(1);
    for rank in iter::once(past).chain(1..=last).chain(iter::once(0)) {
        if let Some(body) = leaf.finding_body(rank) {
            let fields = ToldAnswer(fields_of(body));
            writeln!(writer, "{fields}")?;
        }
    }
    Ok(())
}

// The two numbers that a body is read to hold from its end.
fn fields_of(body: &[u8]) -> Result<Fields<'_>, Fault> {
    let (points, before) = last_number(body)?;
    let rest = last_number(before)?;
    Ok(Fields {
        points,
        rest: Last(rest),
    })
}

// A number that bytes end in, and the bytes before it.
#[derive(Drop)]
struct Last<'a>((u32, &'a [u8]));

// The number, and the bytes in hexadecimal.
impl fmt::Display for Last<'_> {
    fn fmt<W: fmt::Write>(&self, f: &mut fmt::Formatter<W>) -> fmt::Result {
        let (number, before) = self.0;
        let before = BytesOrNone(before);
        write!(f, "{number} {before}")
    }
}

// The fields of a finding from the last back: its points, its first rest, and the bytes before them.
#[derive(Drop)]
struct Fields<'a> {
    points: u32,
    rest: Last<'a>,
}

// The two numbers, and the bytes in hexadecimal.
impl fmt::Display for Fields<'_> {
    fn fmt<W: fmt::Write>(&self, f: &mut fmt::Formatter<W>) -> fmt::Result {
        let points = self.points;
        let rest = &self.rest;
        write!(f, "{points} {rest}")
    }
}

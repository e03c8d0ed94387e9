// Texts with values in them.
use std::io::Write;
use std::{fmt, io};

// A value that stands in a text: words, a whole number, one that may be negative, a place in tenths
// with one decimal, a first rest, which a row that misses has not, or what tells the looks of a bound by
// its place from those of the first: the end of the names of its classes, and dots behind its dash.
#[derive(Clone, Copy)]
pub(crate) enum Value<'a> {
    Words(&'a str),
    Whole(u64),
    Signed(i64),
    Tenths(i64),
    Rest(Option<u32>),
    Class(u32),
    Dots(u32),
}

impl fmt::Display for Value<'_> {
    fn fmt<W: fmt::Write>(&self, f: &mut fmt::Formatter<W>) -> fmt::Result {
        match self {
            Value::Words(words) => write!(f, "{words}"),
            Value::Whole(number) => write!(f, "{number}"),
            Value::Signed(number) => write!(f, "{number}"),
            Value::Tenths(tenths) => write_tenths(f, *tenths),
            Value::Rest(Some(rest)) => write!(f, "rest {rest}"),
            Value::Rest(None) => write!(f, "misses"),
            Value::Class(place) => write_class(f, *place),
            Value::Dots(place) => write_dots(f, *place),
        }
    }
}

// A number of tenths with one decimal.
fn write_tenths<W: fmt::Write>(f: &mut fmt::Formatter<W>, tenths: i64) -> fmt::Result {
    let sign = if tenths < 0 { "-" } else { "" };
    let size = tenths.unsigned_abs();
    let whole = size / 10;
    let tenth = size % 10;
    write!(f, "{sign}{whole}.{tenth}")
}

// The end of the names of the classes of a bound: none for the first, and then a number from 2 on.
fn write_class<W: fmt::Write>(f: &mut fmt::Formatter<W>, place: u32) -> fmt::Result {
    if place == 0 {
        return Ok(());
    }
    let number = u64::from(place) + 1;
    write!(f, "-{number}")
}

// As many dots behind a dash as bounds stand before one.
fn write_dots<W: fmt::Write>(f: &mut fmt::Formatter<W>, place: u32) -> fmt::Result {
    for _ in 0..place {
        write!(f, " 1.6 4")?;
    }
    Ok(())
}

// Writes a text in which each % stands for the next of some values.
pub(crate) fn fill<W: Write>(writer: &mut W, form: &str, values: &[Value<'_>]) -> io::Result<()> {
    for (place, words) in form.split('%').enumerate() {
        writer.write_all(words.as_bytes())?;
        if let Some(value) = values.get(place) {
            write!(writer, "{value}")?;
        }
    }
    Ok(())
}

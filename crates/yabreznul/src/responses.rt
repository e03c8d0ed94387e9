// The response times of a table.
use crate::complaints::{Failed, or_complain};
use crate::inputs::{Source, open_or_complain};
use crate::outputs::print;
use crate::requests::source;
use clap::ArgMatches;

/// Prints the response times of a table.
pub(crate) fn respond(rt: &HostRuntime, given: &ArgMatches<'_>) -> Result<(), Failed> {
    let text = written(rt, source(given, "table"))?;
    print(rt, &text)
}

// The response times of a table, as text.
fn written(rt: &HostRuntime, table: Source<'_>) -> Result<Vec<u8>, Failed> {
    let mut reader = open_or_complain(rt, table)?;
    let mut text = Vec::new(rt.alloc());
    let written = views::respond(rt.alloc(), &mut reader, &mut text);
    or_complain(rt, table.name(), written)?;
    Ok(text)
}

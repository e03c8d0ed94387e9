// The sheet of a table.
use crate::complaints::{Failed, or_complain};
use crate::inputs::{Source, open_or_complain};
use crate::outputs::print;
use crate::requests::{bound_or_exact, frame, source};
use clap::ArgMatches;

/// Writes the sheet of a table to standard output.
pub(crate) fn sheet(rt: &HostRuntime, given: &ArgMatches<'_>) -> Result<(), Failed> {
    let sheet = written(rt, given, source(given, "table"))?;
    print(rt, &sheet)
}

// The sheet of a table.
fn written(rt: &HostRuntime, given: &ArgMatches<'_>, table: Source<'_>) -> Result<Vec<u8>, Failed> {
    let (frame, bound) = (frame(given), bound_or_exact(given));
    let mut reader = open_or_complain(rt, table)?;
    let mut bytes = Vec::new(rt.alloc());
    let written = views::sheet(rt.alloc(), &mut reader, frame, bound, &mut bytes);
    or_complain(rt, table.name(), written)?;
    Ok(bytes)
}

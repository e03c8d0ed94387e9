// A row drawn.
use crate::complaints::{Failed, misused, or_complain};
use crate::files::{Draft, write_files};
use crate::inputs::{Source, open_or_complain};
use crate::outputs::print;
use crate::progress::Teller;
use crate::requests::{bounds, frame, source};
use clap::ArgMatches;
use std::alloc::Global;
use views::{Counting, Trouble};

/// Draws the demand of one row, to a file or to standard output.
pub(crate) fn plot(rt: &HostRuntime, given: &ArgMatches<'_>) -> Result<(), Failed> {
    let Some(rank) = given.get_one("rank") else {
        return Err(misused(rt));
    };
    let bounds = bounds(rt, given)?;
    let how = Counting {
        frame: frame(given),
        bounds: &bounds,
    };
    let table = source(given, "table");
    let picture = draw(rt, table, rank, how)?;
    match source(given, "output") {
        Source::Standard => print(rt, &picture),
        Source::File(name) => {
            let draft = draft(rt.alloc(), name, picture);
            let draft = or_complain(rt, table.name(), draft)?;
            write_files(rt, &[draft], given.get_flag("force"))
        }
    }
}

// The picture of a row.
fn draw(
    rt: &HostRuntime,
    table: Source<'_>,
    rank: u32,
    how: Counting<'_>,
) -> Result<Vec<u8>, Failed> {
    let mut reader = open_or_complain(rt, table)?;
    let mut told = Teller::begin(rt);
    let mut picture = Vec::new(rt.alloc());
    let drawn = views::plot(rt.alloc(), &mut reader, rank, how, &mut told, &mut picture);
    told.clear();
    or_complain(rt, table.name(), drawn)?;
    Ok(picture)
}

// A picture, to be written to a file.
fn draft(alloc: Global, name: &str, picture: Vec<u8>) -> Result<Draft, Trouble> {
    Draft::new(alloc, name.to_string(alloc)?, picture)
}

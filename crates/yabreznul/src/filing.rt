// A table counted and filed.
use crate::complaints::{Failed, misused, or_complain};
use crate::files::{Draft, write_files};
use crate::inputs::{Source, open_or_complain};
use crate::outputs::print;
use crate::progress::Teller;
use crate::requests::{bounds, frame, source};
use bounds::Short;
use clap::ArgMatches;
use filings::Filing;
use std::alloc::{AllocError, Global};
use std::io;
use std::io::Write;
use views::{Counted, Counting, Printable, Trouble, count_table, leaf_of};

/// Counts a table in exact steps and by bounds, files the leaf of each count, and prints the table.
pub(crate) fn file(rt: &HostRuntime, given: &ArgMatches<'_>) -> Result<(), Failed> {
    let Some(out) = given.get_str("out") else {
        return Err(misused(rt));
    };
    let bounds = bounds(rt, given)?;
    let how = Counting {
        frame: frame(given),
        bounds: &bounds,
    };
    let table = source(given, "table");
    let counted = count(rt, table, how)?;
    let drafts = drafts(rt.alloc(), &counted, out);
    let drafts = or_complain(rt, table.name(), drafts)?;
    file_leaves(rt, &counted, &drafts, given.get_flag("force"))
}

// Files the leaves, and prints the table.
fn file_leaves(
    rt: &HostRuntime,
    counted: &Counted,
    drafts: &[Draft],
    force: bool,
) -> Result<(), Failed> {
    write_files(rt, drafts, force)?;
    print_filed(rt, counted, drafts)
}

// Reads a table and counts it.
fn count(rt: &HostRuntime, table: Source<'_>, how: Counting<'_>) -> Result<Counted, Failed> {
    let mut reader = open_or_complain(rt, table)?;
    let mut told = Teller::begin(rt);
    let counted = count_table(rt.alloc(), &mut reader, how, &mut told);
    told.clear();
    or_complain(rt, table.name(), counted)
}

// The leaves of a table that was counted, to be filed: in exact steps, and by each bound in order.
fn drafts(alloc: Global, counted: &Counted, out: &str) -> Result<Vec<Draft>, Trouble> {
    let mut drafts = Vec::new(alloc);
    put(&mut drafts, draft(alloc, out, counted.exact())?)?;
    for filing in counted.bounded() {
        put(&mut drafts, draft(alloc, out, filing)?)?;
    }
    Ok(drafts)
}

// Puts a leaf that is to be filed behind others.
fn put(drafts: &mut Vec<Draft>, draft: Draft) -> Result<(), AllocError> {
    drafts.push(draft)?;
    Ok(())
}

// The leaf of a count, to be filed under a name that ends in the short one of its bound.
fn draft(alloc: Global, out: &str, filing: &Filing) -> Result<Draft, Trouble> {
    let bound = Short(filing.bound());
    let name = format!(in alloc; "{out}.{bound}.leaf")?;
    Draft::new(alloc, name, leaf_of(alloc, filing)?)
}

// Prints the table and what was filed of it.
fn print_filed(rt: &HostRuntime, counted: &Counted, drafts: &[Draft]) -> Result<(), Failed> {
    let mut text = Vec::new(rt.alloc());
    or_complain(
        rt,
        "standard output",
        counted.write_table(rt.alloc(), &mut text),
    )?;
    for draft in drafts {
        or_complain(rt, "standard output", write_filed(&mut text, draft))?;
    }
    print(rt, &text)
}

// Writes that a leaf is filed.
fn write_filed(text: &mut Vec<u8>, draft: &Draft) -> io::Result<()> {
    let name = Printable(draft.name());
    let length = draft.length();
    writeln!(text, "filed {name}, {length} bytes")
}

// What is told of a command line.
use crate::lines::Line;
use crate::pictures::told;
use anyhow::Context;
use bounds::Family;
use filings::{Filing, Quiet};
use rows::FrameNumbers;
use std::alloc::Global;
use std::fs;
use std::io::Write;
use views::{Counting, Layout, Show, Trouble, count_table, leaf_of};

/// What a command line gives, as text; what is refused is told in one line.
pub(crate) fn answer(rt: &HostRuntime, line: &Line<'_>) -> anyhow::Result<Vec<u8>> {
    let alloc = rt.alloc();
    match line {
        Line::File { table, options } => {
            or_trouble(alloc, file(alloc, &read(rt, table)?, options.counting()))
        }
        Line::Show { layout, leaves } => show(rt, *layout, leaves),
        Line::Compare { first, second } => {
            let (one, other) = (read(rt, first)?, read(rt, second)?);
            or_trouble(alloc, compare(alloc, (first, &one), (second, &other)))
        }
        Line::Plot {
            table,
            rank,
            options,
        } => plot(alloc, &read(rt, table)?, *rank, options.counting()),
        Line::Sheet {
            table,
            bound,
            options,
        } => or_trouble(
            alloc,
            sheet(alloc, &read(rt, table)?, options.frame, *bound),
        ),
        Line::Respond { table } => or_trouble(alloc, respond(alloc, &read(rt, table)?)),
        Line::Bench { script } => bench(alloc, &read(rt, script)?),
    }
}

// The bytes of a file.
fn read(rt: &HostRuntime, name: &str) -> anyhow::Result<Vec<u8>> {
    fs::read(rt, name).context(format_args!("reading {name}"))
}

// A view, or the line that tells the trouble.
fn or_trouble(alloc: Global, view: Result<Vec<u8>, Trouble>) -> anyhow::Result<Vec<u8>> {
    match view {
        Ok(text) => Ok(text),
        Err(trouble) => {
            let mut text = Vec::new(alloc);
            writeln!(text, "trouble: {trouble}")?;
            Ok(text)
        }
    }
}

// Puts a line with bytes in hexadecimal behind a text.
fn put_hex(alloc: Global, text: &mut Vec<u8>, what: &str, bytes: &[u8]) -> Result<(), Trouble> {
    let digits = hex::encode_upper(alloc, bytes)?;
    writeln!(text, "{what}: {digits}").map_err(Trouble::Output)
}

fn file(alloc: Global, bytes: &[u8], how: Counting<'_>) -> Result<Vec<u8>, Trouble> {
    let mut reader = bytes;
    let mut quiet = Quiet;
    let counted = count_table(alloc, &mut reader, how, &mut quiet);
    let Quiet = quiet;
    let counted = counted?;
    let mut text = Vec::new(alloc);
    counted.write_table(alloc, &mut text)?;
    put_leaf(alloc, &mut text, counted.exact())?;
    for filing in counted.bounded() {
        put_leaf(alloc, &mut text, filing)?;
    }
    Ok(text)
}

// Puts a line with the leaf of a count behind a text, told by the word of its kind of bounds.
fn put_leaf(alloc: Global, text: &mut Vec<u8>, filing: &Filing) -> Result<(), Trouble> {
    let (family, _) = filing.bound().plain();
    let word = family.word();
    let what = format!(in alloc; "{word} leaf")?;
    put_hex(alloc, text, what.as_str(), &leaf_of(alloc, filing)?)
}

fn show(rt: &HostRuntime, layout: Layout, leaves: &[&str]) -> anyhow::Result<Vec<u8>> {
    let mut show = Show::new(rt.alloc(), layout)?;
    let mut whole = true;
    for name in leaves {
        let bytes = read(rt, name)?;
        whole &= show.add(name, &mut bytes.as_slice())?;
    }
    let mut text = Vec::new(rt.alloc());
    show.write(&mut text)?;
    if !whole {
        writeln!(text, "status 1")?;
    }
    Ok(text)
}

fn compare(alloc: Global, first: (&str, &[u8]), second: (&str, &[u8])) -> Result<Vec<u8>, Trouble> {
    let (mut one, mut other) = (first.1, second.1);
    let mut text = Vec::new(alloc);
    let names = [first.0, second.0];
    views::compare(alloc, names, &mut one, &mut other, &mut text)?;
    Ok(text)
}

fn plot(alloc: Global, bytes: &[u8], rank: u32, how: Counting<'_>) -> anyhow::Result<Vec<u8>> {
    let mut reader = bytes;
    let mut quiet = Quiet;
    let mut picture = Vec::new(alloc);
    let drawn = views::plot(alloc, &mut reader, rank, how, &mut quiet, &mut picture);
    let Quiet = quiet;
    if let Err(trouble) = drawn {
        return or_trouble(alloc, Err(trouble));
    }
    let mut text = Vec::new(alloc);
    let told = told(&picture)?;
    writeln!(text, "{told}")?;
    Ok(text)
}

fn sheet(
    alloc: Global,
    bytes: &[u8],
    frame: Option<FrameNumbers>,
    bound: (Family, u32),
) -> Result<Vec<u8>, Trouble> {
    let mut reader = bytes;
    let mut sheet = Vec::new(alloc);
    views::sheet(alloc, &mut reader, frame, bound, &mut sheet)?;
    let mut text = Vec::new(alloc);
    put_hex(alloc, &mut text, "sheet", &sheet)?;
    Ok(text)
}

fn respond(alloc: Global, bytes: &[u8]) -> Result<Vec<u8>, Trouble> {
    let mut reader = bytes;
    let mut text = Vec::new(alloc);
    views::respond(alloc, &mut reader, &mut text)?;
    Ok(text)
}

fn bench(alloc: Global, bytes: &[u8]) -> anyhow::Result<Vec<u8>> {
    let mut reader = bytes;
    let mut text = Vec::new(alloc);
    scripts::run(&mut reader, &mut text)?;
    Ok(text)
}

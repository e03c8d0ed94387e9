// Command lines.
use crate::options::Options;
use anyhow::{Context, bail};
use bounds::Family;
use std::alloc::Global;
use views::Layout;

/// What a command line asks, of files by their names.
#[derive(Drop)]
pub(crate) enum Line<'a> {
    File {
        table: &'a str,
        options: Options,
    },
    Show {
        layout: Layout,
        leaves: Vec<&'a str>,
    },
    Compare {
        first: &'a str,
        second: &'a str,
    },
    Plot {
        table: &'a str,
        rank: u32,
        options: Options,
    },
    Sheet {
        table: &'a str,
        bound: (Family, u32),
        options: Options,
    },
    Respond {
        table: &'a str,
    },
    Bench {
        script: &'a str,
    },
}

impl<'a> Line<'a> {
    /// The command line that a text tells.
    pub(crate) fn parse(alloc: Global, text: &'a str) -> anyhow::Result<Line<'a>> {
        let words: Vec<&'a str> = text.split_ascii_whitespace().collect(alloc)?;
        match words.as_slice() {
            ["file", table, options @ ..] => file(alloc, table, options),
            ["show", "--csv", leaves @ ..] => show(alloc, Layout::Csv, leaves),
            ["show", "--json", leaves @ ..] => show(alloc, Layout::Json, leaves),
            ["show", leaves @ ..] => show(alloc, Layout::Aligned, leaves),
            ["compare", first, second] => Ok(Line::Compare { first, second }),
            ["plot", table, options @ ..] => plot(alloc, table, options),
            ["sheet", table, options @ ..] => sheet(alloc, table, options),
            ["respond", table] => Ok(Line::Respond { table }),
            ["bench", script] => Ok(Line::Bench { script }),
            _ => bail!("no command line: {text:?}"),
        }
    }
}

fn file<'a>(alloc: Global, table: &'a str, options: &[&str]) -> anyhow::Result<Line<'a>> {
    let options = with_bounds(Options::parse(alloc, options)?)?;
    Ok(Line::File { table, options })
}

fn show<'a>(alloc: Global, layout: Layout, leaves: &[&'a str]) -> anyhow::Result<Line<'a>> {
    Ok(Line::Show {
        layout,
        leaves: Vec::from_slice(alloc, leaves)?,
    })
}

fn plot<'a>(alloc: Global, table: &'a str, options: &[&str]) -> anyhow::Result<Line<'a>> {
    let options = with_bounds(Options::parse(alloc, options)?)?;
    let rank = options.rank.context("no rank")?;
    Ok(Line::Plot {
        table,
        rank,
        options,
    })
}

fn sheet<'a>(alloc: Global, table: &'a str, options: &[&str]) -> anyhow::Result<Line<'a>> {
    let options = Options::parse(alloc, options)?;
    let bound = match options.bounds.as_slice() {
        [] => (Family::ExactSteps, 0),
        [bound] => *bound,
        _ => bail!("more than one accuracy"),
    };
    Ok(Line::Sheet {
        table,
        bound,
        options,
    })
}

// Options that name a bound.
fn with_bounds(options: Options) -> anyhow::Result<Options> {
    if options.bounds.is_empty() {
        bail!("no accuracy");
    }
    Ok(options)
}

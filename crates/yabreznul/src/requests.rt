// What the arguments of a subcommand ask.
use crate::complaints::{Failed, misused, out_of_memory};
use crate::inputs::Source;
use bounds::Family;
use clap::ArgMatches;
use rows::FrameNumbers;
use std::alloc::{AllocError, Global};
use views::Layout;

/// The input or output that an argument names; the standard stream where it is not given.
pub(crate) fn source<'a>(given: &ArgMatches<'a>, name: &str) -> Source<'a> {
    match given.get_str(name) {
        Some(word) => Source::named(word),
        None => Source::Standard,
    }
}

/// The leaves that are to be shown.
pub(crate) fn leaves<'a>(
    alloc: Global,
    given: &ArgMatches<'a>,
) -> Result<Vec<Source<'a>>, AllocError> {
    match given.get_strs("leaf") {
        Some(words) => sources(alloc, words),
        None => Ok(vec![in alloc; Source::Standard]?),
    }
}

// The inputs that words name.
fn sources<'a>(alloc: Global, words: &[&'a str]) -> Result<Vec<Source<'a>>, AllocError> {
    let mut sources = Vec::new(alloc);
    for word in words {
        sources.push(Source::named(word))?;
    }
    Ok(sources)
}

/// The frame that is named, if one is.
pub(crate) fn frame(given: &ArgMatches<'_>) -> Option<FrameNumbers> {
    let ticks = given.get_one("frame")?;
    Some(FrameNumbers { ticks })
}

/// The bounds that are named, of which there is to be one: by kind and accuracy, in the order of the kinds.
pub(crate) fn bounds(
    rt: &HostRuntime,
    given: &ArgMatches<'_>,
) -> Result<Vec<(Family, u32)>, Failed> {
    match named(rt.alloc(), given) {
        Ok(bounds) if bounds.is_empty() => Err(misused(rt)),
        Ok(bounds) => Ok(bounds),
        Err(_) => Err(out_of_memory(rt, "command line")),
    }
}

// The bounds that are named, in the order of the kinds.
fn named(alloc: Global, given: &ArgMatches<'_>) -> Result<Vec<(Family, u32)>, AllocError> {
    let mut bounds = Vec::new(alloc);
    for family in Family::all() {
        if let Some(accuracy) = accuracy(given, family) {
            bounds.push((family, accuracy))?;
        }
    }
    Ok(bounds)
}

/// The bound that is named, by kind and accuracy; exact steps where none is.
pub(crate) fn bound_or_exact(given: &ArgMatches<'_>) -> (Family, u32) {
    for family in Family::all() {
        if let Some(accuracy) = accuracy(given, family) {
            return (family, accuracy);
        }
    }
    (Family::ExactSteps, 0)
}

// The accuracy of a bound of a kind, where one is named: by the option that is called by the word of the
// kind.
fn accuracy(given: &ArgMatches<'_>, family: Family) -> Option<u32> {
    if family.has_accuracies() {
        given.get_one(family.word())
    } else {
        None
    }
}

/// How leaves are shown.
pub(crate) fn layout(given: &ArgMatches<'_>) -> Layout {
    if given.get_flag("csv") {
        Layout::Csv
    } else if given.get_flag("json") {
        Layout::Json
    } else {
        Layout::Aligned
    }
}

// Leaves shown and compared.
use crate::complaints::{Failed, REFUSED, complain, or_complain, out_of_memory};
use crate::inputs::{Input, Source, open, open_or_complain};
use crate::outputs::print;
use crate::requests::{layout, leaves, source};
use clap::ArgMatches;
use std::alloc::Global;
use views::{Printable, Show, Trouble};

/// Prints what leaves hold, one after the other. A leaf that cannot be read or is damaged keeps none of the
/// others from being printed, and the status is 1 in the end. Where memory runs out while a leaf is shown,
/// nothing is printed.
pub(crate) fn show(rt: &HostRuntime, given: &ArgMatches<'_>) -> Result<(), Failed> {
    let Ok(leaves) = leaves(rt.alloc(), given) else {
        return Err(out_of_memory(rt, "command line"));
    };
    let mut show = or_complain(rt, "standard output", Show::new(rt.alloc(), layout(given)))?;
    let are_leaves = add_all(rt, &mut show, &leaves)?;
    print_shown(rt, &show)?;
    if are_leaves { Ok(()) } else { Err(REFUSED) }
}

// Adds leaves to those that are shown. Answers whether all are leaves. Where memory runs out, one may be
// shown in part.
fn add_all(rt: &HostRuntime, show: &mut Show, leaves: &[Source<'_>]) -> Result<bool, Failed> {
    let mut are_leaves = true;
    for leaf in leaves {
        are_leaves &= add(rt, show, *leaf)?;
    }
    Ok(are_leaves)
}

// Adds a leaf to those that are shown. Answers whether it is one.
fn add(rt: &HostRuntime, show: &mut Show, leaf: Source<'_>) -> Result<bool, Failed> {
    let Ok(mut reader) = open_or_complain(rt, leaf) else {
        return Ok(false);
    };
    match show.add(leaf.name(), &mut reader) {
        Ok(is_leaf) => Ok(is_leaf),
        Err(trouble) => left_out(rt, leaf, &trouble),
    }
}

// Tells why a leaf is not shown. An error where memory ran out.
fn left_out(rt: &HostRuntime, leaf: Source<'_>, trouble: &Trouble) -> Result<bool, Failed> {
    let failed = complain(rt, leaf.name(), trouble);
    match trouble {
        Trouble::Memory(_) => Err(failed),
        _ => Ok(false),
    }
}

// Prints the leaves that are shown.
fn print_shown(rt: &HostRuntime, show: &Show) -> Result<(), Failed> {
    let mut text = Vec::new(rt.alloc());
    or_complain(rt, "standard output", show.write(&mut text))?;
    print(rt, &text)
}

/// Sets two leaves of one table beside each other.
pub(crate) fn compare(rt: &HostRuntime, given: &ArgMatches<'_>) -> Result<(), Failed> {
    let (first, second) = (source(given, "first"), source(given, "second"));
    let names = both(rt.alloc(), first.name(), second.name());
    let names = or_complain(rt, first.name(), names)?;
    let text = compared(rt, &names, first, second)?;
    print(rt, &text)
}

// The names of two leaves.
fn both(alloc: Global, first: &str, second: &str) -> Result<String, Trouble> {
    Ok(format!(in alloc; "{first}, {second}")?)
}

// What is told of two leaves.
fn compared(
    rt: &HostRuntime,
    names: &str,
    first: Source<'_>,
    second: Source<'_>,
) -> Result<Vec<u8>, Failed> {
    let mut one = open_one(rt, names, first)?;
    let mut other = open_one(rt, names, second)?;
    let mut text = Vec::new(rt.alloc());
    let leaves = [first.name(), second.name()];
    let compared = views::compare(rt.alloc(), leaves, &mut one, &mut other, &mut text);
    or_complain(rt, names, compared)?;
    Ok(text)
}

// Opens one of two leaves; where that fails, complains of both and tells which.
fn open_one(rt: &HostRuntime, names: &str, leaf: Source<'_>) -> Result<Input, Failed> {
    match open(rt, leaf) {
        Ok(input) => Ok(input),
        Err(error) => {
            let name = Printable(leaf.name());
            Err(complain(rt, names, &format_args!("{name}: {error}")))
        }
    }
}

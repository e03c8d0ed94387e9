//! One command for people: it files, shows, compares and draws what is counted of task tables
//! (docs/PROGRAMS.md, `yabreznul`).
//!
//! It opens files, prints and ends in a status; what each subcommand writes is made by `views`.
#![tactic(auto)]

mod accuracies;
mod benches;
mod commands;
mod complaints;
mod files;
mod filing;
mod forms;
mod inputs;
mod outputs;
mod pictures;
mod progress;
mod requests;
mod responses;
mod sheeting;
mod shows;

use accuracies::accuracy_options;
use clap::ArgMatches;
use commands::matches;
use complaints::{Failed, MISUSED, or_complain};
use inputs::arguments;
use outputs::print_parse;
use std::process::ExitCode;

// Does what the words of a command line ask.
fn act(rt: &HostRuntime, asked: &ArgMatches<'_>) -> Result<(), Failed> {
    match asked.subcommand() {
        Some(("file", given)) => filing::file(rt, given),
        Some(("show", given)) => shows::show(rt, given),
        Some(("compare", given)) => shows::compare(rt, given),
        Some(("plot", given)) => pictures::plot(rt, given),
        Some(("sheet", given)) => sheeting::sheet(rt, given),
        Some(("respond", given)) => responses::respond(rt, given),
        Some(("bench", given)) => benches::bench(rt, given),
        _ => Err(MISUSED),
    }
}

// Reads the command line and does what it asks.
fn run(rt: &HostRuntime) -> Result<(), Failed> {
    let words = arguments(rt)?;
    let accuracies = or_complain(rt, "command line", accuracy_options(rt.alloc()))?;
    match matches(rt.alloc(), &accuracies, &words) {
        Ok(asked) => act(rt, &asked),
        Err(error) => print_parse(rt, &error),
    }
}

fn main(rt: HostRuntime) -> ExitCode {
    match run(&rt) {
        Ok(()) => ExitCode::SUCCESS,
        Err(Failed { status }) => ExitCode::from(status),
    }
}

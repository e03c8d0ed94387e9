// A script played.
use crate::complaints::{Failed, complain};
use crate::inputs::open_or_complain;
use crate::requests::source;
use clap::ArgMatches;
use scripts::Failure;

/// Plays a script of calls on a new bench, and answers them on standard output.
pub(crate) fn bench(rt: &HostRuntime, given: &ArgMatches<'_>) -> Result<(), Failed> {
    let script = source(given, "script");
    let mut reader = open_or_complain(rt, script)?;
    match scripts::run(&mut reader, &mut rt.stdout()) {
        Ok(()) => Ok(()),
        Err(failure) => {
            let name = failed(&failure, script.name());
            Err(complain(rt, name, &scripts::name_failure(failure)))
        }
    }
}

// The name of what failed.
fn failed<'a>(failure: &Failure, script: &'a str) -> &'a str {
    match failure {
        Failure::Reading(_) => script,
        Failure::Writing(_) => "standard output",
    }
}

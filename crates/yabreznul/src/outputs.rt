// What is printed.
use crate::complaints::{Failed, MISUSED, or_complain, out_of_memory};
use clap::error::ErrorKind;
use std::io::Write;

/// Writes bytes to standard output.
pub(crate) fn print(rt: &HostRuntime, bytes: &[u8]) -> Result<(), Failed> {
    or_complain(rt, "standard output", rt.stdout().write_all(bytes))
}

/// Prints what help or a misuse of the command line prints.
pub(crate) fn print_parse(rt: &HostRuntime, error: &clap::Error) -> Result<(), Failed> {
    match error.kind() {
        ErrorKind::OutOfMemory => Err(out_of_memory(rt, "command line")),
        ErrorKind::DisplayHelp => or_complain(rt, "standard output", error.print(rt)),
        _ => {
            let _ = error.print(rt);
            Err(MISUSED)
        }
    }
}

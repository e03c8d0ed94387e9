// What is told where something failed.
use std::fmt::Display;
use views::Printable;

/// What was asked is not done, standard error says why, and the program is to end in this status.
#[derive(Clone, Copy)]
pub(crate) struct Failed {
    pub(crate) status: u8,
}

/// Something was refused, or an input, an output or a file failed.
pub(crate) const REFUSED: Failed = Failed { status: 1 };

/// The command line is none.
pub(crate) const MISUSED: Failed = Failed { status: 2 };

/// Tells on standard error what failed at a file or a stream of some name.
pub(crate) fn complain<E: Display>(rt: &HostRuntime, name: &str, error: &E) -> Failed {
    let name = Printable(name);
    let _ = eprintln!(rt; "yabreznul: {name}: {error}");
    REFUSED
}

/// What was made; or, told on standard error, what failed at a file or a stream of some name.
pub(crate) fn or_complain<T, E: Display + Drop>(
    rt: &HostRuntime,
    name: &str,
    made: Result<T, E>,
) -> Result<T, Failed> {
    match made {
        Ok(value) => Ok(value),
        Err(error) => Err(complain(rt, name, &error)),
    }
}

/// Tells on standard error that memory ran out while a file or a stream of some name was worked on.
pub(crate) fn out_of_memory(rt: &HostRuntime, name: &str) -> Failed {
    complain(rt, name, &"out of memory")
}

/// Tells on standard error that an argument is missing.
pub(crate) fn misused(rt: &HostRuntime) -> Failed {
    let _ = complain(rt, "command line", &"an argument is missing");
    MISUSED
}

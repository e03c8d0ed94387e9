// How far a count is, told on a terminal.
use bounds::Supplied;
use filings::Progress;
use std::io;
use std::io::IsTerminal;
use std::time::{Duration, Instant};

// A count that ends before is told nothing of.
const PATIENT_SECONDS: u64 = 1;

/// Tells on standard error how many rows are counted, where that is a terminal and more than a second has
/// passed. Where it is none, or there is no clock, it tells nothing.
#[derive(Drop)]
pub(crate) struct Teller<'a> {
    rt: &'a HostRuntime,
    began: Option<Instant>,
    written: bool,
}

impl<'a> Teller<'a> {
    pub(crate) fn begin(rt: &'a HostRuntime) -> Teller<'a> {
        let began = if rt.stderr().is_terminal() {
            Instant::now(rt).ok()
        } else {
            None
        };
        Teller {
            rt,
            began,
            written: false,
        }
    }

    /// Takes away what it told.
    pub(crate) fn clear(&mut self) {
        if self.written {
            let _ = eprint!(self.rt; "\r{:40}\r", "");
            self.written = false;
        }
    }

    // Whether it is time to tell something.
    fn is_due(&self) -> bool {
        match self.began {
            Some(began) => is_late(began.elapsed(self.rt)),
            None => false,
        }
    }
}

// Whether more time has passed than is waited for.
fn is_late(passed: io::Result<Duration>) -> bool {
    match passed {
        Ok(passed) => passed > Duration::from_secs(PATIENT_SECONDS),
        Err(_) => false,
    }
}

impl Progress for Teller<'_> {
    fn counted(&mut self, _bound: Supplied, rows: usize, of: usize) {
        if self.is_due() {
            let _ = eprint!(self.rt; "\rcounted {rows} of {of} rows");
            self.written = true;
        }
    }
}

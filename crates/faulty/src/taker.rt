// A writer that takes a byte at a time.
ghost use Rattle.std.specs.Prelude.{◌≡◌, [], false, None};

use std::alloc::Global;
use std::io;
use std::io::{ErrorKind, Write};

/// Takes a byte a write, each after an interruption, as many as it has room for, and then none, or
/// fails.
#[derive(Drop)]
pub struct Taker {
    /// The bytes that were taken.
    pub bytes: Vec<u8>,
    /// Whether the last write was interrupted.
    pub interrupted: bool,
    /// So many bytes are taken.
    pub room: usize,
    /// How a write behind them fails, if it does.
    pub fails: Option<ErrorKind>,
    /// How a flush fails, if it does.
    pub flush: Option<ErrorKind>,
}

impl Taker {
    /// A writer that has taken nothing, has room for so many bytes, and whose writes behind them fail
    /// so, if they do. No flush fails.
    pub fn of(alloc: Global, room: usize, fails: Option<ErrorKind>) -> Taker
        ensures bytes { result.bytes.items ≡ [] }
        ensures fresh { result.interrupted ≡ false }
        ensures room { result.room ≡ room }
        ensures fails { result.fails ≡ fails }
        ensures flush { result.flush ≡ None }
    {
        Taker {
            bytes: Vec::new(alloc),
            interrupted: false,
            room,
            fails,
            flush: None,
        }
    }
}

impl Write for Taker {
    fn write(&mut self, buffer: &[u8]) -> io::Result<usize> {
        self.interrupted = !self.interrupted;
        if self.interrupted {
            return Err(io::Error::from(ErrorKind::Interrupted));
        }
        if self.bytes.len() < self.room {
            return self.bytes.write(&buffer[..buffer.len().min(1)]);
        }
        match self.fails {
            Some(kind) => Err(io::Error::from(kind)),
            None => Ok(0),
        }
    }

    fn flush(&mut self) -> io::Result<()> {
        match self.flush {
            Some(kind) => Err(io::Error::from(kind)),
            None => Ok(()),
        }
    }
}

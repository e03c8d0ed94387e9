// A reader that gives a byte at a time.
ghost use Rattle.std.specs.Prelude.{◌≡◌, false};

use std::io;
use std::io::{ErrorKind, Read};

/// Gives a byte a read, each after an interruption, and then the end of the input, or an error.
#[derive(Drop)]
pub struct Giver<'a> {
    /// The bytes that are still to be given.
    pub bytes: &'a [u8],
    /// Whether the last read was interrupted.
    pub interrupted: bool,
    /// How a read behind the bytes fails, if it does.
    pub fails: Option<ErrorKind>,
}

impl Giver<'_> {
    /// A reader that is to give these bytes, and whose reads behind them fail so, if they do.
    pub fn of(bytes: &[u8], fails: Option<ErrorKind>) -> Giver<'_>
        ensures bytes { result.bytes.now ≡ bytes.now }
        ensures fresh { result.interrupted ≡ false }
        ensures fails { result.fails ≡ fails }
    {
        Giver {
            bytes,
            interrupted: false,
            fails,
        }
    }
}

impl Read for Giver<'_> {
    fn read(&mut self, buffer: &mut [u8]) -> io::Result<usize> {
        self.interrupted = !self.interrupted;
        if self.interrupted {
            return Err(io::Error::from(ErrorKind::Interrupted));
        }
        if self.bytes.is_empty() {
            return match self.fails {
                Some(kind) => Err(io::Error::from(kind)),
                None => Ok(0),
            };
        }
        let one = buffer.len().min(1);
        self.bytes.read(&mut buffer[..one])
    }
}

// Bytes that a call put into a buffer, and how bytes are told.
ghost use Rattle.std.specs.Prelude.{◌≡◌, replicate, IfOk};

use crate::told::write_refused;
use rows::Fault;
use std::alloc::{AllocError, Global};
use std::fmt;

/// What stands in a buffer before it is lent.
pub(crate) const FILLING: u8 = 0xA5;

/// A buffer of some bytes in which nothing has been put.
pub(crate) fn buffer(alloc: Global, length: usize) -> Result<Vec<u8>, AllocError>
    ensures { IfOk result (λ buffer. buffer.items ≡ replicate length FILLING) }
{
    vec![in alloc; FILLING; length]
}

/// What a call about some bytes answered, and the buffer that it was lent. The answer is how many
/// bytes it put in front.
#[derive(Drop)]
pub(crate) struct Put<'a> {
    pub(crate) about: &'a [u8],
    pub(crate) answered: Result<usize, Fault>,
    pub(crate) buffer: Vec<u8>,
}

// The bytes that were put, in hexadecimal, with `+` in the place of those that the call was about; or
// the refusal. Where more of the buffer changed, the bytes behind follow.
impl fmt::Display for Put<'_> {
    fn fmt<W: fmt::Write>(&self, f: &mut fmt::Formatter<W>) -> fmt::Result {
        let length = self.answered.unwrap_or(0);
        let Some((put, behind)) = self.buffer.split_at_checked(length) else {
            return write!(f, "{length} bytes");
        };
        match (self.answered, put.strip_prefix(self.about)) {
            (Err(fault), _) => write_refused(f, &fault)?,
            (Ok(_), Some(more)) => {
                write!(f, "+")?;
                write_bytes(f, more)?;
            }
            (Ok(_), None) => write_bytes(f, put)?,
        }
        if behind.iter().any(|byte| *byte != FILLING) {
            write!(f, " before ")?;
            write_bytes(f, behind)?;
        }
        Ok(())
    }
}

/// Bytes, of which there may be none.
#[derive(Clone, Copy)]
pub(crate) struct BytesOrNone<'a>(pub(crate) &'a [u8]);

// The bytes in hexadecimal, or "-".
impl fmt::Display for BytesOrNone<'_> {
    fn fmt<W: fmt::Write>(&self, f: &mut fmt::Formatter<W>) -> fmt::Result {
        match self.0 {
            [] => write!(f, "-"),
            bytes => write_bytes(f, bytes),
        }
    }
}

// Bytes in hexadecimal.
fn write_bytes<W: fmt::Write>(f: &mut fmt::Formatter<W>, bytes: &[u8]) -> fmt::Result {
    for byte in bytes {
        write!(f, "{byte:02X}")?;
    }
    Ok(())
}

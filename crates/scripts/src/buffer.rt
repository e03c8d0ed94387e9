// The first bytes of a text.
ghost use Rattle.std.specs.Prelude.{◌≤◌, length};

use std::io;
use std::io::Write;
use std::marker::Model;

// The first bytes of a text, as many as there is room for. No line that is written is longer.
#[derive(Debug, Drop)]
pub(crate) struct Buffer {
    bytes: [u8; Buffer::ROOM],
    count: usize,
}

impl Model for Buffer {
    ghost use Rattle.std.specs.Prelude.{List, ℕ, take};
    ghost use Rattle.scripts.specs.Buffers.{KeepsWithin};

    ghost Value = { List ℕ };

    ghost view = { λ b. take b.count b.bytes };

    ghost invariant = { λ b. KeepsWithin b.count b.bytes };
}

impl Buffer {
    ghost use Rattle.std.specs.Prelude.{◌≡◌, ◌++◌, [], ◌∷◌, take};
    ghost use Rattle.scripts.specs.Buffers.{room};

    // How many bytes of a text are kept.
    pub(crate) const ROOM: usize = 130;

    // No text.
    pub(crate) fn new() -> Buffer
        ensures { result ≡ [] }
    {
        Buffer {
            bytes: [0; Buffer::ROOM],
            count: 0,
        }
    }

    // What is kept of the text.
    pub(crate) fn bytes(&self) -> &[u8]
        ensures kept { result.now ≡ self.now }
        ensures few { length self.now ≤ room }
    {
        &self.bytes[..self.count]
    }

    // Forgets the text.
    pub(crate) fn clear(&mut self)
        ensures { self.new ≡ [] }
    {
        self.count = 0;
    }

    // One byte more.
    pub(crate) fn push(&mut self, byte: u8)
        ensures { self.new ≡ take room (self.old ++ byte ∷ []) }
    {
        if self.count < Buffer::ROOM {
            self.bytes[self.count] = byte;
            self.count += 1;
        }
    }
}

impl Write for Buffer {
    ghost use Rattle.std.specs.Prelude.{Some};

    ghost contents = { λ b. Some b };

    fn write(&mut self, buffer: &[u8]) -> io::Result<usize> {
        let count = buffer.len().min(Buffer::ROOM - self.count);
        self.bytes[self.count..self.count + count].copy_from_slice(&buffer[..count]);
        self.count += count;
        Ok(count)
    }

    fn flush(&mut self) -> io::Result<()> {
        Ok(())
    }
}

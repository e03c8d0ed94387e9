// Bytes written into a buffer, and whether there is room for them.
ghost use Rattle.std.specs.Prelude.{◌≡◌, ◌+◌, ◌*◌, ◌≤◌, ◌∷◌, [], length, OnOk};
ghost use Rattle.std.specs.List.{flat_map};
ghost use Rattle.rows.specs.Answers.{refusal, first_refusal};
ghost use Rattle.rows.specs.Lists.{written};
ghost use Rattle.rows.specs.Times.{horizon};
ghost use Rattle.leaves.specs.Bytes.{four};
ghost use Rattle.leaves.specs.Entries.{row_size};
ghost use Rattle.writing.specs.Checks.{room};

use rows::{Fault, Refusal};

// Whether an entry with a body of some size, begun at a place, ends within the buffer.
pub(crate) fn check_room(buffer: &[u8], at: u32, size: usize) -> Result<(), Fault>
    requires near { at ≤ horizon }
    requires small { size ≤ row_size }
    ensures answered { refusal result ≡ first_refusal (room size at (length buffer.now) ∷ []) }
    ensures room { OnOk result (at + 1 + size ≤ length buffer.now) }
{
    if buffer.len() < at as usize + 1 + size {
        return Err(Refusal::ShortBuffer.at(at));
    }
    Ok(())
}

// Writes bytes over those from a place on, and no other byte.
pub(crate) fn put(buffer: &mut [u8], at: usize, bytes: &[u8])
    requires { at + length bytes.now ≤ length buffer.old }
    ensures { buffer.new ≡ written buffer.old at bytes.now }
{
    buffer[at..at + bytes.len()].copy_from_slice(bytes);
}

// Writes a kind byte at a place and numbers of four bytes behind it, and no other byte.
pub(crate) fn put_numbers(buffer: &mut [u8], at: usize, kind: u8, numbers: &[u32])
    requires { at + 1 + 4 * length numbers.now ≤ length buffer.old }
    ensures { buffer.new ≡ written buffer.old at (kind ∷ flat_map four numbers.now) }
{
    put(buffer, at, &[kind]);
    for (i, number) in numbers.iter().enumerate() {
        put(buffer, at + 1 + 4 * i, &number.to_be_bytes());
    }
}

// All of some bytes written.
ghost use Rattle.std.specs.Prelude.{◌≡◌, ◌≤◌, ℕ, length, take, true, OnOk, OnErr, IfErr};
ghost use Rattle.std.specs.Io.KnownBytes.{Appends};
ghost use Rattle.views.specs.Troubles.{is_output};

use crate::troubles::Trouble;
use std::io::Write;
use streams::put;

// Writes all of some bytes, and flushes the writer.
pub(crate) fn write_out<W: Write>(writer: &mut W, bytes: &[u8]) -> Result<(), Trouble>
    ensures written { OnOk result (Appends (W.contents writer.old) (W.contents writer.new) bytes.now) }
    ensures failed { IfErr result (λ t. is_output t ≡ true) }
    ensures begun { OnErr result ((n : ℕ) × (n ≤ length bytes.now)
        × Appends (W.contents writer.old) (W.contents writer.new) (take n bytes.now)) }
{
    match put(writer, bytes) {
        Ok(()) => Ok(()),
        Err(error) => Err(Trouble::Output(error)),
    }
}

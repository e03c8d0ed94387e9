// All that a reader holds.
ghost use Rattle.std.specs.Prelude.{IfOk, IfErr};
ghost use Rattle.streams.specs.Held.{MayHold};
ghost use Rattle.views.specs.Troubles.{IsTroubleOf, of_leaf};

use crate::troubles::Trouble;
use std::alloc::Global;
use std::io::Read;

// Reads to the end of the input.
pub(crate) fn read_whole<R: Read>(alloc: Global, reader: &mut R) -> Result<Vec<u8>, Trouble>
    ensures read { IfOk result (λ bytes. MayHold (R.remaining reader.old) bytes.items) }
    ensures failed { IfErr result (λ t. IsTroubleOf of_leaf t) }
{
    let mut bytes = Vec::new(alloc);
    match reader.read_to_end(&mut bytes) {
        Ok(_) => Ok(bytes),
        Err(error) => Err(Trouble::Input(error)),
    }
}

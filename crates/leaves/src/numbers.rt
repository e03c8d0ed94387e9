// Numbers in four bytes, read from the end of some bytes.
ghost use Rattle.std.specs.Prelude.{◌≡◌, ◌++◌, IfOk};
ghost use Rattle.rows.specs.Answers.{answer};
ghost use Rattle.leaves.specs.Bytes.{four, last_number};

use rows::{Fault, Refusal};

/// The number in the last four bytes, the most significant first, and the part before them
/// (docs/FORMAT.md, From the last field back). Refused with 13, cut leaf, at place 0 where there are
/// fewer than four.
pub fn last_number(bytes: &[u8]) -> Result<(u32, &[u8]), Fault>
    ensures answered { answer (λ p. (p.0, p.1.now)) result ≡ last_number bytes.now }
    ensures ends { IfOk result (λ p. bytes.now ≡ p.1.now ++ four p.0) }
{
    let (before, last) = bytes.split_last_chunk::<4>().ok_or(Refusal::CutLeaf.at(0))?;
    Ok((u32::from_be_bytes(*last), before))
}

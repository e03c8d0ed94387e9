// The bodies of entries: their fields, and the bytes that they take.
ghost use Rattle.std.specs.Prelude.{◌≡◌, ◌+◌, ◌^◌, ◌<◌, ◌≤◌, ◌∷◌, [], ◌++◌, List, length, drop, OnOk, IfSome};
ghost use Rattle.std.specs.Option.{option_map};
ghost use Rattle.rows.specs.Answers.{refusal, first_refusal};
ghost use Rattle.rows.specs.Lists.{at_rank};
ghost use Rattle.rows.specs.Times.{horizon};
ghost use Rattle.rows.specs.Found.{tells};
ghost use Rattle.leaves.specs.declared.entries.Entry.{Entry};
ghost use Rattle.leaves.specs.Contents.{bytes_of};
ghost use Rattle.leaves.specs.Bytes.{four, number_at};
ghost use Rattle.leaves.specs.Entries.{heading_body, row_body, finding_body, heading_size, row_size, finding_size};
ghost use Rattle.leaves.specs.Fields.{heading_fields, row_fields, finding_fields};
ghost use Rattle.reading.specs.Bodies.{body_of, AreOfSize};
ghost use Rattle.reading.specs.Checks.{cut};

use leaves::{FINDING_SIZE, HeadingNumbers, last_number};
use rows::{Fault, Finding, FrameNumbers, Numbers, Refusal, Verdict};

// Whether the bytes after the kind byte at a place are enough for a body of some size.
pub(crate) fn check_length(body: &[u8], at: u32, size: usize) -> Result<(), Fault>
    requires near { at ≤ horizon }
    requires small { size ≤ row_size }
    ensures answered { refusal result ≡ first_refusal (cut size at body.now ∷ []) }
    ensures room { OnOk result (size ≤ length body.now) }
{
    if body.len() < size {
        return Err(Refusal::CutLeaf.at(at + 1 + body.len() as u32));
    }
    Ok(())
}

// The body of the entry at a rank, the first having rank 1, among entries whose bodies are all of
// one size: none at rank 0 and past the last.
pub(crate) fn body_at(entries: &[u8], size: usize, rank: usize) -> Option<&[u8]>
    requires { size ≤ row_size }
    ensures body { (es : List Entry) → AreOfSize size es → entries.now ≡ bytes_of es →
        option_map (λ b. b.now) result ≡ option_map body_of (at_rank rank es) }
    ensures sized { IfSome result (λ b. length b.now ≡ size) }
{
    let from = rank.checked_sub(1)?.checked_mul(1 + size)?;
    entries.get(from..)?.get(1..1 + size)
}

// The number in the four bytes from a place on.
pub(crate) fn number_at(bytes: &[u8], at: usize) -> u32
    requires { at + 4 ≤ length bytes.now }
    ensures answered { result ≡ number_at at bytes.now }
    ensures same { drop at bytes.now ≡ four result ++ drop (at + 4) bytes.now }
{
    u32::from_be_bytes([bytes[at], bytes[at + 1], bytes[at + 2], bytes[at + 3]])
}

// The numbers of a heading.
pub(crate) fn heading_fields(body: &[u8]) -> HeadingNumbers
    requires { heading_size ≤ length body.now }
    ensures answered { result ≡ heading_fields body.now }
    ensures same { body.now ≡ heading_body result ++ drop heading_size body.now }
{
    HeadingNumbers {
        frame: FrameNumbers {
            ticks: number_at(body, 0),
        },
        bound: body[4],
        accuracy: body[5],
    }
}

// The numbers of a row.
pub(crate) fn row_fields(body: &[u8]) -> Numbers
    requires { row_size ≤ length body.now }
    ensures answered { result ≡ row_fields body.now }
    ensures same { body.now ≡ row_body result ++ drop row_size body.now }
{
    Numbers {
        work: number_at(body, 0),
        deadline: number_at(body, 4),
        period: number_at(body, 8),
        jitter: number_at(body, 12),
    }
}

// A finding, in which a first rest of 0 is a miss, taken from its last field back.
pub(crate) fn finding_fields(body: &[u8]) -> Finding
    requires { finding_size ≤ length body.now }
    ensures answered { result ≡ finding_fields body.now }
    ensures same { body.now ≡ finding_body (tells result) ++ drop finding_size body.now }
    ensures fits { result.points < 2 ^ 32 }
{
    let (points, before) = last_number(&body[..FINDING_SIZE]).unwrap();
    let (rest, _) = last_number(before).unwrap();
    let verdict = match rest {
        0 => Verdict::Misses,
        rest => Verdict::Meets(rest),
    };
    Finding { verdict, points }
}

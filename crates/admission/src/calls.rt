// The calls that a bench takes, as values, and what it replies.
ghost use Rattle.std.specs.Prelude.{◌≡◌};
ghost use Rattle.admission.specs.Promises.{OthersTellZero};
ghost use Rattle.admission.specs.Replies.{tells_rank};

use rows::{Fault, Finding, FrameNumbers, Numbers, Refusal, Row};

/// A call to a bench (docs/RULES.md, The bench). Ranks count from 1, the highest priority.
#[derive(Clone, Copy, PartialEq, Eq, Debug)]
pub enum Call {
    /// Set the frame, while no row stands.
    Frame(FrameNumbers),
    /// Make a row of four numbers, in ticks, and put it in at a rank.
    Admit(usize, Numbers),
    /// Take the row at a rank out.
    Dismiss(usize),
    /// Tell the row at a rank and its finding.
    Inquire(usize),
}

/// What a bench replies to a call: it is done, the row asked for with its finding, or a refusal.
#[derive(Clone, Copy, PartialEq, Eq, Debug)]
pub enum Reply {
    Done,
    Found(Row, Finding),
    Refused(Fault),
}

/// Whether a refusal of a bench tells a rank: 21, newcomer overload, does, the newcomer's own, and 11,
/// overload, the smallest at which a row that stood would miss; every other one tells 0
/// (docs/REFUSALS.md).
#[tactic(auto, using(crate::proofs::RanksTold::others_tell_zero))]
pub fn tells_rank(refusal: Refusal) -> bool
    ensures answered { result ≡ tells_rank refusal }
    ensures others { OthersTellZero }
{
    matches!(refusal, Refusal::NewcomerOverload | Refusal::Overload)
}

impl From<Result<(), Fault>> for Reply {
    ghost use Rattle.admission.specs.Replies.{as_done};

    ghost from_gives = { λ result reply. reply ≡ as_done result };

    fn from(answer: Result<(), Fault>) -> Reply {
        match answer {
            Ok(()) => Reply::Done,
            Err(fault) => Reply::Refused(fault),
        }
    }
}

impl From<Result<(Row, Finding), Fault>> for Reply {
    ghost use Rattle.admission.specs.Replies.{as_found};

    ghost from_gives = { λ result reply. reply ≡ as_found result };

    fn from(answer: Result<(Row, Finding), Fault>) -> Reply {
        match answer {
            Ok((row, finding)) => Reply::Found(row, finding),
            Err(fault) => Reply::Refused(fault),
        }
    }
}

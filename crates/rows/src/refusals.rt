// Why a call was refused, and where. One enum and one fault for every layer of the toolkit.
ghost use Rattle.std.specs.Prelude.{◌≡◌, ◌==◌, Some, find};
ghost use Rattle.rows.specs.Refusals.{number, words};
ghost use Rattle.rows.specs.declared.refusals.Refusal.{Refusal};
ghost use Rattle.rows.specs.declared.refusals.TheConstants.Refusal.{ALL};
ghost use Rattle.rows.specs.Shown.{shown_fault};

use std::error::Error;
use std::fmt;

/// The refusals, each with the number by which it is known; docs/REFUSALS.md has when each is given.
#[derive(Clone, Copy, PartialEq, Eq, Debug)]
pub enum Refusal {
    BadFrame = 1,
    StandingRows = 2,
    BadAccuracy = 3,
    IdleRow = 4,
    NoWindow = 5,
    LateDeadline = 6,
    LongPeriod = 7,
    OffFrame = 8,
    FullTable = 9,
    NoRank = 10,
    Overload = 11,
    ShortList = 12,
    CutLeaf = 13,
    StrangeLetter = 14,
    OutOfTurn = 15,
    Miscount = 16,
    BadFinding = 17,
    LooseBytes = 18,
    ShortBuffer = 19,
    UnknownBound = 20,
    NewcomerOverload = 21,
}

/// A refusal with the position that it tells: a rank, the offset of a byte, or 0 where none is told.
#[derive(Clone, Copy, PartialEq, Eq, Debug)]
pub struct Fault {
    pub refusal: Refusal,
    pub at: u32,
}

impl Refusal {
    /// All refusals, in the order of their numbers.
    pub const ALL: [Refusal; 21] = [
        Refusal::BadFrame,
        Refusal::StandingRows,
        Refusal::BadAccuracy,
        Refusal::IdleRow,
        Refusal::NoWindow,
        Refusal::LateDeadline,
        Refusal::LongPeriod,
        Refusal::OffFrame,
        Refusal::FullTable,
        Refusal::NoRank,
        Refusal::Overload,
        Refusal::ShortList,
        Refusal::CutLeaf,
        Refusal::StrangeLetter,
        Refusal::OutOfTurn,
        Refusal::Miscount,
        Refusal::BadFinding,
        Refusal::LooseBytes,
        Refusal::ShortBuffer,
        Refusal::UnknownBound,
        Refusal::NewcomerOverload,
    ];

    /// All of them. Each is the first that is known by its number, and so the only one.
    #[tactic(auto, using(crate::proofs::Listed::listed))]
    pub fn all() -> [Refusal; 21]
        ensures all { result ≡ ALL }
        ensures each { (r : Refusal) → find (λ x. number x == number r) ALL ≡ Some r }
    {
        Refusal::ALL
    }

    /// The fault of this refusal that tells a position.
    pub fn at(self, position: u32) -> Fault
        ensures { result ≡ record { refusal = self; at = position } }
    {
        Fault {
            refusal: self,
            at: position,
        }
    }

    /// The number by which the refusal is known.
    pub fn number(&self) -> u8
        ensures { result ≡ number self.now }
    {
        *self as u8
    }

    /// The words by which the refusal is known.
    pub fn words(&self) -> &'static str
        ensures { result.now ≡ words self.now }
    {
        match self {
            Refusal::BadFrame => "bad frame",
            Refusal::StandingRows => "standing rows",
            Refusal::BadAccuracy => "bad accuracy",
            Refusal::IdleRow => "idle row",
            Refusal::NoWindow => "no window",
            Refusal::LateDeadline => "late deadline",
            Refusal::LongPeriod => "long period",
            Refusal::OffFrame => "off frame",
            Refusal::FullTable => "full table",
            Refusal::NoRank => "no rank",
            Refusal::Overload => "overload",
            Refusal::ShortList => "short list",
            Refusal::CutLeaf => "cut leaf",
            Refusal::StrangeLetter => "strange letter",
            Refusal::OutOfTurn => "out of turn",
            Refusal::Miscount => "miscount",
            Refusal::BadFinding => "bad finding",
            Refusal::LooseBytes => "loose bytes",
            Refusal::ShortBuffer => "short buffer",
            Refusal::UnknownBound => "unknown bound",
            Refusal::NewcomerOverload => "newcomer overload",
        }
    }
}

// A fault as a person reads it: "refusal 8, off frame, at 3".
impl fmt::Display for Fault {
    ghost output = { λ x. Some (shown_fault x) };

    fn fmt<W: fmt::Write>(&self, f: &mut fmt::Formatter<W>) -> fmt::Result {
        let number = self.refusal.number();
        let words = self.refusal.words();
        let at = self.at;
        write!(f, "refusal {number}, {words}, at {at}")
    }
}

impl Error for Fault {}

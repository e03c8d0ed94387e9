// A reader of leaves.
ghost use Rattle.reading.specs.Phases.{IsSound};

use crate::entries::{Taken, end_entry, finding_entry, heading_entry, row_entry};
use crate::phases::Phase;
use leaves::Entry;
use rows::{Fault, Refusal};

/// A reader over lent bytes: its phase, and the bytes that are left. A copy of it looks ahead while
/// the reader stays where it is.
#[derive(Clone, Copy, PartialEq, Eq, Debug)]
pub struct Reader<'a> {
    left: &'a [u8],
    phase: Phase,
    ghost sound: { IsSound phase },
}

impl<'a> Reader<'a> {
    ghost use Rattle.std.specs.Prelude.{IsTrue, ◌≡◌, IfOk, OnErr, MatchOption, []};
    ghost use Rattle.rows.specs.Answers.{refusal, first_refusal};
    ghost use Rattle.reading.specs.Phases.{is_closed, place_of, IsSound};
    ghost use Rattle.reading.specs.Readers.{reading_of, checks_here};
    ghost use Rattle.reading.specs.Stepping.{TakesEntry, Takes, TakesOnce, reading};

    /// A reader before the first of the bytes.
    pub fn new(bytes: &'a [u8]) -> Reader<'a>
        ensures { reading_of result ≡ reading Phase.Opening bytes.now }
    {
        Reader {
            left: bytes,
            phase: Phase::Opening,
        }
    }

    /// Where the next entry begins: the offset of its kind byte in the bytes of the leaf. No more
    /// rows have come than a table may have, and no more findings than rows.
    pub fn place(&self) -> u32
        ensures answered { result ≡ place_of (reading_of self.now).phase }
        ensures sound { IsSound (reading_of self.now).phase }
    {
        self.phase.place()
    }

    /// How far the leaf has been read.
    pub fn phase(&self) -> Phase
        ensures { result ≡ (reading_of self.now).phase }
    {
        self.phase
    }

    /// The bytes that are left: those from the place of the next entry on.
    pub fn left(&self) -> &'a [u8]
        ensures { result.now ≡ (reading_of self.now).left }
    {
        self.left
    }

    /// The next entry; none after the end. A refusal tells the first check that fails at the place
    /// (docs/FORMAT.md has their order) and leaves the reader as it was, so that asking again gives
    /// the same; after the end it is none each time.
    pub fn next_entry(&mut self) -> Result<Option<Entry>, Fault>
        ensures answered { refusal result ≡ first_refusal (checks_here (reading_of self.old)) }
        ensures taken { IfOk result (λ o. Takes (reading_of self.old) o (reading_of self.new)) }
        ensures once { TakesOnce (reading_of self.old) }
        ensures refused { OnErr result (self.new ≡ self.old) }
    {
        match self.taken()? {
            None => Ok(None),
            Some(taken) => {
                *self = Reader {
                    left: taken.left,
                    phase: taken.phase,
                };
                Ok(Some(taken.entry))
            }
        }
    }

    // What comes next: the phase and the kind of the entry decide together how it is read.
    fn taken(&self) -> Result<Option<Taken<'a>>, Fault>
        ensures answered { refusal result ≡ first_refusal (checks_here (reading_of self.now)) }
        ensures taken { IfOk result (λ o. MatchOption o
            (IsTrue (is_closed self.now.phase) × (self.now.left.now ≡ []))
            (λ t. TakesEntry (reading_of self.now) t.entry (reading t.phase t.left.now))) }
    {
        let at = self.place();
        let taken = match (self.phase, self.left) {
            (Phase::Closed { .. }, []) => return Ok(None),
            (Phase::Closed { .. }, _) => return Err(Refusal::LooseBytes.at(at)),
            (_, []) => return Err(Refusal::CutLeaf.at(at)),
            (Phase::Opening, [b'F', body @ ..]) => heading_entry(body, at)?,
            (Phase::Rows { heading, rows }, [b'R', body @ ..]) => row_entry(
                body, at, heading, rows,
            )?,
            (Phase::Rows { heading, rows }, [b'A', body @ ..]) => finding_entry(
                body, at, heading, rows, 0,
            )?,
            (Phase::Rows { heading, rows }, [b'Z', body @ ..]) => end_entry(
                body, at, heading, rows, 0,
            )?,
            (
                Phase::Findings {
                    heading,
                    rows,
                    findings,
                },
                [b'A', body @ ..],
            ) => finding_entry(body, at, heading, rows, findings)?,
            (
                Phase::Findings {
                    heading,
                    rows,
                    findings,
                },
                [b'Z', body @ ..],
            ) => end_entry(body, at, heading, rows, findings)?,
            (_, [b'F' | b'R' | b'A' | b'Z', ..]) => return Err(Refusal::OutOfTurn.at(at)),
            _ => return Err(Refusal::StrangeLetter.at(at)),
        };
        Ok(Some(taken))
    }
}

// What every bound answers, and the laws that it shows.
ghost use Rattle.std.specs.Prelude.{◌≡◌, ◌+◌, length};
ghost use Rattle.rows.specs.Times.{horizon};
ghost use Rattle.bounds.specs.Meaning.{Meaning};
ghost use Rattle.bounds.specs.Answering.{amount_answered, corner_answered, corner_after};
ghost use Rattle.bounds.specs.Marks.{Marks, up_to};
ghost use Rattle.bounds.specs.Questions.{amount_asked, row_on};
ghost use Rattle.bounds.specs.Laws.{Laws};

use crate::questions::{Asked, OnFrame};
use rows::Row;

/// The greatest accuracy that a bound can have.
pub const FINEST: u32 = 64;

/// A bound on the demand of rows (docs/RULES.md, Bounds; docs/OWN_BOUND.md says how to bring one).
/// Its meaning is fixed: every answer is the meaning's, each time.
pub trait Bound {
    ghost meaning: { Self → Meaning };

    /// The most that the row of a question can demand up to its instant, in parts, frame parts to a unit
    /// of work.
    fn amount_asked(&self, question: &Asked) -> u64
        ensures { result ≡ amount_asked (meaning self.now) question.now };

    /// The row's least corner after an instant, up to the horizon. Corners depend on no frame.
    fn corner_after(&self, row: &Row, after: u32) -> Option<u32>
        ensures { result ≡ corner_after (meaning self.now) row.now after };

    /// The most that a row can demand up to an instant, in parts, and 0 where the bound has nothing to
    /// answer: where the frame is 0 or past the horizon, where the period does not divide it, or where
    /// the instant is past the horizon.
    final fn amount(&self, frame: u32, row: &Row, at: u32) -> u64
        ensures { result ≡ amount_answered (meaning self.now) frame row.now at }
    {
        match Asked::new(frame, row, at) {
            Some(question) => self.amount_asked(&question),
            None => 0,
        }
    }

    /// The row's least corner after an instant, up to the horizon, and none where the bound has nothing
    /// to answer.
    final fn next_corner(&self, frame: u32, row: &Row, after: u32) -> Option<u32>
        ensures { result ≡ corner_answered (meaning self.now) frame row.now after }
    {
        match Asked::new(frame, row, after) {
            Some(_) => self.corner_after(row, after),
            None => None,
        }
    }

    /// Sets the flags of the row's corners among the instants just after `after`, where flag k stands
    /// for after + 1 + k and instants past the horizon have none; every other flag stays. Answers the
    /// row's least corner past the last of these instants, up to the horizon.
    fn mark(&self, row: &Row, after: u32, marks: &mut [bool]) -> Option<u32>
        ensures marks { Marks (up_to horizon ((meaning self.now).is_corner row.now)) after marks.old marks.new }
        ensures past { result ≡ corner_after (meaning self.now) row.now (after + length marks.old) }
    {
        let mut seen = after;
        while let Some(at) = self.corner_after(row, seen) {
            let place = (at - after - 1) as usize;
            if place >= marks.len() {
                return Some(at);
            }
            marks[place] = true;
            seen = at;
        }
        None
    }

    /// The row's least corner after an instant, up to the horizon, of a row that is known to stand on a
    /// frame: it may be found with no division.
    fn corner_past(&self, row: &OnFrame, after: u32) -> Option<u32>
        ensures { result ≡ corner_after (meaning self.now) (row_on row.now) after }
    {
        self.corner_after(row.row(), after)
    }

    /// The accuracy k: no amount is more than (k + 1) / k times the exact steps.
    fn accuracy(&self) -> u32
        ensures { result ≡ (meaning self.now).accuracy };

    /// No row has more corners than this up to the horizon.
    fn most(&self) -> u32
        ensures { result ≡ (meaning self.now).most };

    ghost lawful: { (s : Self) → Laws (meaning s) };
}

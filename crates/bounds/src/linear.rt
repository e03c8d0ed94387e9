// The linear tail: a few exact steps, then a straight line on or above the steps.
ghost use Rattle.std.specs.Prelude.{◌≡◌, ◌≤◌};
ghost use Rattle.rows.specs.Answers.{answer, checked};
ghost use Rattle.bounds.specs.Meaning.{accuracy_checks, finest};

use crate::interface::FINEST;
use crate::questions::Asked;
use crate::tails::{Late, Tail};
use rows::{Fault, Refusal};

/// The straight line of the linear tail of an accuracy. `LinearTail::new` makes it.
#[derive(Clone, Copy, PartialEq, Eq, Debug)]
pub struct Line {
    accuracy: u32,
    ghost low: { 1 ≤ accuracy },
    ghost high: { accuracy ≤ finest },
}

impl Late for Line {
    ghost use Rattle.bounds.specs.Supplied.{line_shape};
    ghost use Rattle.bounds.specs.Values.{accuracy_of_line};
    ghost use Rattle.bounds.specs.Lemmas.SuppliedLaws.{line_laws_of};

    ghost shape = { λ line. line_shape (accuracy_of_line line) };

    ghost lawful = { line_laws_of };

    fn late(&self, question: &Asked) -> u64 {
        let (frame, row) = (question.frame(), question.row());
        let work = u64::from(row.work);
        let times = u64::from(frame / row.period);
        u64::from(frame) * work + u64::from(question.at() + row.jitter) * (work * times)
    }

    fn accuracy(&self) -> u32 {
        self.accuracy
    }

    fn exact(&self) -> u32 {
        self.accuracy - 1
    }
}

/// The linear tail of an accuracy from 1 to 64: the larger, the closer to the steps (docs/RULES.md,
/// Bounds). `new` makes it.
pub type LinearTail = Tail<Line>;

impl LinearTail {
    ghost use Rattle.bounds.specs.Values.{accuracy_of};

    /// The linear tail of accuracy k; refused with 3, bad accuracy, at 0 outside 1 to 64.
    pub fn new(accuracy: u32) -> Result<LinearTail, Fault>
        ensures { answer accuracy_of result ≡ checked (accuracy_checks accuracy) accuracy }
    {
        if accuracy == 0 || accuracy > FINEST {
            return Err(Refusal::BadAccuracy.at(0));
        }
        Ok(Tail {
            late: Line { accuracy },
        })
    }
}

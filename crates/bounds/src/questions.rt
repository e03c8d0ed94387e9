// Questions to which a bound has something to answer, as values that only a check makes.
ghost use Rattle.std.specs.Prelude.{IsTrue, ◌≡◌};
ghost use Rattle.bounds.specs.Stairs.{jobs_until};
ghost use Rattle.bounds.specs.Meaning.{can_be_asked, is_asked};
ghost use Rattle.bounds.specs.Ratios.{ratio_of};

use crate::ratios::{goes_into, quotient};
use crate::releases::rise_after_by;
use rows::{HORIZON, Row, is_frame};

/// A question: how much a row on a frame can demand up to an instant. There is none but where a bound
/// has something to answer (docs/RULES.md, Bounds). `new` makes it, and `OnFrame::at`.
#[derive(Clone, Copy, Debug)]
pub struct Asked<'a> {
    frame: u32,
    row: &'a Row,
    at: u32,
    jobs: u32,
    ghost asked: { IsTrue (is_asked frame row.now at) },
    ghost counted: { jobs ≡ jobs_until row.now at },
}

impl<'a> Asked<'a> {
    ghost use Rattle.std.specs.Prelude.{false, MatchOption, ◌≡◌, ◌≤◌, ◌*◌};
    ghost use Rattle.rows.specs.Counting.{steps};
    ghost use Rattle.rows.specs.Times.{horizon};
    ghost use Rattle.bounds.specs.Stairs.{jobs_until};
    ghost use Rattle.bounds.specs.Questions.{IsQuestion, asked_at, asked_frame, asked_row};

    /// The question of a frame in ticks, a row and an instant. There is none where the frame is 0 or past
    /// the horizon, where the period does not divide it, or where the instant is past the horizon.
    #[tactic(auto, using(rows::proofs::Ceiling::ceiling_by_quotient))]
    pub fn new(frame: u32, row: &'a Row, at: u32) -> Option<Asked<'a>>
        ensures { MatchOption result (is_asked frame row.now at ≡ false)
            (λ q. (asked_frame q ≡ frame) × (asked_row q ≡ row.now) × (asked_at q ≡ at)) }
    {
        if !can_be_asked(frame, row) || at > HORIZON {
            return None;
        }
        Some(Asked {
            frame,
            row,
            at,
            jobs: (at + row.jitter).div_ceil(row.period),
        })
    }

    /// The frame, in ticks.
    pub fn frame(&self) -> u32
        ensures answered { result ≡ asked_frame self.now }
        ensures near { result ≤ horizon }
    {
        self.frame
    }

    /// The row, whose period divides the frame.
    pub fn row(&self) -> &'a Row
        ensures answered { result.now ≡ asked_row self.now }
        ensures asked { IsQuestion self.now }
    {
        self.row
    }

    /// The instant, up to the horizon.
    pub fn at(&self) -> u32
        ensures answered { result ≡ asked_at self.now }
        ensures near { result ≤ horizon }
    {
        self.at
    }

    /// The exact steps of the row at the instant, in units of work.
    pub fn steps(&self) -> u32
        ensures answered { result ≡ steps (asked_row self.now) (asked_at self.now) }
        ensures few { result ≤ 3 * horizon }
    {
        self.row.work * self.jobs
    }

    /// The most jobs of the row that can ask for work from the moment that it is ready to the instant.
    pub fn jobs(&self) -> u32
        ensures answered { result ≡ jobs_until (asked_row self.now) (asked_at self.now) }
        ensures few { result ≤ 3 * horizon }
    {
        self.jobs
    }
}

/// A row that stands on a frame, with what saves a division at each question about it. `new` makes it.
#[derive(Clone, Copy, Debug)]
pub struct OnFrame {
    frame: u32,
    row: Row,
    ratio: u32,
    ghost on: { IsTrue (can_be_asked frame row) },
    ghost known: { ratio ≡ ratio_of row },
}

// What a place of a list holds that no row has been put into.
impl Default for OnFrame {
    fn default() -> OnFrame {
        OnFrame {
            frame: 1,
            row: Row {
                work: 1,
                deadline: 1,
                period: 1,
                jitter: 0,
            },
            ratio: u32::MAX,
        }
    }
}

// Whether a number is a frame that the row stands on.
fn can_be_asked(frame: u32, row: &Row) -> bool
    ensures { result ≡ can_be_asked frame row.now }
{
    is_frame(frame) && row.divides(frame)
}

impl OnFrame {
    ghost use Rattle.std.specs.Prelude.{false, MatchOption, ◌≡◌, ◌<◌, ◌≤◌, ◌+◌, ◌-◌, ◌/◌};
    ghost use Rattle.rows.specs.Counting.{is_rise};
    ghost use Rattle.rows.specs.Times.{horizon};
    ghost use Rattle.bounds.specs.Instants.{least};
    ghost use Rattle.bounds.specs.Questions.{asked_at, asked_frame, asked_row, frame_under, row_on};

    /// The row on a frame, in ticks. There is none where the frame is 0 or past the horizon, and where
    /// the period does not divide it.
    pub fn new(frame: u32, row: &Row) -> Option<OnFrame>
        ensures { MatchOption result (can_be_asked frame row.now ≡ false)
            (λ s. (frame_under s ≡ frame) × (row_on s ≡ row.now)) }
    {
        let ratio = u32::MAX / row.period;
        if !is_frame(frame) || !goes_into(frame, row, ratio) {
            return None;
        }
        Some(OnFrame {
            frame,
            row: *row,
            ratio,
        })
    }

    /// The question about the row at an instant. There is none past the horizon.
    pub fn at(&self, at: u32) -> Option<Asked<'_>>
        ensures { MatchOption result (horizon < at)
            (λ q. (asked_frame q ≡ frame_under self.now) × (asked_row q ≡ row_on self.now) × (asked_at q ≡ at)) }
    {
        if at > HORIZON {
            return None;
        }
        let row = &self.row;
        let jobs = quotient(at + row.jitter + (row.period - 1), row, self.ratio);
        Some(Asked {
            frame: self.frame,
            row,
            at,
            jobs,
        })
    }

    /// The row.
    pub fn row(&self) -> &Row
        ensures { result.now ≡ row_on self.now }
    {
        &self.row
    }

    // How many rises of the row there are up to an instant.
    pub(crate) fn rises_until(&self, at: u32) -> u32
        requires { at ≤ horizon }
        ensures { result ≡ (at + (row_on self.now).jitter) / (row_on self.now).period }
    {
        quotient(at + self.row.jitter, &self.row, self.ratio)
    }

    // The first rise of the row after an instant, up to `last`.
    pub(crate) fn rise_after(&self, after: u32, last: u32) -> Option<u32>
        requires { last ≤ horizon }
        ensures { result ≡ least (is_rise (row_on self.now)) (last - after) (after + 1) }
    {
        rise_after_by(&self.row, self.ratio, after, last)
    }
}

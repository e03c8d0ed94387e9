// Times, frames, and the exact count of a row's demand.
ghost use Rattle.std.specs.Prelude.{◌≡◌};
ghost use Rattle.rows.specs.Judging.{plain};
ghost use Rattle.rows.specs.Times.{is_frame};
ghost use Rattle.rows.specs.Counting.{is_on_frame, window, steps, CountsJobs, StepsRise};

use crate::frames::Frame;
use crate::tasks::{Numbers, Row};

/// The last instant that anything is asked about, in ticks (2^24). No period and no frame is
/// longer.
pub const HORIZON: u32 = 16_777_216;

/// A table has at most this many rows.
pub const MOST_ROWS: usize = 32;

/// Whether a number is a frame: from 1 to the horizon (docs/RULES.md, Frame and parts).
pub fn is_frame(frame: u32) -> bool
    ensures { result ≡ is_frame frame }
{
    1 <= frame && frame <= HORIZON
}

impl Row {
    /// The four numbers of the row.
    pub fn numbers(&self) -> Numbers
        ensures { result ≡ plain self.now }
    {
        Numbers {
            work: self.work,
            deadline: self.deadline,
            period: self.period,
            jitter: self.jitter,
        }
    }

    /// The deadline less the jitter, in ticks: the time left once the task is ready (docs/RULES.md,
    /// Rows).
    pub fn window(&self) -> u32
        ensures { result ≡ window self.now }
    {
        self.deadline - self.jitter
    }

    /// Whether the period divides a number of ticks.
    pub fn divides(&self, ticks: u32) -> bool
        ensures { result ≡ is_on_frame ticks self.now }
    {
        ticks % self.period == 0
    }

    /// Whether the period divides the frame (docs/RULES.md, Frame and parts).
    pub fn stands_on(&self, frame: &Frame) -> bool
        ensures { result ≡ is_on_frame frame.now.ticks self.now }
    {
        self.divides(frame.ticks())
    }

    /// The exact steps at an instant, in units of work: work × ceiling((at + jitter) / period), the
    /// request bound of the row (docs/RULES.md, Exact steps). They rise just after the instants
    /// b × period − jitter, by the work of one job.
    pub fn steps(&self, at: u32) -> u64
        ensures answered { result ≡ steps self.now at }
        ensures jobs { CountsJobs self.now at result }
        ensures rising { StepsRise self.now }
    {
        let jobs = (u64::from(at) + u64::from(self.jitter)).div_ceil(u64::from(self.period));
        u64::from(self.work) * jobs
    }
}

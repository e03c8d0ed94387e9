// The staircase: whole steps, counted on a grain that is coarser the more jobs there are.
ghost use Rattle.std.specs.Prelude.{IfOk, ◌≡◌, ◌+◌, ◌*◌, ◌/◌, ◌<◌, ◌≤◌};
ghost use Rattle.rows.specs.Answers.{answer, checked};
ghost use Rattle.rows.specs.Times.{horizon};
ghost use Rattle.bounds.specs.Meaning.{accuracy_checks, finest};
ghost use Rattle.bounds.specs.Instants.{IsFirst};
ghost use Rattle.bounds.specs.Stairs.{IsGrain, Rounds, Stands, rounded};
ghost use Rattle.bounds.specs.Supplied.{staircase};

use crate::corners::Corners;
use crate::interface::{Bound, FINEST};
use crate::questions::{Asked, OnFrame};
use crate::releases::rises_until;
use crate::walks::mark_along;
use rows::{Fault, HORIZON, Refusal, Row};

/// The staircase of an accuracy from 1 to 64: as many jobs as the accuracy are counted one by one, and
/// more are rounded up on a grain that doubles with their number (docs/RULES.md, Bounds). `new` makes
/// it.
#[derive(Clone, Copy, PartialEq, Eq, Debug)]
pub struct Staircase {
    accuracy: u32,
    ghost low: { 1 ≤ accuracy },
    ghost high: { accuracy ≤ finest },
}

impl Staircase {
    ghost use Rattle.bounds.specs.Values.{accuracy_of_stairs};

    /// The staircase of accuracy k; refused with 3, bad accuracy, at 0 outside 1 to 64.
    #[tactic(auto, using(crate::proofs::StairWalks::rounds_at))]
    pub fn new(accuracy: u32) -> Result<Staircase, Fault>
        ensures answered { answer accuracy_of_stairs result ≡ checked (accuracy_checks accuracy) accuracy }
        ensures rounds { IfOk result (λ s. Rounds (accuracy_of_stairs s)) }
    {
        if accuracy == 0 || accuracy > FINEST {
            return Err(Refusal::BadAccuracy.at(0));
        }
        Ok(Staircase { accuracy })
    }

    // The grain of a number of jobs, found by doubling.
    fn grain(&self, jobs: u32) -> u32
        requires { self.now.accuracy ≤ jobs }
        ensures { IsGrain self.now.accuracy jobs result }
    {
        let most = jobs / self.accuracy;
        let mut grain = 1;
        while grain <= most / 2 {
            grain *= 2;
        }
        grain
    }

    // More jobs than the accuracy, rounded up on their grain.
    #[tactic(auto, using(crate::proofs::StairWalks::rounded_is))]
    fn round_up(&self, jobs: u32, grain: u32) -> u32
        requires many { self.now.accuracy < jobs }
        requires near { jobs ≤ 3 * horizon }
        requires grain { IsGrain self.now.accuracy jobs grain }
        ensures { result ≡ rounded self.now.accuracy jobs }
    {
        jobs.next_multiple_of(grain)
    }

    // The first stair from a number of jobs on, and how far past it the next one is.
    fn stair_from(&self, jobs: u32) -> (u32, u32)
        requires { jobs ≤ 3 * horizon }
        ensures stair { result.0 ≡ rounded self.now.accuracy jobs }
        ensures stands { Stands self.now.accuracy result.0 result.1 }
    {
        if jobs <= self.accuracy {
            return (jobs, 1);
        }
        let grain = self.grain(jobs);
        let stair = self.round_up(jobs, grain);
        if stair < self.accuracy * (2 * grain) {
            (stair, grain)
        } else {
            (stair, 2 * grain)
        }
    }

    // How many jobs are counted for a number of jobs.
    fn rounded(&self, jobs: u32) -> u32
        requires { jobs ≤ 3 * horizon }
        ensures { result ≡ rounded self.now.accuracy jobs }
    {
        let (stair, _) = self.stair_from(jobs);
        stair
    }
}

impl Staircase {
    ghost use Rattle.bounds.specs.Answering.{corner_after};

    // The instant at which the row has so many jobs, the first stair past those of its rises that an
    // instant has seen.
    fn corner_at(&self, row: &Row, after: u32, stair: u32) -> u32
        requires near { after ≤ horizon }
        requires stair { stair ≡ rounded self.now.accuracy ((after + row.now.jitter) / row.now.period + 1) }
        ensures corner { result + row.now.jitter ≡ stair * row.now.period }
        ensures first { IsFirst ((staircase self.now.accuracy).is_corner row.now) after result result }
    {
        stair * row.period - row.jitter
    }

    // The first corner of the row after an instant that has seen so many rises, up to the horizon.
    fn corner_past_rises(&self, row: &Row, after: u32, rises: u32) -> Option<u32>
        requires near { after ≤ horizon }
        requires known { rises ≡ (after + row.now.jitter) / row.now.period }
        ensures { result ≡ corner_after (staircase self.now.accuracy) row.now after }
    {
        let corner = self.corner_at(row, after, self.rounded(rises + 1));
        if corner <= HORIZON {
            Some(corner)
        } else {
            None
        }
    }

    // The walk through the row's corners after an instant.
    fn corners_after<'a>(&self, row: &'a Row, after: u32) -> Corners<'a>
        requires { after ≤ horizon }
        ensures row { result.row.now ≡ row.now }
        ensures accuracy { result.accuracy ≡ self.now.accuracy }
        ensures first { IsFirst ((staircase self.now.accuracy).is_corner row.now) after result.at result.at }
    {
        let (jobs, stride) = self.stair_from(rises_until(row, after) + 1);
        let at = self.corner_at(row, after, jobs);
        Corners {
            row,
            accuracy: self.accuracy,
            jobs,
            stride,
            at,
        }
    }
}

impl Bound for Staircase {
    ghost use Rattle.bounds.specs.Values.{accuracy_of_stairs};
    ghost use Rattle.bounds.specs.Lemmas.StairLaws.{stair_laws};

    ghost meaning = { λ s. staircase (accuracy_of_stairs s) };

    ghost lawful = { λ s. stair_laws s.accuracy s.low s.high };

    fn amount_asked(&self, question: &Asked) -> u64 {
        let work = u64::from(question.row().work);
        let counted = u64::from(self.rounded(question.jobs()));
        u64::from(question.frame()) * (work * counted)
    }

    #[tactic(auto, using(crate::proofs::Marking::least_over))]
    fn corner_after(&self, row: &Row, after: u32) -> Option<u32> {
        if after >= HORIZON {
            return None;
        }
        self.corner_past_rises(row, after, rises_until(row, after))
    }

    #[tactic(auto, using(crate::proofs::Marking::least_over))]
    fn mark(&self, row: &Row, after: u32, marks: &mut [bool]) -> Option<u32> {
        if after >= HORIZON {
            return None;
        }
        mark_along(self.corners_after(row, after), after, HORIZON, marks)
    }

    #[tactic(auto, using(crate::proofs::Marking::least_over))]
    fn corner_past(&self, row: &OnFrame, after: u32) -> Option<u32> {
        if after >= HORIZON {
            return None;
        }
        self.corner_past_rises(row.row(), after, row.rises_until(after))
    }

    fn accuracy(&self) -> u32 {
        self.accuracy
    }

    fn most(&self) -> u32 {
        26 * self.accuracy
    }
}

//! Jobs counted in batches: a bound that is brought to the toolkit (docs/OWN_BOUND.md). It is
//! written as any group would write its own, over what `rows` and `bounds` make public.
#![tactic(auto)]

ghost use Rattle.std.specs.Prelude.{◌≡◌, ◌^◌, ◌<◌, ◌≤◌};
ghost use Rattle.rows.specs.Times.{horizon};
ghost use Rattle.bounds.specs.Meaning.{finest};
ghost use Rattle.batches.specs.Batching.{job_count};

mod errors;

use bounds::{Asked, Bound, ExactSteps, FINEST};
pub use errors::BatchError;
use rows::{HORIZON, Refusal, Row};

/// Jobs are counted one by one while they are few, and in whole batches of so many jobs once they
/// fill as many batches as the accuracy says: rounding up then adds at most one part in `accuracy`.
/// `new` makes it.
#[derive(Clone, Copy, PartialEq, Eq, Debug)]
pub struct Batches {
    accuracy: u32,
    size: u32,
    ghost low: { 1 ≤ accuracy },
    ghost high: { accuracy ≤ finest },
    ghost some: { 1 ≤ size },
    ghost near: { size ≤ horizon },
}

// The most jobs of the row that can ask for work from the moment that it is ready to the instant.
#[tactic(auto, using(rows::proofs::Ceiling::ceiling_by_quotient))]
fn job_count(row: &Row, at: u32) -> u64
    ensures { result ≡ job_count row.now at }
{
    (u64::from(at) + u64::from(row.jitter)).div_ceil(u64::from(row.period))
}

impl Batches {
    ghost use Rattle.batches.specs.Batching.{batch_count};
    ghost use Rattle.batches.specs.Making.{outcome_for, outcome_of, parameters_of};

    /// The bound of an accuracy from 1 to 64 and a batch size from 1 to the horizon, in jobs
    /// (docs/OWN_BOUND.md, The example).
    ///
    /// Refused with 3, bad accuracy, at 0 for any other accuracy; then, for any other size, by the
    /// crate's own `BatchError::BadSize`.
    pub fn new(accuracy: u32, size: u32) -> Result<Batches, BatchError>
        ensures { outcome_of result ≡ outcome_for accuracy size }
    {
        if accuracy == 0 || accuracy > FINEST {
            return Err(BatchError::Refused(Refusal::BadAccuracy.at(0)));
        }
        if size == 0 || size > HORIZON {
            return Err(BatchError::BadSize(size));
        }
        Ok(Batches { accuracy, size })
    }

    /// How many jobs a batch has: 1 to the horizon (docs/OWN_BOUND.md, The example).
    pub fn size(&self) -> u32
        ensures { result ≡ (parameters_of self.now).size }
    {
        self.size
    }

    // How many jobs are counted for a number of jobs.
    #[tactic(auto, using(rows::proofs::Ceiling::ceiling_by_quotient))]
    fn batch_count(&self, jobs: u64) -> u64
        requires { jobs < 2 ^ 32 }
        ensures { result ≡ batch_count (parameters_of self.now) jobs }
    {
        let size = u64::from(self.size);
        if jobs < u64::from(self.accuracy) * size {
            jobs
        } else {
            jobs.div_ceil(size) * size
        }
    }
}

impl Bound for Batches {
    ghost use Rattle.batches.specs.Batching.{batches};
    ghost use Rattle.batches.specs.Making.{parameters_of};
    ghost use Rattle.batches.specs.Lemmas.BatchLaws.{batches_laws};

    ghost meaning = { λ b. batches (parameters_of b) };

    ghost lawful = { batches_laws };

    fn amount_asked(&self, question: &Asked) -> u64 {
        let row = question.row();
        let jobs = self.batch_count(job_count(row, question.at()));
        u64::from(question.frame()) * (u64::from(row.work) * jobs)
    }

    // Every instant at which exact steps rise: more corners than the amount has bends, which the
    // laws allow.
    fn corner_after(&self, row: &Row, after: u32) -> Option<u32> {
        ExactSteps.corner_after(row, after)
    }

    fn accuracy(&self) -> u32 {
        self.accuracy
    }

    fn most(&self) -> u32 {
        HORIZON
    }
}

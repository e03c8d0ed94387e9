// What comes of a work.
use findings::{Finding, Verdict};
use rows::MOST_ROWS;

/// How many rows met in the last round, a digest of all that was found, and how long the rounds took.
#[derive(Clone, Copy)]
pub(crate) struct WorkOutcome {
    pub(crate) met: usize,
    pub(crate) digest: u64,
    pub(crate) nanoseconds: u128,
}

/// A list of findings that none has been put into.
pub(crate) const NO_FINDINGS: [Finding; MOST_ROWS] = [Finding {
    verdict: Verdict::Misses,
    points: 0,
}; MOST_ROWS];

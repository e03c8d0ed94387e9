// What is found about a row.
ghost use Rattle.std.specs.Prelude.{◌≡◌, ◌+◌, count_by};
ghost use Rattle.std.specs.Option.{option_map};
ghost use Rattle.rows.specs.Found.{is_met, tells, verdict_rest};

use crate::tasks::Row;

/// Whether a row meets its deadline: it does, with its first rest in ticks, the least instant by
/// which all that is demanded up to it is served; or it misses (docs/RULES.md, Rests).
#[derive(Clone, Copy, PartialEq, Eq, Debug)]
pub enum Verdict {
    Meets(u32),
    Misses,
}

/// What is found about a row: the verdict, and the points tested: how many test points there are up to
/// the first at which the row rests, or in all where it misses (docs/RULES.md, Findings).
#[derive(Clone, Copy, PartialEq, Eq, Debug)]
pub struct Finding {
    pub verdict: Verdict,
    pub points: u32,
}

// What a place of a list holds that nothing has been counted for.
impl Default for Finding {
    fn default() -> Finding {
        Finding {
            verdict: Verdict::Misses,
            points: 0,
        }
    }
}

impl Verdict {
    /// The first rest, in ticks; none where the row misses (docs/RULES.md, Rests).
    pub fn rest(&self) -> Option<u32>
        ensures { result ≡ verdict_rest self.now }
    {
        match *self {
            Verdict::Meets(rest) => Some(rest),
            Verdict::Misses => None,
        }
    }
}

impl Finding {
    /// The first rest plus the row's jitter, in ticks: in exact steps the response time, by another
    /// bound a bound on it; none where the row misses.
    pub fn response_bound(&self, row: &Row) -> Option<u64>
        ensures { result ≡ option_map (λ t. t + row.now.jitter) (verdict_rest self.now.verdict) }
    {
        let rest = self.verdict.rest()?;
        Some(u64::from(rest) + u64::from(row.jitter))
    }
}

/// How many of some findings say that their row meets (docs/RULES.md, Rests).
pub fn count_met(findings: &[Finding]) -> usize
    ensures { result ≡ count_by (λ f. is_met (tells f)) findings.now }
{
    findings
        .iter()
        .filter(|finding| finding.verdict != Verdict::Misses)
        .count()
}

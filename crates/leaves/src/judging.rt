// Which headings and findings can be filed.
ghost use Rattle.std.specs.Prelude.{◌≡◌, OnOk};
ghost use Rattle.rows.specs.Answers.{answer, checked};
ghost use Rattle.rows.specs.Frames.{IsFrame, frame_checks};
ghost use Rattle.bounds.specs.Families.{bound_numbers};
ghost use Rattle.leaves.specs.Headings.{told_at, bound_checks, heading_checks, heading_plain};
ghost use Rattle.leaves.specs.Judging.{finding_checks};

use crate::entries::{Heading, HeadingNumbers};
use bounds::Supplied;
use rows::{Fault, Finding, Frame, HORIZON, Refusal, Verdict};

impl HeadingNumbers {
    /// The heading of these numbers (docs/FORMAT.md has their ranges). Refused with the first of
    /// these that applies: 1, bad frame; 20, unknown bound; 3, bad accuracy. A refusal tells the
    /// position that the caller hands in.
    pub fn judge(&self, at: u32) -> Result<Heading, Fault>
        ensures { answer heading_plain result ≡ checked (heading_checks self.now at) self.now }
    {
        self.check_frame(at)?;
        let bound = self.named_bound(at)?;
        Ok(Heading {
            frame: self.frame,
            bound,
        })
    }

    // What is checked of the frame.
    fn check_frame(&self, at: u32) -> Result<(), Fault>
        ensures answered { answer (λ u. u) result
            ≡ checked (told_at at (frame_checks self.now.frame)) tt }
        ensures lawful { OnOk result (IsFrame self.now.frame) }
    {
        match self.frame.judge() {
            Ok(_) => Ok(()),
            Err(fault) => Err(fault.refusal.at(at)),
        }
    }

    // The bound that the second and the third number name together.
    fn named_bound(&self, at: u32) -> Result<Supplied, Fault>
        ensures { answer bound_numbers result
            ≡ checked (bound_checks self.now at) (self.now.bound, self.now.accuracy) }
    {
        match Supplied::named(self.bound, self.accuracy) {
            Ok(bound) => Ok(bound),
            Err(fault) => Err(fault.refusal.at(at)),
        }
    }
}

impl Heading {
    /// The frame of the leaf (docs/RULES.md, Frame and parts).
    #[tactic(auto, using(crate::proofs::Filing::framed))]
    pub fn frame(&self) -> Frame
        ensures { result ≡ self.now.frame }
    {
        self.frame.judge().unwrap()
    }

    /// The plain numbers of the heading: the frame, the bound by the number of its kind, and its accuracy,
    /// 0 where there is but one of the kind (docs/FORMAT.md, Entries).
    pub fn numbers(&self) -> HeadingNumbers
        ensures { result ≡ heading_plain self.now }
    {
        let (kind, accuracy) = self.bound.plain();
        HeadingNumbers {
            frame: self.frame,
            bound: kind.number(),
            accuracy: accuracy as u8,
        }
    }
}

/// Whether a finding can be filed: it has points, and a first rest lies from 1 to the horizon; else
/// 17, bad finding, at the position that the caller hands in. docs/FORMAT.md has the ranges.
pub fn judge_finding(finding: &Finding, at: u32) -> Result<(), Fault>
    ensures { answer (λ u. u) result ≡ checked (finding_checks finding.now at) tt }
{
    let in_range = match finding.verdict {
        Verdict::Meets(rest) => 1 <= rest && rest <= HORIZON,
        Verdict::Misses => true,
    };
    if finding.points == 0 || !in_range {
        return Err(Refusal::BadFinding.at(at));
    }
    Ok(())
}

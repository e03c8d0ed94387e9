// A leaf whose rows are filed and that takes findings.
ghost use Rattle.std.specs.Prelude.{◌≡◌};
ghost use Rattle.std.specs.Option.{unwrap_or};
ghost use Rattle.rows.specs.Found.{verdict_rest};

use crate::bytes::{check_room, put_numbers};
use crate::closed::{ClosedLeaf, Unclosed};
use leaves::{END_SIZE, FINDING_SIZE, Heading, judge_finding};
use reading::Phase;
use rows::{Fault, Finding, Refusal, Verdict};
use std::marker::Model;

/// A leaf that takes findings: its heading, its rows and so many findings are filed. It can be
/// neither copied nor made by hand.
#[must_use]
#[derive(Debug, Drop)]
pub struct FindingsLeaf {
    heading: Heading,
    rows: u8,
    findings: u8,
}

impl Model for FindingsLeaf {
    ghost use Rattle.std.specs.Prelude.{◌≤◌};
    ghost use Rattle.rows.specs.Times.{most_rows};
    ghost use Rattle.reading.specs.declared.phases.Phase.{Phase};
    ghost use Rattle.writing.specs.States.{phase_after};

    ghost Value = { Phase };

    ghost view = { λ leaf. phase_after leaf.heading leaf.rows leaf.findings };

    ghost invariant = { λ leaf. (leaf.rows ≤ most_rows) × (leaf.findings ≤ leaf.rows) };
}

impl FindingsLeaf {
    ghost use Rattle.std.specs.Prelude.{◌≡◌, ◌+◌, ◌<◌, ◌≤◌, IfOk, OnOk, OnErr, IfErr, length, false};
    ghost use Rattle.rows.specs.Answers.{refusal, first_refusal};
    ghost use Rattle.rows.specs.Times.{most_rows};
    ghost use Rattle.leaves.specs.Entries.{finding_size, end_size};
    ghost use Rattle.leaves.specs.Judging.{is_bad_finding};
    ghost use Rattle.leaves.specs.declared.entries.Entry.{Entry};
    ghost use Rattle.reading.specs.declared.phases.Phase.{Phase};
    ghost use Rattle.reading.specs.Phases.{place_of, rows_in, findings_in};
    ghost use Rattle.writing.specs.Checks.{filed_finding_checks, close_checks};
    ghost use Rattle.writing.specs.Closing.{closing};
    ghost use Rattle.writing.specs.Filing.{Files, ReadsOn, IsFollowed, IsWholeInTurn};
    ghost use Rattle.writing.specs.States.{IsInFindings};

    // A leaf of so many rows and no finding yet.
    pub(crate) fn of(heading: Heading, rows: u8) -> FindingsLeaf
        requires { rows ≤ most_rows }
        ensures { result ≡ Phase.Rows heading rows }
    {
        FindingsLeaf {
            heading,
            rows,
            findings: 0,
        }
    }

    /// The phase in which a reader of what is filed would be: the rows, until a finding is filed.
    /// The place of the phase is where the next entry is to begin.
    pub fn phase(&self) -> Phase
        ensures answered { result ≡ self.now }
        ensures findings { IsInFindings self.now }
    {
        let FindingsLeaf {
            heading,
            rows,
            findings,
        } = *self;
        match findings {
            0 => Phase::Rows { heading, rows },
            _ => Phase::Findings {
                heading,
                rows,
                findings,
            },
        }
    }

    /// Files a finding behind those that are filed, about the next row, and writes no other byte
    /// (docs/FORMAT.md, Writing). Refused with the first of these that applies, at the place where
    /// the finding was to begin: 16, miscount, once there is one about each row; 17, bad finding; 19,
    /// short buffer. A refusal leaves the leaf and the buffer as they were.
    pub fn finding(&mut self, finding: &Finding, buffer: &mut [u8]) -> Result<(), Fault>
        ensures answered { refusal result
            ≡ first_refusal (filed_finding_checks self.old finding.now (length buffer.old)) }
        ensures filed { OnOk result
            (Files self.old buffer.old (Entry.Finding finding.now) self.new buffer.new) }
        ensures read { OnOk result
            (ReadsOn self.old buffer.old (Entry.Finding finding.now) self.new buffer.new) }
        ensures refused { OnErr result ((self.new ≡ self.old) × (buffer.new ≡ buffer.old)) }
    {
        let at = self.phase().place();
        if self.findings >= self.rows {
            return Err(Refusal::Miscount.at(at));
        }
        judge_finding(finding, at)?;
        check_room(buffer, at, FINDING_SIZE)?;
        self.put_finding(finding, buffer);
        Ok(())
    }

    // Writes a finding that can be filed where it is to begin, where there is room for it.
    pub(crate) fn put_finding(&mut self, finding: &Finding, buffer: &mut [u8])
        requires fewer { findings_in self.old < rows_in self.old }
        requires good { is_bad_finding finding.now ≡ false }
        requires room { place_of self.old + 1 + finding_size ≤ length buffer.old }
        ensures { Files self.old buffer.old (Entry.Finding finding.now) self.new buffer.new }
    {
        let at = self.phase().place() as usize;
        put_numbers(buffer, at, b'A', &[rest_or_zero(finding), points(finding)]);
        self.findings += 1;
    }

    /// Ends the leaf behind its last finding, and writes no other byte (docs/FORMAT.md, Writing).
    /// Refused with the first of these that applies, at the place where the end was to begin: 16,
    /// miscount, while a row has no finding; 19, short buffer. A refusal gives the leaf back as it
    /// was, beside the fault, and leaves the buffer as it was.
    #[tactic(auto, using(crate::proofs::Turns::followed, crate::proofs::Turns::whole_in_turn))]
    pub fn close(self, buffer: &mut [u8]) -> Result<ClosedLeaf, Unclosed>
        ensures answered { closing result ≡ first_refusal (close_checks self (length buffer.old)) }
        ensures filed { IfOk result (λ leaf.
            Files self buffer.old (Entry.End (1 + rows_in self + findings_in self)) leaf buffer.new) }
        ensures read { IfOk result (λ leaf.
            ReadsOn self buffer.old (Entry.End (1 + rows_in self + findings_in self)) leaf buffer.new) }
        ensures refused { IfErr result (λ u. (u.leaf ≡ self) × (buffer.new ≡ buffer.old)) }
        ensures followed { IsFollowed }
        ensures whole { IsWholeInTurn }
    {
        let at = self.phase().place();
        if self.findings < self.rows {
            return Err(Unclosed {
                leaf: self,
                fault: Refusal::Miscount.at(at),
            });
        }
        match check_room(buffer, at, END_SIZE) {
            Ok(()) => Ok(self.put_end(buffer)),
            Err(fault) => Err(Unclosed { leaf: self, fault }),
        }
    }

    // Writes the end where it is to begin, where there is room for it.
    pub(crate) fn put_end(self, buffer: &mut [u8]) -> ClosedLeaf
        requires even { rows_in self ≤ findings_in self }
        requires room { place_of self + 1 + end_size ≤ length buffer.old }
        ensures { Files self buffer.old (Entry.End (1 + rows_in self + findings_in self)) result buffer.new }
    {
        let at = self.phase().place() as usize;
        let before = 1 + u32::from(self.rows) + u32::from(self.findings);
        put_numbers(buffer, at, b'Z', &[before]);
        ClosedLeaf::of(self.heading, self.rows)
    }
}

// The first rest of a finding, 0 where the row misses.
fn rest_or_zero(finding: &Finding) -> u32
    ensures { result ≡ unwrap_or (verdict_rest finding.now.verdict) 0 }
{
    finding.verdict.rest().unwrap_or(0)
}

// The points of a finding. As the result of a call they are known to fit four bytes.
fn points(finding: &Finding) -> u32
    ensures { result ≡ finding.now.points }
{
    finding.points
}

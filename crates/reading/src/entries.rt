// Entries taken from the bytes that follow their kind byte, once the phase and the kind are known
// to agree.
ghost use Rattle.std.specs.Prelude.{◌≡◌, ◌≤◌, ◌∷◌, IfOk};
ghost use Rattle.rows.specs.Answers.{refusal, first_refusal};
ghost use Rattle.rows.specs.Times.{horizon};
ghost use Rattle.leaves.specs.Entries.{letter_F, letter_R, letter_A, letter_Z};
ghost use Rattle.reading.specs.Checks.{
  heading_entry_checks,
  row_entry_checks,
  finding_entry_checks,
  end_entry_checks,
};
ghost use Rattle.reading.specs.Grammar.{TakesFindings};
ghost use Rattle.reading.specs.Stepping.{TakesEntry, reading};
ghost use Rattle.reading.specs.declared.phases.Phase.{Phase};

use crate::bodies::{check_length, finding_fields, heading_fields, number_at, row_fields};
use crate::phases::Phase;
use leaves::{END_SIZE, Entry, FINDING_SIZE, HEADING_SIZE, Heading, ROW_SIZE, judge_finding};
use rows::{Fault, MOST_ROWS, Refusal};

// An entry that was taken, the phase after it, and the bytes that are left.
#[derive(Drop)]
pub(crate) struct Taken<'a> {
    pub(crate) entry: Entry,
    pub(crate) phase: Phase,
    pub(crate) left: &'a [u8],
}

// The heading, into the rows.
pub(crate) fn heading_entry(body: &[u8], at: u32) -> Result<Taken<'_>, Fault>
    requires { at ≤ horizon }
    ensures answered { refusal result ≡ first_refusal (heading_entry_checks at body.now) }
    ensures taken { IfOk result (λ t.
        TakesEntry (reading Phase.Opening (letter_F ∷ body.now)) t.entry
        (reading t.phase t.left.now)) }
{
    check_length(body, at, HEADING_SIZE)?;
    let heading = heading_fields(body).judge(at)?;
    Ok(Taken {
        entry: Entry::Heading(heading),
        phase: Phase::Rows { heading, rows: 0 },
        left: &body[HEADING_SIZE..],
    })
}

// A row after so many others.
pub(crate) fn row_entry(
    body: &[u8],
    at: u32,
    heading: Heading,
    rows: u8,
) -> Result<Taken<'_>, Fault>
    requires { at ≤ horizon }
    ensures answered { refusal result
        ≡ first_refusal (row_entry_checks heading.frame rows at body.now) }
    ensures taken { IfOk result (λ t.
        TakesEntry (reading (Phase.Rows heading rows) (letter_R ∷ body.now)) t.entry
        (reading t.phase t.left.now)) }
{
    if usize::from(rows) >= MOST_ROWS {
        return Err(Refusal::FullTable.at(at));
    }
    check_length(body, at, ROW_SIZE)?;
    let row = row_fields(body).judge_on(&heading.frame(), at)?;
    let rows = rows + 1;
    Ok(Taken {
        entry: Entry::Row(row),
        phase: Phase::Rows { heading, rows },
        left: &body[ROW_SIZE..],
    })
}

// The finding about one of so many rows, after so many other findings.
pub(crate) fn finding_entry(
    body: &[u8],
    at: u32,
    heading: Heading,
    rows: u8,
    findings: u8,
) -> Result<Taken<'_>, Fault>
    requires { at ≤ horizon }
    ensures answered { refusal result
        ≡ first_refusal (finding_entry_checks rows findings at body.now) }
    ensures taken { IfOk result (λ t. (p : Phase) → TakesFindings p heading rows findings →
        TakesEntry (reading p (letter_A ∷ body.now)) t.entry (reading t.phase t.left.now)) }
{
    if findings >= rows {
        return Err(Refusal::Miscount.at(at));
    }
    check_length(body, at, FINDING_SIZE)?;
    let finding = finding_fields(body);
    judge_finding(&finding, at)?;
    let findings = findings + 1;
    Ok(Taken {
        entry: Entry::Finding(finding),
        phase: Phase::Findings {
            heading,
            rows,
            findings,
        },
        left: &body[FINDING_SIZE..],
    })
}

// The end, after so many rows and findings.
pub(crate) fn end_entry(
    body: &[u8],
    at: u32,
    heading: Heading,
    rows: u8,
    findings: u8,
) -> Result<Taken<'_>, Fault>
    requires near { at ≤ horizon }
    requires orderly { findings ≤ rows }
    ensures answered { refusal result
        ≡ first_refusal (end_entry_checks rows findings at body.now) }
    ensures taken { IfOk result (λ t. (p : Phase) → TakesFindings p heading rows findings →
        TakesEntry (reading p (letter_Z ∷ body.now)) t.entry (reading t.phase t.left.now)) }
{
    if findings < rows {
        return Err(Refusal::Miscount.at(at));
    }
    check_length(body, at, END_SIZE)?;
    let number = number_at(body, 0);
    if number != 1 + u32::from(rows) + u32::from(findings) {
        return Err(Refusal::Miscount.at(at));
    }
    Ok(Taken {
        entry: Entry::End(number),
        phase: Phase::Closed { heading, rows },
        left: &body[END_SIZE..],
    })
}

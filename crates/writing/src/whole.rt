// A whole leaf filed by one call.
ghost use Rattle.std.specs.Prelude.{ℕ, ◌≡◌, ◌+◌, ◌*◌, ◌≤◌, false, map, length, position, take, List, IsOk, IfOk, OnOk};
ghost use Rattle.std.specs.Prelude.{OnErr};
ghost use Rattle.std.specs.List.{All, AllPass};
ghost use Rattle.rows.specs.Answers.{answer, refusal, checked, first_refusal, gives};
ghost use Rattle.rows.specs.Books.{is_off};
ghost use Rattle.rows.specs.Counting.{is_on_frame};
ghost use Rattle.rows.specs.Lists.{written};
ghost use Rattle.rows.specs.Times.{most_rows};
ghost use Rattle.leaves.specs.Contents.{Contents, contents, encoding, IsLawful};
ghost use Rattle.leaves.specs.Entries.{row_size, finding_size, row_place, finding_place, leaf_length};
ghost use Rattle.leaves.specs.Judging.{is_bad_finding};
ghost use Rattle.leaves.specs.declared.entries.Entry.{Entry};
ghost use Rattle.reading.specs.Phases.{place_of, rows_in, findings_in, frame_in};
ghost use Rattle.reading.specs.Whole.{Fits};
ghost use Rattle.writing.specs.Filing.{FilesAll, IsFollowed, IsWholeInTurn};
ghost use Rattle.writing.specs.Whole.{AreOf, IsFiled, whole_row_checks, whole_finding_checks, file_checks};
ghost use Rattle.writing.specs.Whole.{file_numbers_checks};

use crate::taking_findings::FindingsLeaf;
use crate::taking_rows::RowsLeaf;
use leaves::{Heading, HeadingNumbers, judge_finding};
use reading::Phase;
use rows::{Fault, Finding, FrameNumbers, MOST_ROWS, Refusal, Row};

/// Files a whole leaf at the first byte of a buffer: its heading, its rows and as many findings, and
/// writes no other byte. Answers the length of the leaf in bytes (docs/FORMAT.md, Writing).
///
/// Everything is checked before anything is written. Refused with the first of these that applies:
/// 9, full table, at 551; 8, off frame, at the place of the first row that is; 16, miscount, at the
/// first finding too many or at the end that comes too early; 17, bad finding, at the place of the
/// first that is; 19, short buffer, at 0. A refusal leaves the buffer as it was.
pub fn file(
    heading: Heading,
    rows: &[Row],
    findings: &[Finding],
    buffer: &mut [u8],
) -> Result<usize, Fault>
    ensures answered { answer (λ n. n) result
        ≡ checked (file_checks heading.frame rows.now findings.now (length buffer.old))
        (leaf_length (length rows.now)) }
    ensures filed { IfOk result (λ n. IsFiled (contents heading rows.now findings.now)
        buffer.old buffer.new n) }
    ensures refused { OnErr result (buffer.new ≡ buffer.old) }
    ensures always { IsLawful (contents heading rows.now findings.now) →
        length (encoding (contents heading rows.now findings.now)) ≤ length buffer.old →
        IsOk result }
    ensures again { (bytes : List ℕ) →
        Fits bytes (gives (contents heading rows.now findings.now)) →
        length bytes ≤ length buffer.old →
        IsOk result × (buffer.new ≡ written buffer.old 0 bytes) }
    ensures turn { IsWholeInTurn }
    ensures followed { IsFollowed }
{
    check_whole(heading, rows, findings, buffer.len())?;
    let leaf = put_rows(RowsLeaf::opened(heading, buffer), rows, buffer);
    let leaf = put_findings(leaf.turn(), findings, buffer);
    let leaf = leaf.put_end(buffer);
    Ok(leaf.phase().place() as usize)
}

/// Files a whole leaf with the heading of these numbers, which nobody has judged, as `file` does.
/// Refused with the first of these that applies: 1, bad frame, 20, unknown bound, and 3, bad accuracy,
/// at 0; then as `file` is. A refusal leaves the buffer as it was.
pub fn file_numbers(
    numbers: HeadingNumbers,
    rows: &[Row],
    findings: &[Finding],
    buffer: &mut [u8],
) -> Result<usize, Fault>
    ensures answered { answer (λ n. n) result
        ≡ checked (file_numbers_checks numbers rows.now findings.now (length buffer.old))
        (leaf_length (length rows.now)) }
    ensures filed { IfOk result (λ n. (c : Contents) × AreOf numbers rows.now findings.now c
        × IsFiled c buffer.old buffer.new n) }
    ensures refused { OnErr result (buffer.new ≡ buffer.old) }
    ensures always { (c : Contents) → AreOf numbers rows.now findings.now c → IsLawful c →
        length (encoding c) ≤ length buffer.old → IsOk result }
    ensures again { (bytes : List ℕ) (c : Contents) → Fits bytes (gives c) →
        AreOf numbers rows.now findings.now c → length bytes ≤ length buffer.old →
        IsOk result × (buffer.new ≡ written buffer.old 0 bytes) }
{
    file(numbers.judge(0)?, rows, findings, buffer)
}

// What is checked of a whole leaf for a buffer of some size.
fn check_whole(
    heading: Heading,
    rows: &[Row],
    findings: &[Finding],
    size: usize,
) -> Result<(), Fault>
    ensures { answer (λ u. u) result
        ≡ checked (file_checks heading.frame rows.now findings.now size) tt }
{
    check_rows(heading, rows)?;
    check_findings(heading, rows.len() as u8, findings)?;
    let closed = Phase::Closed {
        heading,
        rows: rows.len() as u8,
    };
    if size < closed.place() as usize {
        return Err(Refusal::ShortBuffer.at(0));
    }
    Ok(())
}

// What is checked of the rows of a leaf.
fn check_rows(heading: Heading, rows: &[Row]) -> Result<(), Fault>
    ensures answered { refusal result ≡ first_refusal (whole_row_checks heading.frame rows.now) }
    ensures few { OnOk result (length rows.now ≤ most_rows) }
{
    if rows.len() > MOST_ROWS {
        return Err(Refusal::FullTable.at(row_place(heading, MOST_ROWS as u8)));
    }
    match first_off(heading.frame, rows) {
        Some(i) => Err(Refusal::OffFrame.at(row_place(heading, i as u8))),
        None => Ok(()),
    }
}

// Where the next entry begins after the heading and so many rows.
fn row_place(heading: Heading, rows: u8) -> u32
    ensures { result ≡ row_place rows }
{
    Phase::Rows { heading, rows }.place()
}

// Where the next entry begins after so many rows and findings.
fn finding_place(heading: Heading, rows: u8, findings: u8) -> u32
    ensures { result ≡ finding_place rows findings }
{
    Phase::Findings {
        heading,
        rows,
        findings,
    }
    .place()
}

// The first row that is off the frame.
fn first_off(frame: FrameNumbers, rows: &[Row]) -> Option<usize>
    ensures { result ≡ position (is_off frame) rows.now }
{
    rows.iter().position(|row| !row.divides(frame.ticks))
}

// What is checked of the findings of a leaf of so many rows.
fn check_findings(heading: Heading, rows: u8, findings: &[Finding]) -> Result<(), Fault>
    requires { rows ≤ most_rows }
    ensures answered { refusal result ≡ first_refusal (whole_finding_checks rows findings.now) }
{
    if findings.len() != usize::from(rows) {
        let first = findings.len().min(usize::from(rows)) as u8;
        return Err(Refusal::Miscount.at(finding_place(heading, rows, first)));
    }
    match first_bad(findings) {
        Some(i) => Err(Refusal::BadFinding.at(finding_place(heading, rows, i as u8))),
        None => Ok(()),
    }
}

// The first finding that cannot be filed.
fn first_bad(findings: &[Finding]) -> Option<usize>
    ensures { result ≡ position is_bad_finding findings.now }
{
    findings
        .iter()
        .position(|finding| judge_finding(finding, 0).is_err())
}

// Writes rows behind the heading, in their order.
fn put_rows(leaf: RowsLeaf, rows: &[Row], buffer: &mut [u8]) -> RowsLeaf
    requires empty { rows_in leaf ≡ 0 }
    requires few { length rows.now ≤ most_rows }
    requires on { AllPass (is_on_frame (frame_in leaf).ticks) rows.now }
    requires room { place_of leaf + (1 + row_size) * length rows.now ≤ length buffer.old }
    ensures { FilesAll leaf buffer.old (map Entry.Row rows.now) result buffer.new }
{
    let mut leaf = leaf;
    for row in rows {
        leaf.put_row(row, buffer);
    }
    leaf
}

// Writes findings behind the rows, in their order.
fn put_findings(leaf: FindingsLeaf, findings: &[Finding], buffer: &mut [u8]) -> FindingsLeaf
    requires empty { findings_in leaf ≡ 0 }
    requires even { length findings.now ≡ rows_in leaf }
    requires good { All (λ f. is_bad_finding f ≡ false) findings.now }
    requires room { place_of leaf + (1 + finding_size) * length findings.now ≤ length buffer.old }
    ensures { FilesAll leaf buffer.old (map Entry.Finding findings.now) result buffer.new }
{
    let mut leaf = leaf;
    for finding in findings {
        leaf.put_finding(finding, buffer);
    }
    leaf
}

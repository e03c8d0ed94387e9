// The worked leaf, byte for byte as docs/FORMAT.md has it: filed in turn, filed at once, read.
use crate::building::{heading, meets, row};
use leaves::HeadingNumbers;
use reading::read;
use rows::{Fault, Finding, Row};
use writing::{ClosedLeaf, FindingsLeaf, RowsLeaf, begin, file_numbers};

// Three rows counted by the linear tail of accuracy 3 at frame 12: 90 bytes, and a byte to spare.
pub(crate) const WORKED: [u8; 91] = [
    0x46, 0, 0, 0, 12, 1, 3, // F
    0x52, 0, 0, 0, 1, 0, 0, 0, 4, 0, 0, 0, 4, 0, 0, 0, 0, // R
    0x52, 0, 0, 0, 2, 0, 0, 0, 6, 0, 0, 0, 6, 0, 0, 0, 1, // R
    0x52, 0, 0, 0, 3, 0, 0, 0, 12, 0, 0, 0, 12, 0, 0, 0, 0, // R
    0x41, 0, 0, 0, 1, 0, 0, 0, 1, // A
    0x41, 0, 0, 0, 3, 0, 0, 0, 1, // A
    0x41, 0, 0, 0, 11, 0, 0, 0, 4, // A
    0x5A, 0, 0, 0, 7, // Z
    0xEE,
];

// The rows of the worked leaf.
fn worked_rows() -> [Row; 3] {
    [row(1, 4, 4, 0), row(2, 6, 6, 1), row(3, 12, 12, 0)]
}

// The findings of the worked leaf.
fn worked_findings() -> [Finding; 3] {
    [meets(1, 1), meets(3, 1), meets(11, 4)]
}

// Files rows behind those that are filed.
fn file_rows(leaf: &mut RowsLeaf, rows: &[Row], buffer: &mut [u8]) -> Result<(), Fault> {
    for row in rows {
        leaf.row(row, buffer)?;
    }
    Ok(())
}

// Files findings behind those that are filed.
fn file_findings(
    leaf: &mut FindingsLeaf,
    findings: &[Finding],
    buffer: &mut [u8],
) -> Result<(), Fault> {
    for finding in findings {
        leaf.finding(finding, buffer)?;
    }
    Ok(())
}

// A leaf filed in turn, each state by a name of its own: .ci/beside puts misuses of a state behind
// the lines that begin one, and looks that none of them compiles.
fn in_turn(rows: &[Row], findings: &[Finding], buffer: &mut [u8]) -> Result<ClosedLeaf, Fault> {
    let mut rows_leaf = begin(heading(12, 1, 3).judge(0)?, buffer)?;
    file_rows(&mut rows_leaf, rows, buffer)?;
    let mut findings_leaf = rows_leaf.turn();
    file_findings(&mut findings_leaf, findings, buffer)?;
    let closed_leaf = findings_leaf.close(buffer)?;
    Ok(closed_leaf)
}

// Where the worked leaf ends that is filed in turn, and its buffer.
fn filed_in_turn() -> Result<(u32, [u8; 91]), Fault> {
    let mut buffer = [0xEE; 91];
    let leaf = in_turn(&worked_rows(), &worked_findings(), &mut buffer)?;
    Ok((leaf.phase().place(), buffer))
}

// What the worked leaf is answered that is filed at once, and its buffer.
fn filed_at_once() -> (Result<usize, Fault>, [u8; 91]) {
    let mut buffer = [0xEE; 91];
    let (rows, findings) = (worked_rows(), worked_findings());
    let answer = file_numbers(heading(12, 1, 3), &rows, &findings, &mut buffer);
    (answer, buffer)
}

// Filed in turn and at once, into buffers with a byte to spare.
#[test]
fn the_worked_leaf_is_written(rt: HostRuntime) {
    assert!(rt; filed_in_turn() == Ok((90, WORKED)));
    assert!(rt; filed_at_once() == (Ok(90), WORKED));
}

// The heading of the worked leaf, its number of rows, whether it has none, and whether the bytes of
// its rows and of its findings are those that stand there.
fn told() -> Result<(HeadingNumbers, usize, [bool; 3]), Fault> {
    let leaf = read(&WORKED[..90])?;
    let stand = [
        leaf.is_empty(),
        leaf.row_bytes() == &WORKED[7..58],
        leaf.finding_bytes() == &WORKED[58..85],
    ];
    Ok((leaf.heading().numbers(), leaf.len(), stand))
}

// The row and the finding of a rank in the worked leaf.
fn ranked(rank: usize) -> Result<(Option<Row>, Option<Finding>), Fault> {
    let leaf = read(&WORKED[..90])?;
    Ok((leaf.row(rank), leaf.finding(rank)))
}

#[test]
fn the_worked_leaf_is_read(rt: HostRuntime) {
    assert!(rt; told() == Ok((heading(12, 1, 3), 3, [false, true, true])));
    let ([a, b, e], [first, second, third]) = (worked_rows(), worked_findings());
    let wanted = [
        Ok((Some(a), Some(first))),
        Ok((Some(b), Some(second))),
        Ok((Some(e), Some(third))),
    ];
    assert!(rt; [ranked(1), ranked(2), ranked(3)] == wanted);
    let past = [ranked(0), ranked(4), ranked(usize::MAX)];
    assert!(rt; past == [Ok((None, None)); 3]);
}

// Two leaves of one table beside each other.
ghost use Rattle.std.specs.Prelude.{◌≡◌, ◌++◌, map, codes, string_bytes, Some, IfOk, OnOk, IfErr, if◌then◌else◌};
ghost use Rattle.rows.specs.Judging.{plain};
ghost use Rattle.rows.specs.Found.{tells, verdict_rest};
ghost use Rattle.leaves.specs.Contents.{Contents};
ghost use Rattle.reading.specs.Leaves.{Holds};
ghost use Rattle.grids.specs.Shown.{shown_of};
ghost use Rattle.grids.specs.CsvFields.{headings_of};
ghost use Rattle.views.specs.Compared.{AreCompared, IsComparison, IsComparisonOf, compared_columns, compared_head};
ghost use Rattle.views.specs.Compared.{compared_rows, compared_texts, do_part, frame_line, later_text, named_line};
ghost use Rattle.views.specs.Leaves.{name_among};
ghost use Rattle.views.specs.Ranked.{shown_rows};
ghost use Rattle.views.specs.Troubles.{Fails, IsTroubleOf, TellsDamage, TellsDifference, Writes, of_leaves};

use crate::damage::Damage;
use crate::differences::first_difference;
use crate::inputs::read_whole;
use crate::leaf_cells::{cell, push_row, rest_cell};
use crate::outputs::write_out;
use crate::troubles::Trouble;
use grids::{Cell, Grid, aligned};
use reading::{Leaf, read};
use rows::{Fault, Finding, Row, Verdict};
use std::alloc::{AllocError, Global};
use std::io::{Read, Write};
use task_tables::Printable;

// The columns of a comparison.
const COLUMNS: [&str; 11] = [
    "rank",
    "work",
    "deadline",
    "period",
    "jitter",
    "A rest",
    "B rest",
    "B later by",
    "A points",
    "B points",
    "verdicts",
];

/// Sets two leaves of one table beside each other, row by row, and says where their verdicts part
/// (docs/PROGRAMS.md, `yabreznul compare`). The names are those of the leaves.
///
/// A damaged leaf is refused, the first before the second, and so are leaves of different tables; nothing is
/// written then.
pub fn compare<A: Read, B: Read, W: Write>(
    alloc: Global,
    names: [&str; 2],
    first: &mut A,
    second: &mut B,
    writer: &mut W,
) -> Result<(), Trouble>
    ensures written { OnOk result (Writes
        (IsComparisonOf (name_among names.entry 0) (A.remaining first.old) (name_among names.entry 1)
        (B.remaining second.old))
        (W.contents writer.old) (W.contents writer.new)) }
    ensures failed { IfErr result (Fails
        (IsComparisonOf (name_among names.entry 0) (A.remaining first.old) (name_among names.entry 1)
        (B.remaining second.old))
        (of_leaves (name_among names.entry 0) (A.remaining first.old) (name_among names.entry 1)
        (B.remaining second.old))
        (W.contents writer.old) (W.contents writer.new)) }
{
    match comparison(alloc, names, first, second) {
        Ok(text) => write_out(writer, &text),
        Err(trouble) => Err(trouble),
    }
}

// What is told of what two readers hold.
fn comparison<A: Read, B: Read>(
    alloc: Global,
    names: [&str; 2],
    first: &mut A,
    second: &mut B,
) -> Result<Vec<u8>, Trouble>
    ensures text { IfOk result (λ text. IsComparisonOf (name_among names.entry 0) (A.remaining first.old)
        (name_among names.entry 1) (B.remaining second.old) text.items) }
    ensures failed { IfErr result (IsTroubleOf
        (of_leaves (name_among names.entry 0) (A.remaining first.old) (name_among names.entry 1)
        (B.remaining second.old))) }
{
    let first_bytes = read_whole(alloc, first)?;
    let second_bytes = read_whole(alloc, second)?;
    compare_bytes(alloc, names[0], &first_bytes, names[1], &second_bytes)
}

// What is told of bytes of two names.
fn compare_bytes(
    alloc: Global,
    first_name: &str,
    first: &[u8],
    second_name: &str,
    second: &[u8],
) -> Result<Vec<u8>, Trouble>
    ensures text { IfOk result (λ text.
        IsComparisonOf first_name.now (Some first.now) second_name.now (Some second.now) text.items) }
    ensures failed { IfErr result (IsTroubleOf
        (of_leaves first_name.now (Some first.now) second_name.now (Some second.now))) }
{
    match read(first) {
        Ok(one) => match read(second) {
            Ok(other) => compare_leaves(alloc, first_name, &one, second_name, &other),
            Err(fault) => Err(damaged(alloc, second_name, second, fault)),
        },
        Err(fault) => Err(damaged(alloc, first_name, first, fault)),
    }
}

// What is told of a leaf that is damaged.
fn damaged(alloc: Global, name: &str, bytes: &[u8], fault: Fault) -> Trouble
    ensures { TellsDamage name.now fault result }
{
    match Damage::of(alloc, name, bytes, fault) {
        Ok(damage) => Trouble::Damaged(damage),
        Err(error) => Trouble::Memory(error),
    }
}

// What is told of two leaves.
fn compare_leaves(
    alloc: Global,
    first_name: &str,
    first: &Leaf<'_>,
    second_name: &str,
    second: &Leaf<'_>,
) -> Result<Vec<u8>, Trouble>
    ensures text { IfOk result (λ text. (c d : Contents) → Holds first.now c → Holds second.now d →
        AreCompared first_name.now second_name.now text.items c d) }
    ensures failed { IfErr result (λ t. (c d : Contents) → Holds first.now c → Holds second.now d →
        TellsDifference c d t) }
{
    match first_difference(first, second) {
        Some(difference) => Err(Trouble::Different(difference)),
        None => match compared(alloc, first_name, first, second_name, second) {
            Ok(text) => Ok(text),
            Err(error) => Err(Trouble::Memory(error)),
        },
    }
}

// Two leaves of one table, as text.
fn compared(
    alloc: Global,
    first_name: &str,
    first: &Leaf<'_>,
    second_name: &str,
    second: &Leaf<'_>,
) -> Result<Vec<u8>, AllocError>
    ensures { IfOk result (λ text. (c d : Contents) → Holds first.now c → Holds second.now d →
        IsComparison first_name.now second_name.now c d text.items) }
{
    let table = compared_table(alloc, first, second)?;
    let ranks = parted_ranks(alloc, first, second)?;
    let mut text = heads(alloc, first_name, first, second_name, second)?.into_bytes();
    text.extend_from_slice(&aligned(alloc, &table)?)?;
    text.extend_from_slice(parting(alloc, &ranks)?.as_bytes())?;
    Ok(text)
}

// What stands above a comparison: both leaves by name and bound, then the frame and the number of rows.
fn heads(
    alloc: Global,
    first_name: &str,
    first: &Leaf<'_>,
    second_name: &str,
    second: &Leaf<'_>,
) -> Result<String, AllocError>
    ensures { IfOk result (λ text. (c d : Contents) → Holds first.now c → Holds second.now d →
        string_bytes text ≡ compared_head first_name.now second_name.now c d) }
{
    let one = named_line(alloc, "A: ", first_name, first)?;
    let other = named_line(alloc, "B: ", second_name, second)?;
    let below = frame_line(alloc, first)?;
    format!(in alloc; "{one}{other}{below}")
}

// The line of a leaf: a mark, its name and its bound.
fn named_line(alloc: Global, mark: &str, name: &str, leaf: &Leaf<'_>) -> Result<String, AllocError>
    ensures { IfOk result (λ text. (c : Contents) → Holds leaf.now c →
        string_bytes text ≡ named_line mark.now name.now c) }
{
    let (name, bound) = (Printable(name), leaf.heading().bound);
    format!(in alloc; "{mark}{name}, {bound}\n")
}

// The line of the frame, with how many rows there are.
fn frame_line(alloc: Global, leaf: &Leaf<'_>) -> Result<String, AllocError>
    ensures { IfOk result (λ text. (c : Contents) → Holds leaf.now c → string_bytes text ≡ frame_line c) }
{
    let (frame, rows) = (leaf.heading().frame.ticks, leaf.len());
    format!(in alloc; "frame {frame}, {rows} rows\n")
}

// The rows of two leaves beside each other, as cells.
fn compared_table(alloc: Global, first: &Leaf<'_>, second: &Leaf<'_>) -> Result<Grid, AllocError>
    ensures columns { IfOk result (λ table. headings_of table.headings.items ≡ compared_columns) }
    ensures rows { IfOk result (λ table. (c d : Contents) → Holds first.now c → Holds second.now d →
        shown_rows table.rows.items ≡ compared_rows c d) }
{
    let mut table = Grid::new(alloc, &COLUMNS)?;
    push_compared(alloc, &mut table.rows, first, second)?;
    Ok(table)
}

// Puts the rows of two leaves below others.
fn push_compared(
    alloc: Global,
    rows: &mut Vec<Vec<Cell>>,
    first: &Leaf<'_>,
    second: &Leaf<'_>,
) -> Result<(), AllocError>
    ensures { OnOk result ((c d : Contents) → Holds first.now c → Holds second.now d →
        shown_rows rows.new.items ≡ shown_rows rows.old.items ++ compared_rows c d) }
{
    let pairs = first.rows_with_findings().zip(second.rows_with_findings());
    for (i, ((row, one), (_, other))) in pairs.enumerate() {
        rows.push(compared_row(alloc, i + 1, &row, &one, &other)?)?;
    }
    Ok(())
}

// A row with both findings, as cells.
fn compared_row(
    alloc: Global,
    rank: usize,
    row: &Row,
    one: &Finding,
    other: &Finding,
) -> Result<Vec<Cell>, AllocError>
    ensures { IfOk result (λ cells. map shown_of cells.items
        ≡ compared_texts rank (plain row.now) (tells one.now) (tells other.now)) }
{
    let mut cells = Vec::new(alloc);
    push_row(&mut cells, rank, row)?;
    cells.push(rest_cell(alloc, one.verdict)?)?;
    cells.push(rest_cell(alloc, other.verdict)?)?;
    cells.push(later_cell(alloc, one.verdict, other.verdict)?)?;
    cells.push(cell(one.points))?;
    cells.push(cell(other.points))?;
    cells.push(word_cell(alloc, part(one.verdict, other.verdict))?)?;
    Ok(cells)
}

// The word for verdicts that part, or do not.
#[tactic(auto, using(crate::proofs::Cells::text_shown))]
fn word_cell(alloc: Global, parts: bool) -> Result<Cell, AllocError>
    ensures { IfOk result (λ cell. shown_of cell ≡ (if parts then codes "part" else codes "same")) }
{
    if parts {
        Cell::of_text(alloc, "part")
    } else {
        Cell::of_text(alloc, "same")
    }
}

// The ranks at which the verdicts of two leaves part.
fn parted_ranks(
    alloc: Global,
    first: &Leaf<'_>,
    second: &Leaf<'_>,
) -> Result<Vec<usize>, AllocError> {
    let mut ranks = Vec::new(alloc);
    let pairs = first.rows_with_findings().zip(second.rows_with_findings());
    for (i, ((_, one), (_, other))) in pairs.enumerate() {
        if part(one.verdict, other.verdict) {
            ranks.push(i + 1)?;
        }
    }
    Ok(ranks)
}

// Whether a row meets by one of two verdicts and misses by the other.
fn part(one: Verdict, other: Verdict) -> bool
    ensures { result ≡ do_part (verdict_rest one) (verdict_rest other) }
{
    match (one, other) {
        (Verdict::Meets(_), Verdict::Misses) | (Verdict::Misses, Verdict::Meets(_)) => true,
        _ => false,
    }
}

// By how much the second first rest is later: negative, where it is earlier.
fn later_cell(alloc: Global, one: Verdict, other: Verdict) -> Result<Cell, AllocError>
    ensures { IfOk result (λ cell. shown_of cell ≡ later_text (verdict_rest one) (verdict_rest other)) }
{
    match (one, other) {
        (Verdict::Meets(a), Verdict::Meets(b)) if a <= b => Ok(cell(b - a)),
        (Verdict::Meets(a), Verdict::Meets(b)) => {
            let earlier = a.saturating_sub(b);
            Ok(Cell::Text(format!(in alloc; "-{earlier}")?))
        }
        _ => Ok(Cell::Nothing),
    }
}

// The line that says at which ranks the verdicts part.
fn parting(alloc: Global, ranks: &[usize]) -> Result<String, AllocError> {
    let mut line = String::from_str(alloc, "the verdicts part ")?;
    match ranks {
        [] => line.push_str("nowhere\n")?,
        [rank] => write!(line, "at rank {rank}\n")?,
        [first, others @ ..] => {
            write!(line, "at ranks {first}")?;
            for rank in others {
                write!(line, ", {rank}")?;
            }
            line.push_str("\n")?;
        }
    }
    Ok(line)
}

// What leaves tell programs: a record for each row.
ghost use Rattle.std.specs.Prelude.{◌≡◌, ◌++◌, map, string_bytes, IfOk, OnOk};
ghost use Rattle.rows.specs.Judging.{plain};
ghost use Rattle.rows.specs.Refusals.{number, words};
ghost use Rattle.rows.specs.Found.{tells};
ghost use Rattle.grids.specs.CsvFields.{field_of};
ghost use Rattle.views.specs.Cells.{damage_fields, heading_record_fields, record_fields, row_cells};

use crate::damage::Damage;
use crate::leaf_cells::{cell, first_rest, number_cell, push_row};
use grids::Cell;
use leaves::Heading;
use rows::{Finding, Row};
use std::alloc::{AllocError, Global};

// The fields of a record, in order.
pub(crate) const FIELDS: [&str; 17] = [
    "leaf",
    "refused_number",
    "refused_words",
    "refused_at_byte",
    "bytes_around_hex",
    "bound",
    "accuracy",
    "frame_ticks",
    "rank",
    "work_ticks",
    "deadline_ticks",
    "period_ticks",
    "jitter_ticks",
    "meets",
    "first_rest_ticks",
    "response_ticks",
    "points_tested",
];

// The record of a damaged leaf: its name, the refusal, and the bytes around the place.
#[tactic(auto, using(crate::proofs::Cells::text_field))]
pub(crate) fn damage_record(
    alloc: Global,
    name: &str,
    damage: &Damage,
) -> Result<Vec<Cell>, AllocError>
    ensures { IfOk result (λ cells. map field_of cells.items
        ≡ damage_fields name.now (number damage.now.fault.refusal) (words damage.now.fault.refusal) damage.now.fault.at
        (string_bytes damage.now.around)) }
{
    let refusal = damage.fault.refusal;
    Ok(vec![in alloc;
        Cell::of_text(alloc, name)?,
        Cell::Number(u64::from(refusal.number())),
        Cell::of_text(alloc, refusal.words())?,
        cell(damage.fault.at),
        Cell::of_text(alloc, &damage.around)?,
    ]?)
}

// What every record of a leaf begins with: its name, no refusal, and what its heading tells.
#[tactic(auto, using(crate::proofs::Cells::text_field))]
pub(crate) fn heading_record(
    alloc: Global,
    name: &str,
    heading: Heading,
) -> Result<Vec<Cell>, AllocError>
    ensures { IfOk result (λ cells. map field_of cells.items ≡ heading_record_fields name.now heading) }
{
    let (kind, accuracy) = heading.bound.plain();
    let accuracy = if kind.has_accuracies() {
        cell(accuracy)
    } else {
        Cell::Nothing
    };
    Ok(vec![in alloc;
        Cell::of_text(alloc, name)?,
        Cell::Nothing,
        Cell::Nothing,
        Cell::Nothing,
        Cell::Nothing,
        Cell::of_text(alloc, kind.name())?,
        accuracy,
        cell(heading.frame.ticks),
    ]?)
}

// The record of a row of a leaf.
#[tactic(auto, using(crate::proofs::Cells::record_told))]
pub(crate) fn row_record(
    alloc: Global,
    name: &str,
    heading: Heading,
    rank: usize,
    row: &Row,
    finding: &Finding,
) -> Result<Vec<Cell>, AllocError>
    ensures { IfOk result (λ cells. map field_of cells.items
        ≡ record_fields name.now heading rank (plain row.now) (tells finding.now)) }
{
    let mut cells = heading_record(alloc, name, heading)?;
    push_found(&mut cells, rank, row, finding)?;
    Ok(cells)
}

// Puts what is told of a row and its finding behind other cells.
fn push_found(
    cells: &mut Vec<Cell>,
    rank: usize,
    row: &Row,
    finding: &Finding,
) -> Result<(), AllocError>
    ensures { OnOk result (cells.new.items
        ≡ cells.old.items ++ row_cells rank (plain row.now) (tells finding.now)) }
{
    push_row(cells, rank, row)?;
    let rest = first_rest(finding.verdict);
    cells.push(Cell::Truth(rest.is_some()))?;
    cells.push(number_cell(rest))?;
    cells.push(number_cell(finding.response_bound(row)))?;
    cells.push(cell(finding.points))?;
    Ok(())
}

// What rows and findings tell, as cells.
ghost use Rattle.std.specs.Prelude.{◌≡◌, ◌++◌, ◌∷◌, [], map, decimal, IfOk, OnOk};
ghost use Rattle.rows.specs.Judging.{plain};
ghost use Rattle.rows.specs.Found.{tells, verdict_rest};
ghost use Rattle.grids.specs.Shown.{shown_of};
ghost use Rattle.grids.specs.declared.cells.Cell.TheVariants.{Number};
ghost use Rattle.views.specs.Cells.{leaf_texts, number_cells, number_or_nothing, number_text, rest_text, slack_left};

use grids::Cell;
use rows::{Finding, Numbers, Row, Verdict};
use std::alloc::{AllocError, Global};

// A number of 32 bits.
pub(crate) fn cell(number: u32) -> Cell
    ensures { result ≡ Number number }
{
    Cell::Number(u64::from(number))
}

// A number, where there is one.
pub(crate) fn number_cell(number: Option<u64>) -> Cell
    ensures cell { result ≡ number_or_nothing number }
    ensures shown { shown_of result ≡ number_text number }
{
    match number {
        Some(number) => Cell::Number(number),
        None => Cell::Nothing,
    }
}

// The first rest that a verdict carries, if there is one.
pub(crate) fn first_rest(verdict: Verdict) -> Option<u64>
    ensures { result ≡ verdict_rest verdict }
{
    verdict.rest().map(u64::from)
}

// A rest or a response, or the word that the row misses where there is none.
#[tactic(auto, using(crate::proofs::Cells::text_shown))]
pub(crate) fn time_cell(alloc: Global, time: Option<u64>) -> Result<Cell, AllocError>
    ensures { IfOk result (λ cell. shown_of cell ≡ rest_text time) }
{
    match time {
        Some(time) => Ok(Cell::Number(time)),
        None => Cell::of_text(alloc, "misses"),
    }
}

// The first rest that a verdict carries, or the word that the row misses.
pub(crate) fn rest_cell(alloc: Global, verdict: Verdict) -> Result<Cell, AllocError>
    ensures { IfOk result (λ cell. shown_of cell ≡ rest_text (verdict_rest verdict)) }
{
    time_cell(alloc, first_rest(verdict))
}

// What is left of a deadline behind a response, where there is one.
pub(crate) fn slack(deadline: u32, response: Option<u64>) -> Option<u64>
    ensures { result ≡ slack_left deadline response }
{
    Some(u64::from(deadline).saturating_sub(response?))
}

// Puts the rank of a row and its four numbers behind other cells.
pub(crate) fn push_row(cells: &mut Vec<Cell>, rank: usize, row: &Row) -> Result<(), AllocError>
    ensures { OnOk result (cells.new.items ≡ cells.old.items ++ Number rank ∷ number_cells (plain row.now)) }
{
    cells.push(Cell::Number(rank as u64))?;
    push_numbers(cells, row.numbers())
}

// Puts the four numbers of a task behind other cells.
pub(crate) fn push_numbers(cells: &mut Vec<Cell>, numbers: Numbers) -> Result<(), AllocError>
    ensures { OnOk result (cells.new.items ≡ cells.old.items ++ number_cells numbers) }
{
    cells.push(cell(numbers.work))?;
    cells.push(cell(numbers.deadline))?;
    cells.push(cell(numbers.period))?;
    cells.push(cell(numbers.jitter))?;
    Ok(())
}

// A row of a leaf as a person reads it: rank, four numbers, first rest, response, points.
pub(crate) fn leaf_row(
    alloc: Global,
    rank: usize,
    row: &Row,
    finding: &Finding,
) -> Result<Vec<Cell>, AllocError>
    ensures { IfOk result (λ cells. map shown_of cells.items ≡ leaf_texts rank (plain row.now) (tells finding.now)) }
{
    let mut cells = Vec::new(alloc);
    push_row(&mut cells, rank, row)?;
    cells.push(rest_cell(alloc, finding.verdict)?)?;
    cells.push(number_cell(finding.response_bound(row)))?;
    cells.push(cell(finding.points))?;
    Ok(cells)
}

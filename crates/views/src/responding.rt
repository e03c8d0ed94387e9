// The response times of a task table.
ghost use Rattle.std.specs.Prelude.{◌≡◌, length, map, count_by, is_some, string_bytes, IfErr, IfOk, OnOk};
ghost use Rattle.grids.specs.CsvFields.{headings_of};
ghost use Rattle.grids.specs.Shown.{shown_of};
ghost use Rattle.task_tables.specs.Tables.{table_names, table_numbers};
ghost use Rattle.views.specs.Ranked.{shown_rows};
ghost use Rattle.views.specs.Responded.{IsResponsesFor, IsResponsesText, TellsResponses, met_line, response_columns};
ghost use Rattle.views.specs.Responded.{response_texts, responses_told};
ghost use Rattle.views.specs.Troubles.{Fails, TellsFlaw, Writes, of_responses};

use crate::explained::explained;
use crate::leaf_cells::{number_cell, push_numbers, slack, time_cell};
use crate::outputs::write_out;
use crate::troubles::Trouble;
use brackets::response_times;
use grids::{Cell, Grid, aligned};
use rows::{MOST_ROWS, Numbers};
use std::alloc::{AllocError, Global};
use std::io::{Read, Write};
use task_tables::{TaskTable, read};

// The columns of a table of response times.
const COLUMNS: [&str; 8] = ["rank", "name", "C", "D", "T", "J", "response", "slack"];

/// Reads a task table and writes the response time of each row, in ticks from its release, with its slack,
/// and how many rows meet (docs/PROGRAMS.md, `yabreznul respond`). They are exact, and need no frame. It
/// flushes the writer.
///
/// Where something is refused, the first of these is told, and nothing is written: what cannot be taken of
/// the text, and 9, full table; then 4, idle row, 5, no window, 6, late deadline, and 7, long period, each
/// at the smallest rank that is so (docs/REFUSALS.md).
pub fn respond<R: Read, W: Write>(
    alloc: Global,
    reader: &mut R,
    writer: &mut W,
) -> Result<(), Trouble>
    ensures written { OnOk result (Writes (IsResponsesFor (R.remaining reader.old))
        (W.contents writer.old) (W.contents writer.new)) }
    ensures failed { IfErr result (Fails (IsResponsesFor (R.remaining reader.old))
        (of_responses (R.remaining reader.old)) (W.contents writer.old) (W.contents writer.new)) }
{
    match read(alloc, reader) {
        Ok(table) => match text_of(alloc, &table) {
            Ok(text) => write_out(writer, &text),
            Err(trouble) => Err(trouble),
        },
        Err(error) => Err(Trouble::Table(error)),
    }
}

// The text of the response times of a table.
fn text_of(alloc: Global, table: &TaskTable) -> Result<Vec<u8>, Trouble>
    ensures text { IfOk result (λ text. IsResponsesText table.now text.items) }
    ensures refused { IfErr result (λ t. TellsFlaw table.now t) }
{
    let mut list = [None; MOST_ROWS];
    match response_times(table.numbers(), &mut list) {
        Ok(rows) => match told(alloc, table, &list[..rows]) {
            Ok(text) => Ok(text),
            Err(error) => Err(Trouble::Memory(error)),
        },
        Err(fault) => Err(explained(alloc, table, fault)),
    }
}

// The text of a table with response times, one for each task.
fn told(alloc: Global, table: &TaskTable, responses: &[Option<u64>]) -> Result<Vec<u8>, AllocError>
    requires { length responses.now ≡ length (table_numbers table.now) }
    ensures { IfOk result (λ text. TellsResponses table.now responses.now text.items) }
{
    let grid = grid_of(alloc, table, responses)?;
    let mut text = aligned(alloc, &grid)?;
    text.extend_from_slice(foot(alloc, responses)?.as_bytes())?;
    Ok(text)
}

// The tasks with their response times, as cells.
fn grid_of(alloc: Global, table: &TaskTable, responses: &[Option<u64>]) -> Result<Grid, AllocError>
    requires { length responses.now ≡ length (table_numbers table.now) }
    ensures headings { IfOk result (λ grid. headings_of grid.headings.items ≡ response_columns) }
    ensures rows { IfOk result (λ grid. shown_rows grid.rows.items
        ≡ responses_told (table_names table.now) 0 (table_numbers table.now) responses.now) }
{
    let mut grid = Grid::new(alloc, &COLUMNS)?;
    for i in 0..responses.len() {
        let rank = i + 1;
        grid.push(row_of(
            alloc,
            rank,
            table.name(rank),
            table.numbers()[i],
            responses[i],
        )?)?;
    }
    Ok(grid)
}

// A task with its response time: rank, name and four numbers, then the response and the slack.
#[tactic(auto, using(crate::proofs::Cells::text_shown))]
fn row_of(
    alloc: Global,
    rank: usize,
    name: &str,
    numbers: Numbers,
    response: Option<u64>,
) -> Result<Vec<Cell>, AllocError>
    ensures { IfOk result (λ cells. map shown_of cells.items ≡ response_texts rank name.now numbers response) }
{
    let mut cells = Vec::new(alloc);
    cells.push(Cell::Number(rank as u64))?;
    cells.push(Cell::of_text(alloc, name)?)?;
    push_numbers(&mut cells, numbers)?;
    cells.push(time_cell(alloc, response)?)?;
    cells.push(number_cell(slack(numbers.deadline, response)))?;
    Ok(cells)
}

// What stands below the table: how many rows meet.
fn foot(alloc: Global, responses: &[Option<u64>]) -> Result<String, AllocError>
    ensures { IfOk result (λ text. string_bytes text ≡ met_line responses.now) }
{
    let (met, rows) = (count_responses(responses), responses.len());
    format!(in alloc; "{met} of {rows} rows meet in exact steps\n")
}

// How many of the response times there are: of a row that misses there is none.
fn count_responses(responses: &[Option<u64>]) -> usize
    ensures { result ≡ count_by is_some responses.now }
{
    responses
        .iter()
        .filter(|response| response.is_some())
        .count()
}

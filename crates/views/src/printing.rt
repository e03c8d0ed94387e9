// A table with all counts side by side, as text.
ghost use Rattle.std.specs.Prelude.{
  ◌≡◌,
  ◌<◌,
  ◌++◌,
  codes,
  decimal,
  flat_map,
  length,
  map,
  string_bytes,
  IfErr,
  IfOk,
  OnOk,
};
ghost use Rattle.rows.specs.Judging.{plain};
ghost use Rattle.rows.specs.Found.{tells, verdict_rest};
ghost use Rattle.grids.specs.Shown.{shown_of};
ghost use Rattle.grids.specs.CsvFields.{headings_of};
ghost use Rattle.brackets.specs.Counting.{gap};
ghost use Rattle.bounds.specs.Families.{family_word};
ghost use Rattle.views.specs.Cells.{bounded_texts, counted_texts};
ghost use Rattle.views.specs.Counted.{by_bounds};
ghost use Rattle.views.specs.Printed.{
  IsTableText,
  bound_part,
  count_columns,
  counts_told_at,
  first_told,
  found_at,
  head_text,
  kinds_of,
  points_column,
  rest_columns,
};
ghost use Rattle.views.specs.Ranked.{shown_rows};
ghost use Rattle.views.specs.Troubles.{Fails, Writes, of_nothing};

use crate::counted::Counted;
use crate::leaf_cells::{cell, number_cell, push_numbers, rest_cell, slack};
use crate::outputs::write_out;
use crate::troubles::Trouble;
use crate::utilisation::Utilisation;
use bounds::Family;
use brackets::Counts;
use filings::Filing;
use grids::{Cell, Grid, aligned};
use rows::{Finding, Row, count_met};
use std::alloc::{AllocError, Global};
use std::io::Write;

impl Counted {
    /// Writes the table with all counts side by side, how much of the processor it utilises, and how
    /// many rows meet by each count (docs/PROGRAMS.md, `yabreznul file`). It flushes the writer.
    pub fn write_table<W: Write>(&self, alloc: Global, writer: &mut W) -> Result<(), Trouble>
        ensures written { OnOk result (Writes (IsTableText self.now) (W.contents writer.old) (W.contents writer.new)) }
        ensures failed { IfErr result (Fails (IsTableText self.now) of_nothing
            (W.contents writer.old) (W.contents writer.new)) }
    {
        match self.text(alloc) {
            Ok(text) => write_out(writer, &text),
            Err(error) => Err(Trouble::Memory(error)),
        }
    }

    // What is written of the table.
    fn text(&self, alloc: Global) -> Result<Vec<u8>, AllocError>
        ensures { IfOk result (λ text. IsTableText self.now text.items) }
    {
        let table = self.table_of_counts(alloc)?;
        let mut text = self.head(alloc)?.into_bytes();
        text.extend_from_slice(&aligned(alloc, &table)?)?;
        text.extend_from_slice(self.foot(alloc)?.as_bytes())?;
        Ok(text)
    }

    // The line above the table: the frame and the bounds.
    fn head(&self, alloc: Global) -> Result<String, AllocError>
        ensures { IfOk result (λ text. string_bytes text ≡ head_text self.now) }
    {
        let frame = ticks(self.exact());
        let mut text = format!(in alloc; "frame {frame}")?;
        push_bounds(alloc, &mut text, self.bounded())?;
        text.push_str("\n")?;
        Ok(text)
    }

    // The rows with all counts, as cells.
    fn table_of_counts(&self, alloc: Global) -> Result<Grid, AllocError>
        ensures headings { IfOk result
            (λ grid. headings_of grid.headings.items ≡ count_columns (kinds_of self.now)) }
        ensures rows { IfOk result
            (λ grid. shown_rows grid.rows.items ≡ first_told (length self.now.rows) self.now) }
    {
        let headings = headings(alloc, self.bounded())?;
        let mut grid = Grid::new(alloc, &headings)?;
        for i in 0..self.exact().rows().len() {
            grid.push(self.row_at(alloc, i)?)?;
        }
        Ok(grid)
    }

    // The row at a place, counted from 0, with all counts.
    fn row_at(&self, alloc: Global, i: usize) -> Result<Vec<Cell>, AllocError>
        requires { i < length self.now.rows }
        ensures { IfOk result (λ cells. map shown_of cells.items ≡ counts_told_at i self.now) }
    {
        let bounded = self.bounded_at(alloc, i)?;
        let (rows, exact) = (self.exact().rows(), self.exact().findings());
        let rank = i + 1;
        counted_row(
            alloc,
            rank,
            self.task_table().name(rank),
            &rows[i],
            &exact[i],
            &bounded,
        )
    }

    // What the bounds found of the row at a place, counted from 0.
    fn bounded_at(&self, alloc: Global, i: usize) -> Result<Vec<Finding>, AllocError>
        ensures { IfOk result (λ found. map tells found.items ≡ found_at i (by_bounds self.now)) }
    {
        let mut found = Vec::new(alloc);
        for filing in self.bounded() {
            if let Some(finding) = filing.findings().get(i) {
                found.push(*finding)?;
            }
        }
        Ok(found)
    }

    // What stands below the table: how much of the processor it utilises, and how many rows meet by each
    // count.
    fn foot(&self, alloc: Global) -> Result<String, AllocError> {
        let (exact, rows) = (self.exact(), self.exact().rows());
        let utilisation = Utilisation::of(ticks(exact), rows);
        let (met, all) = (count_met(exact.findings()), rows.len());
        let mut text = format!(in alloc;
            "utilisation {utilisation}\n{met} of {all} rows meet in exact steps"
        )?;
        for filing in self.bounded() {
            let (family, _) = filing.bound().plain();
            let (met, name) = (count_met(filing.findings()), family.name());
            text.push_str(format!(in alloc; ", {met} of {all} by the {name}")?.as_str())?;
        }
        text.push_str("\n")?;
        Ok(text)
    }
}

// Puts the bounds of counts behind a text, each with a comma before it.
fn push_bounds(alloc: Global, text: &mut String, counts: &[Filing]) -> Result<(), AllocError>
    ensures { OnOk result (string_bytes text.new
        ≡ string_bytes text.old ++ flat_map bound_part (map (λ f. f.bound) counts.now)) }
{
    for filing in counts {
        let bound = filing.bound();
        text.push_str(format!(in alloc; ", {bound}")?.as_str())?;
    }
    Ok(())
}

// The columns of a table of counts.
fn headings(alloc: Global, counts: &[Filing]) -> Result<Vec<&'static str>, AllocError>
    ensures { IfOk result (λ headings. headings_of headings.items ≡ count_columns (map (λ f. f.bound.0) counts.now)) }
{
    let columns: [&'static str; 9] = [
        "rank",
        "name",
        "C",
        "D",
        "T",
        "J",
        "exact rest",
        "response",
        "slack",
    ];
    let mut headings: Vec<&'static str> = Vec::from_slice(alloc, &columns)?;
    push_rest_headings(&mut headings, counts)?;
    headings.push("exact points")?;
    push_points_headings(&mut headings, counts)?;
    Ok(headings)
}

// Puts the columns of the first rests by the bounds of counts behind others.
fn push_rest_headings(headings: &mut Vec<&'static str>, counts: &[Filing]) -> Result<(), AllocError>
    ensures { OnOk result (headings_of headings.new.items
        ≡ headings_of headings.old.items ++ flat_map rest_columns (map (λ f. f.bound.0) counts.now)) }
{
    for filing in counts {
        let (family, _) = filing.bound().plain();
        headings.push(rest_heading(family))?;
        headings.push("gap")?;
    }
    Ok(())
}

// Puts the columns of the points tested by the bounds of counts behind others.
fn push_points_headings(
    headings: &mut Vec<&'static str>,
    counts: &[Filing],
) -> Result<(), AllocError>
    ensures { OnOk result (headings_of headings.new.items
        ≡ headings_of headings.old.items ++ map points_column (map (λ f. f.bound.0) counts.now)) }
{
    for filing in counts {
        let (family, _) = filing.bound().plain();
        headings.push(points_heading(family))?;
    }
    Ok(())
}

// What the column of first rests by a bound of a kind is called.
fn rest_heading(family: Family) -> &'static str
    ensures { result.now ≡ family_word family ++ codes " rest" }
{
    match family {
        Family::ExactSteps => "exact rest",
        Family::LinearTail => "linear rest",
        Family::Staircase => "staircase rest",
    }
}

// What the column of points tested by a bound of a kind is called.
fn points_heading(family: Family) -> &'static str
    ensures { result.now ≡ points_column family }
{
    match family {
        Family::ExactSteps => "exact points",
        Family::LinearTail => "linear points",
        Family::Staircase => "staircase points",
    }
}

// A row with all counts: rank, name and four numbers, then what each count found.
#[tactic(auto, using(crate::proofs::Cells::text_shown))]
fn counted_row(
    alloc: Global,
    rank: usize,
    name: &str,
    row: &Row,
    exact: &Finding,
    bounded: &[Finding],
) -> Result<Vec<Cell>, AllocError>
    ensures { IfOk result (λ cells. map shown_of cells.items
        ≡ counted_texts rank name.now (plain row.now) (tells exact.now) (map tells bounded.now)) }
{
    let mut cells = Vec::new(alloc);
    cells.push(Cell::Number(rank as u64))?;
    cells.push(Cell::of_text(alloc, name)?)?;
    push_numbers(&mut cells, row.numbers())?;
    cells.push(rest_cell(alloc, exact.verdict)?)?;
    let response = exact.response_bound(row);
    cells.push(number_cell(response))?;
    cells.push(number_cell(slack(row.deadline, response)))?;
    push_rests(alloc, &mut cells, exact, bounded)?;
    cells.push(cell(exact.points))?;
    push_points(&mut cells, bounded)?;
    Ok(cells)
}

// Puts the first rests by bounds behind other cells, each with how much later it is than in exact steps.
fn push_rests(
    alloc: Global,
    cells: &mut Vec<Cell>,
    exact: &Finding,
    bounded: &[Finding],
) -> Result<(), AllocError>
    ensures { OnOk result (map shown_of cells.new.items ≡ map shown_of cells.old.items
        ++ flat_map (bounded_texts (tells exact.now)) (map tells bounded.now)) }
{
    for finding in bounded {
        cells.push(rest_cell(alloc, finding.verdict)?)?;
        cells.push(number_cell(gap(exact, finding)))?;
    }
    Ok(())
}

// Puts the points tested by bounds behind other cells.
fn push_points(cells: &mut Vec<Cell>, bounded: &[Finding]) -> Result<(), AllocError>
    ensures { OnOk result (map shown_of cells.new.items ≡ map shown_of cells.old.items
        ++ map (λ f. decimal f.points) (map tells bounded.now)) }
{
    for finding in bounded {
        cells.push(cell(finding.points))?;
    }
    Ok(())
}

// The length of the frame, in ticks.
fn ticks(filing: &Filing) -> u32
    ensures { result ≡ filing.now.frame.ticks }
{
    filing.table().frame().ticks()
}

// How much later the second first rest is than the first, of a row that meets by both counts.
fn gap(exact: &Finding, bounded: &Finding) -> Option<u64>
    ensures { result ≡ gap (verdict_rest exact.now.verdict) (verdict_rest bounded.now.verdict) }
{
    let counts = Counts {
        exact: *exact,
        bounded: *bounded,
    };
    counts.gap().map(u64::from)
}

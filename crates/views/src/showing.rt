// Leaves shown, as tables for people or as records for programs.
ghost use Rattle.std.specs.Prelude.{◌≡◌, ◌++◌, ◌∷◌, [], string_bytes, IfOk, OnOk, IfErr};
ghost use Rattle.rows.specs.Refusals.{number, words};
ghost use Rattle.leaves.specs.Contents.{Contents};
ghost use Rattle.reading.specs.Leaves.{Holds};
ghost use Rattle.grids.specs.CsvFields.{headings_of};
ghost use Rattle.views.specs.Added.{Adds, AddsHeld, GrowBy, GrowsRecords, GrowsText, IsCsvOf, IsDamageLine, IsShown};
ghost use Rattle.views.specs.Added.{KeepsSetup, field_names, layout_of, shown_headings, shown_records, text_added};
ghost use Rattle.views.specs.Cells.{damage_fields, leaf_texts, record_fields};
ghost use Rattle.views.specs.Leaves.{HeldLeaf, IsLeaf};
ghost use Rattle.views.specs.Ranked.{field_rows, leaf_records, shown_rows, told_rows};
ghost use Rattle.views.specs.Texts.{IsLeafText, leaf_columns, leaf_head, parted};
ghost use Rattle.views.specs.Troubles.{Fails, IsTroubleOf, Writes, of_leaf, of_nothing};

use crate::damage::Damage;
use crate::inputs::read_whole;
use crate::layouts::Layout;
use crate::leaf_cells::leaf_row;
use crate::outputs::write_out;
use crate::records::{FIELDS, damage_record, heading_record, row_record};
use crate::troubles::Trouble;
use grids::{Cell, Grid, aligned, to_csv, to_json};
use reading::{Leaf, read};
use std::alloc::{AllocError, Global};
use std::io::{Read, Write};
use task_tables::Printable;

// The columns of a leaf as a person reads it.
const COLUMNS: [&str; 8] = [
    "rank",
    "work",
    "deadline",
    "period",
    "jitter",
    "first rest",
    "response",
    "points",
];

/// Leaves to be shown in one layout, in the order in which they are added (docs/PROGRAMS.md,
/// `yabreznul show`).
#[derive(Drop)]
pub struct Show {
    alloc: Global,
    layout: Layout,
    text: Vec<u8>,
    records: Grid,
}

impl Show {
    /// No leaf yet. Memory alone can fail.
    pub fn new(alloc: Global, layout: Layout) -> Result<Show, AllocError>
        ensures layout { IfOk result (λ show. layout_of show ≡ layout) }
        ensures text { IfOk result (λ show. text_added show ≡ []) }
        ensures headings { IfOk result (λ show. shown_headings show ≡ field_names) }
        ensures records { IfOk result (λ show. shown_records show ≡ []) }
    {
        Ok(Show {
            alloc,
            layout,
            text: Vec::new(alloc),
            records: Grid::new(alloc, &FIELDS)?,
        })
    }

    /// Adds what a reader holds as a leaf of some name. Answers whether it is one: where it is damaged,
    /// that is told in its place. Where the input cannot be read or memory is out, the leaf is left out,
    /// or shown in part.
    pub fn add<R: Read>(&mut self, name: &str, reader: &mut R) -> Result<bool, Trouble>
        ensures leaf { IfOk result (λ is_leaf. HeldLeaf (R.remaining reader.old) is_leaf) }
        ensures added { IfOk result (λ is_leaf. AddsHeld is_leaf name.now (R.remaining reader.old) self.old self.new) }
        ensures setup { KeepsSetup self.old self.new }
        ensures failed { IfErr result (IsTroubleOf of_leaf) }
    {
        match read_whole(self.alloc, reader) {
            Ok(bytes) => match self.add_bytes(name, &bytes) {
                Ok(is_leaf) => Ok(is_leaf),
                Err(error) => Err(Trouble::Memory(error)),
            },
            Err(trouble) => Err(trouble),
        }
    }

    // Adds bytes as a leaf of some name.
    fn add_bytes(&mut self, name: &str, bytes: &[u8]) -> Result<bool, AllocError>
        ensures leaf { IfOk result (λ is_leaf. IsLeaf is_leaf bytes.now) }
        ensures added { IfOk result (λ is_leaf. Adds is_leaf name.now bytes.now self.old self.new) }
        ensures setup { KeepsSetup self.old self.new }
    {
        match read(bytes) {
            Ok(leaf) => {
                self.add_leaf(name, &leaf)?;
                Ok(true)
            }
            Err(fault) => {
                let damage = Damage::of(self.alloc, name, bytes, fault)?;
                self.add_damage(name, &damage)?;
                Ok(false)
            }
        }
    }

    // Adds a leaf in the layout.
    fn add_leaf(&mut self, name: &str, leaf: &Leaf<'_>) -> Result<(), AllocError>
        ensures setup { KeepsSetup self.old self.new }
        ensures added { OnOk result ((c : Contents) → Holds leaf.now c →
            GrowBy (layout_of self.old) (IsLeafText name.now c) (leaf_records name.now c) self.old self.new) }
    {
        match self.layout {
            Layout::Aligned => self.add_table(name, leaf),
            Layout::Csv | Layout::Json => self.add_records(name, leaf),
        }
    }

    // Adds what is told of a damaged leaf in the layout.
    fn add_damage(&mut self, name: &str, damage: &Damage) -> Result<(), AllocError>
        requires { string_bytes damage.now.name ≡ name.now }
        ensures setup { KeepsSetup self.old self.new }
        ensures added { OnOk result (GrowBy (layout_of self.old)
            (IsDamageLine name.now damage.now.fault.refusal damage.now.fault.at (string_bytes damage.now.around))
            (damage_fields name.now (number damage.now.fault.refusal)
            (words damage.now.fault.refusal) damage.now.fault.at (string_bytes damage.now.around) ∷ [])
            self.old self.new) }
    {
        match self.layout {
            Layout::Aligned => self.add_line(damage),
            Layout::Csv | Layout::Json => {
                let record = damage_record(self.alloc, name, damage)?;
                self.records.push(record)
            }
        }
    }

    // Adds the line that tells a damaged leaf.
    fn add_line(&mut self, damage: &Damage) -> Result<(), AllocError>
        ensures setup { KeepsSetup self.old self.new }
        ensures added { OnOk result (GrowsText
            (IsDamageLine (string_bytes damage.now.name) damage.now.fault.refusal damage.now.fault.at
            (string_bytes damage.now.around))
            self.old self.new) }
    {
        let line = format!(in self.alloc; "{damage}\n")?;
        self.add_text(line.as_bytes())
    }

    // Adds a text, with an empty line between it and what is there.
    fn add_text(&mut self, text: &[u8]) -> Result<(), AllocError>
        ensures setup { KeepsSetup self.old self.new }
        ensures text { OnOk result (text_added self.new ≡ parted (text_added self.old) ++ text.now) }
        ensures records { self.new.records ≡ self.old.records }
    {
        if !self.text.is_empty() {
            self.text.extend_from_slice(b"\n")?;
        }
        self.text.extend_from_slice(text)
    }

    // Adds a leaf as a person reads it.
    fn add_table(&mut self, name: &str, leaf: &Leaf<'_>) -> Result<(), AllocError>
        ensures setup { KeepsSetup self.old self.new }
        ensures added { OnOk result ((c : Contents) → Holds leaf.now c →
            GrowsText (IsLeafText name.now c) self.old self.new) }
    {
        let text = leaf_text(self.alloc, name, leaf)?;
        self.add_text(&text)
    }

    // Adds the records of a leaf: of one without a row, the one that tells its heading.
    fn add_records(&mut self, name: &str, leaf: &Leaf<'_>) -> Result<(), AllocError>
        ensures setup { KeepsSetup self.old self.new }
        ensures added { OnOk result ((c : Contents) → Holds leaf.now c →
            GrowsRecords (leaf_records name.now c) self.old self.new) }
    {
        if leaf.is_empty() {
            let record = heading_record(self.alloc, name, leaf.heading())?;
            return self.records.push(record);
        }
        push_records(self.alloc, &mut self.records.rows, name, leaf)
    }

    /// Writes all that was added, and flushes the writer.
    pub fn write<W: Write>(&self, writer: &mut W) -> Result<(), Trouble>
        ensures written { OnOk result
            (Writes (IsShown (layout_of self.now) self.now) (W.contents writer.old) (W.contents writer.new)) }
        ensures failed { IfErr result (Fails (IsShown (layout_of self.now) self.now) of_nothing
            (W.contents writer.old) (W.contents writer.new)) }
    {
        match self.layout {
            Layout::Aligned => write_out(writer, &self.text),
            Layout::Csv => match csv_text(self.alloc, &self.records) {
                Ok(text) => write_out(writer, &text),
                Err(error) => Err(Trouble::Memory(error)),
            },
            Layout::Json => match to_json(self.alloc, &self.records) {
                Ok(text) => write_out(writer, text.as_bytes()),
                Err(error) => Err(Trouble::Memory(error)),
            },
        }
    }
}

// Records as CSV: what can fail is memory alone.
fn csv_text(alloc: Global, records: &Grid) -> Result<Vec<u8>, AllocError>
    ensures { IfOk result (λ text. IsCsvOf records.now.headings.items records.now.rows.items text.items) }
{
    match to_csv(alloc, records) {
        Ok(text) => Ok(text),
        Err(_) => Err(AllocError),
    }
}

// A leaf as a person reads it.
fn leaf_text(alloc: Global, name: &str, leaf: &Leaf<'_>) -> Result<Vec<u8>, AllocError>
    ensures { IfOk result (λ text. (c : Contents) → Holds leaf.now c → IsLeafText name.now c text.items) }
{
    let table = leaf_table(alloc, leaf)?;
    let mut text = leaf_head(alloc, name, leaf)?.into_bytes();
    text.extend_from_slice(&aligned(alloc, &table)?)?;
    Ok(text)
}

// The line above a leaf.
fn leaf_head(alloc: Global, name: &str, leaf: &Leaf<'_>) -> Result<String, AllocError>
    ensures { IfOk result (λ text. (c : Contents) → Holds leaf.now c → string_bytes text ≡ leaf_head name.now c) }
{
    let heading = leaf.heading();
    let (bound, frame, rows) = (heading.bound, heading.frame.ticks, leaf.len());
    let name = Printable(name);
    format!(in alloc; "{name}: {bound}, frame {frame}, {rows} rows\n")
}

// The rows of a leaf with their findings.
fn leaf_table(alloc: Global, leaf: &Leaf<'_>) -> Result<Grid, AllocError>
    ensures columns { IfOk result (λ table. headings_of table.headings.items ≡ leaf_columns) }
    ensures rows { IfOk result (λ table. (c : Contents) → Holds leaf.now c →
        shown_rows table.rows.items ≡ told_rows leaf_texts c) }
{
    let mut table = Grid::new(alloc, &COLUMNS)?;
    push_rows(alloc, &mut table.rows, leaf)?;
    Ok(table)
}

// Puts the rows of a leaf with their findings below others.
fn push_rows(alloc: Global, rows: &mut Vec<Vec<Cell>>, leaf: &Leaf<'_>) -> Result<(), AllocError>
    ensures { OnOk result ((c : Contents) → Holds leaf.now c →
        shown_rows rows.new.items ≡ shown_rows rows.old.items ++ told_rows leaf_texts c) }
{
    for (i, (row, finding)) in leaf.rows_with_findings().enumerate() {
        rows.push(leaf_row(alloc, i + 1, &row, &finding)?)?;
    }
    Ok(())
}

// Puts the records of the rows of a leaf below others.
fn push_records(
    alloc: Global,
    records: &mut Vec<Vec<Cell>>,
    name: &str,
    leaf: &Leaf<'_>,
) -> Result<(), AllocError>
    ensures { OnOk result ((c : Contents) → Holds leaf.now c → field_rows records.new.items
        ≡ field_rows records.old.items ++ told_rows (record_fields name.now c.heading) c) }
{
    let heading = leaf.heading();
    for (i, (row, finding)) in leaf.rows_with_findings().enumerate() {
        records.push(row_record(alloc, name, heading, i + 1, &row, &finding)?)?;
    }
    Ok(())
}

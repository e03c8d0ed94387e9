// A table of tasks as it was read: numbers and names, and where each stood.
ghost use Rattle.std.specs.Prelude.{◌≡◌, ◌≤◌, ◌-◌, ◌++◌, ◌∷◌, [], length, vec_len, map, None, slice_get};
ghost use Rattle.std.specs.Prelude.{slice_index_or, true, IfErr, IfOk, OnOk, Some};
ghost use Rattle.task_tables.specs.Misreads.{of_line, told_by};

use crate::columns::{Column, place_of};
use crate::errors::ReadError;
use crate::misreads::{Expected, Misread};
use crate::tasks::{misread, name, numbers};
use rows::{MOST_ROWS, Numbers, Refusal};
use std::alloc::{AllocError, Global};

/// A table of tasks in rank order, as a text has it (docs/PROGRAMS.md, Task tables): at most 32, each with its name
/// and its four numbers, which nobody has judged.
#[derive(Debug, Drop)]
pub struct TaskTable {
    columns: Vec<Column>,
    numbers: Vec<Numbers>,
    names: Vec<String>,
    lines: Vec<u64>,
    ghost few: { vec_len numbers ≤ 32 },
}

impl TaskTable {
    ghost use Rattle.task_tables.specs.Columns.{AreDistinct, has_numbers};
    ghost use Rattle.task_tables.specs.Refusals.{CannotTake, is_misread};
    ghost use Rattle.task_tables.specs.Rows.{row_at};
    ghost use Rattle.task_tables.specs.Told.{Tells, task_told};
    ghost use Rattle.task_tables.specs.Tables.{field_of, table_columns, table_lines, table_names, table_numbers};
    ghost use Rattle.task_tables.specs.Tables.{TakesTask};

    // A table without tasks, under a heading.
    pub(crate) fn new(alloc: Global, columns: Vec<Column>) -> TaskTable
        ensures columns { table_columns result ≡ columns.items }
        ensures numbers { table_numbers result ≡ [] }
        ensures names { table_names result ≡ [] }
        ensures lines { table_lines result ≡ [] }
    {
        TaskTable {
            columns,
            numbers: Vec::new(alloc),
            names: Vec::new(alloc),
            lines: Vec::new(alloc),
        }
    }

    /// The numbers of the tasks, in rank order: at most 32.
    pub fn numbers(&self) -> &[Numbers]
        ensures numbers { result.now ≡ table_numbers self.now }
        ensures few { length result.now ≤ 32 }
    {
        self.numbers.as_slice()
    }

    /// The name of the task at a rank, counted from 1: nothing where it has none, and where there is
    /// no such rank.
    pub fn name(&self, rank: usize) -> &str
        ensures none { rank ≡ 0 → result.now ≡ [] }
        ensures name { 1 ≤ rank → result.now ≡ slice_index_or (table_names self.now) (rank - 1) [] }
    {
        match rank.checked_sub(1).and_then(|index| self.names.get(index)) {
            Some(name) => name.as_str(),
            None => "",
        }
    }

    // The line of the task at a place, counted from 0.
    pub(crate) fn line_at(&self, place: usize) -> Option<u64>
        ensures { result ≡ slice_get (table_lines self.now) place }
    {
        self.lines.get(place).copied()
    }

    // Which field of a record stands under a column, counted from 1.
    pub(crate) fn field_of(&self, column: Column) -> Option<usize>
        ensures { result ≡ field_of (table_columns self.now) column }
    {
        Some(place_of(self.columns.as_slice(), column)? + 1)
    }

    // Takes the task of a record as the lowest rank.
    #[tactic(auto, using(crate::proofs::Tellings::no_misread))]
    pub(crate) fn take(
        &mut self,
        alloc: Global,
        line: u64,
        fields: &[&[u8]],
    ) -> Result<(), ReadError>
        ensures task { OnOk result (TakesTask self.old self.new (row_at line fields.now)) }
        ensures none { OnOk result (AreDistinct (table_columns self.old)
            → task_told (table_columns self.old) (length (table_numbers self.old)) (row_at line fields.now) ≡ None) }
        ensures refused { IfErr result (λ e.
            is_misread e ≡ true → CannotTake self.old (map (λ f. f.now) fields.now)) }
        ensures told { IfErr result (λ e. has_numbers (table_columns self.old) ≡ true
            → Tells (task_told (table_columns self.old) (length (table_numbers self.old)) (row_at line fields.now)) e) }
    {
        if self.numbers.len() >= MOST_ROWS {
            return Err(one_more(alloc, line)?.into());
        }
        let columns = self.columns.as_slice();
        let (Some(numbers), Some(name)) = (numbers(columns, fields), name(columns, fields)) else {
            return Err(misread(alloc, line, columns, fields)?.into());
        };
        let name = String::from_str(alloc, name)?;
        self.lines.push(line)?;
        self.names.push(name)?;
        self.numbers.push(numbers)?;
        Ok(())
    }
}

// A task stands in a line behind as many as a table may have.
fn one_more(alloc: Global, line: u64) -> Result<Misread, AllocError>
    ensures { IfOk result (λ m.
        told_by m ≡ Some (of_line line (Expected.Tasks MOST_ROWS) (Some Refusal.FullTable))) }
{
    let stood = String::from_str(alloc, "a task more")?;
    let expected = Expected::Tasks(MOST_ROWS);
    Ok(Misread::at_line(line, stood, expected).refused(Some(Refusal::FullTable)))
}

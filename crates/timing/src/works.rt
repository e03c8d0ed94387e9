// Works: what is done with tables, by which bound, and how often.
use crate::lines::WorkLine;
use anyhow::{Context, bail};
use bounds::Supplied;
use rows::Table;

/// What is done with the tables of a work: each is surveyed, or the one table stands on a bench on which
/// the row at a rank is dismissed and admitted again.
#[derive(Clone, Copy)]
pub(crate) enum Action {
    Survey,
    Swap(usize),
}

/// A work: its rounds are timed as one.
#[derive(Drop)]
pub(crate) struct Work {
    pub(crate) name: String,
    pub(crate) action: Action,
    pub(crate) bound: Supplied,
    pub(crate) rounds: u32,
    pub(crate) tables: Vec<Table>,
}

impl Work {
    /// How many rows its tables have.
    pub(crate) fn rows(&self) -> usize {
        self.tables
            .iter()
            .fold(0, |rows: usize, table| rows.saturating_add(table.len()))
    }

    /// Adds what a line after that of the work tells: a table, or a row of the last one.
    pub(crate) fn add(&mut self, line: &WorkLine) -> anyhow::Result<()> {
        match line {
            WorkLine::Table(frame) => self.tables.push(Table::new(&frame.judge()?))?,
            WorkLine::Row(row) => {
                let table = self.tables.last_mut().context("no table before its rows")?;
                table.put_in(table.len() + 1, *row)?;
            }
            WorkLine::Work(_) => bail!("a work has no works"),
        }
        Ok(())
    }
}

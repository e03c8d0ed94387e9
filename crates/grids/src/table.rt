// A table: headings, and rows of cells under them.
ghost use Rattle.std.specs.Prelude.{◌≡◌, ◌++◌, ◌∷◌, [], IfOk, OnOk, OnErr};

use crate::cells::Cell;
use std::alloc::{AllocError, Global};

/// A table: its headings, one for each column, and its rows. Where a row has fewer cells than there
/// are headings, nothing stands in the places that are missing; cells past the headings are not shown.
#[derive(Debug, Drop)]
pub struct Grid {
    pub headings: Vec<&'static str>,
    pub rows: Vec<Vec<Cell>>,
}

impl Grid {
    /// A table with these headings and no row. Out of memory is an `Err`.
    pub fn new(alloc: Global, headings: &[&'static str]) -> Result<Grid, AllocError>
        ensures headings { IfOk result (λ grid. grid.headings.items ≡ headings.now) }
        ensures rows { IfOk result (λ grid. grid.rows.items ≡ []) }
    {
        Ok(Grid {
            headings: Vec::from_slice(alloc, headings)?,
            rows: Vec::new(alloc),
        })
    }

    /// Puts a row below the others. Where memory runs out, the table is as it was.
    pub fn push(&mut self, row: Vec<Cell>) -> Result<(), AllocError>
        ensures ok { OnOk result (self.new.rows.items ≡ self.old.rows.items ++ row ∷ []) }
        ensures err { OnErr result (self.new.rows.items ≡ self.old.rows.items) }
        ensures headings { self.new.headings ≡ self.old.headings }
    {
        self.rows.push(row)?;
        Ok(())
    }
}

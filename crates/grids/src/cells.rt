// What stands in one place of a table.
ghost use Rattle.std.specs.Prelude.{IfOk};
ghost use Rattle.grids.specs.Cells.{IsText};

use std::alloc::{AllocError, Global};

/// What stands in one place of a table.
#[derive(Debug, Drop)]
pub enum Cell {
    Nothing,
    Truth(bool),
    Number(u64),
    Text(String),
}

impl Cell {
    /// A cell with a copy of this text. Out of memory is an `Err`.
    pub fn of_text(alloc: Global, text: &str) -> Result<Cell, AllocError>
        ensures { IfOk result (λ cell. IsText text.now cell) }
    {
        Ok(Cell::Text(String::from_str(alloc, text)?))
    }
}

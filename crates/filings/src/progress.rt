// How far a count has come, told while it runs.
ghost use Rattle.std.specs.Prelude.{◌≡◌};

use bounds::Supplied;

/// What is told after each row that was counted.
pub trait Progress {
    /// Told after a row: the bound that the table is counted by, how many rows are counted, and of
    /// how many. Whatever the method does, the count stays the same. Of a table that is counted by
    /// one bound after another it is told as often as rows are counted.
    fn counted(&mut self, bound: Supplied, rows: usize, of: usize);
}

/// A progress that tells nothing.
#[derive(Clone, Copy, Debug)]
pub struct Quiet;

impl Progress for Quiet {
    fn counted(&mut self, _bound: Supplied, _rows: usize, _of: usize)
        ensures { self.new ≡ self.old }
    {}
}

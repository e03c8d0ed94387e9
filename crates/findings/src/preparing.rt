// What is kept of the rows above while a table is counted: made once for each row, and lent to the
// search of every row below it.
ghost use Rattle.std.specs.Prelude.{◌+◌, ◌<◌, length, take};
ghost use Rattle.rows.specs.Times.{most_rows};
ghost use Rattle.findings.specs.Countable.{CanBeCounted};
ghost use Rattle.findings.specs.Prepared.{KeepsNothing, Prepares};

use crate::lines::Line;
use bounds::{Bound, OnFrame};
use rows::{Frame, HORIZON, MOST_ROWS, Row};

// Corners up to here are flagged for all rows of a table.
pub(crate) const NEAR: usize = 512;

// The rows on their frame in rank order, a line below their steps, flags for their corners up to the
// near instant, and the next corner of each past that, or one past the horizon.
#[derive(Drop)]
pub(crate) struct Prepared {
    pub(crate) rows: [OnFrame; MOST_ROWS],
    pub(crate) line: Line,
    pub(crate) flags: [bool; NEAR],
    pub(crate) nexts: [u32; MOST_ROWS],
}

impl Prepared {
    // What is kept of no row.
    pub(crate) fn new() -> Prepared
        ensures { KeepsNothing result }
    {
        Prepared {
            rows: [OnFrame::default(); MOST_ROWS],
            line: Line::new(),
            flags: [false; NEAR],
            nexts: [0; MOST_ROWS],
        }
    }

    // Keeps the row at a place too, where the rows before it are kept.
    pub(crate) fn add<B: Bound>(&mut self, bound: &B, frame: &Frame, rows: &[Row], place: usize)
        requires countable { CanBeCounted most_rows frame.now.ticks rows.now }
        requires there { place < length rows.now }
        requires kept { Prepares (B.meaning bound.now) frame.now.ticks (take place rows.now) self.old }
        ensures { Prepares (B.meaning bound.now) frame.now.ticks (take (place + 1) rows.now) self.new }
    {
        let ticks = frame.ticks();
        let row = &rows[place];
        self.rows[place] = OnFrame::new(ticks, row).unwrap();
        self.line = self.line.with_row(ticks, row);
        let next = bound.mark(row, 0, &mut self.flags);
        self.nexts[place] = next.unwrap_or(HORIZON + 1);
    }

    // Keeps rows, where none is kept yet.
    pub(crate) fn keep<B: Bound>(&mut self, bound: &B, frame: &Frame, rows: &[Row])
        requires countable { CanBeCounted most_rows frame.now.ticks rows.now }
        requires none { KeepsNothing self.old }
        ensures { Prepares (B.meaning bound.now) frame.now.ticks rows.now self.new }
    {
        for place in 0..rows.len() {
            self.add(bound, frame, rows, place);
        }
    }
}

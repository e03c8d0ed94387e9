// A line below the steps of rows: by it the search begins far ahead, and sees at once where there is
// too much work.
ghost use Rattle.std.specs.Prelude.{IsTrue, ℕ, ◌*◌, ◌≤◌, List, [], ◌∷◌, ◌++◌};
ghost use Rattle.rows.specs.declared.tasks.Row.{Row as TheRow};
ghost use Rattle.rows.specs.Times.{horizon};
ghost use Rattle.rows.specs.Counting.{is_on_frame};
ghost use Rattle.findings.specs.Lines.{LiesUnder, share_of};

use rows::Row;

// In windows up to this the search begins at their start: a few leaps more take less than a division
// for each row.
pub(crate) const SHORT: u32 = 4096;

// The parts height + slope × t of each instant t.
#[derive(Clone, Copy)]
pub(crate) struct Line {
    pub(crate) slope: u64,
    pub(crate) height: u64,
}

// The work of a row for each of its periods in the frame, or nothing on a frame so short that no
// search wants it.
fn share(frame: u32, row: &Row) -> u64
    ensures { result ≤ share_of frame row.now }
{
    if frame <= SHORT {
        return 0;
    }
    u64::from(row.work) * u64::from(frame / row.period)
}

impl Line {
    // The line below no row.
    pub(crate) fn new() -> Line
        ensures { (h : ℕ) → LiesUnder h [] result.slope result.height }
    {
        Line {
            slope: 0,
            height: 0,
        }
    }

    // The line below one row more.
    pub(crate) fn with_row(self, frame: u32, row: &Row) -> Line
        requires near { frame ≤ horizon }
        requires on { IsTrue (is_on_frame frame row.now) }
        requires slope { self.slope ≤ 31 * horizon }
        requires height { self.height ≤ 31 * (horizon * horizon) }
        ensures { (rows : List TheRow) → LiesUnder frame rows self.slope self.height
            → LiesUnder frame (rows ++ row.now ∷ []) result.slope result.height }
    {
        let share = share(frame, row);
        Line {
            slope: self.slope + share,
            height: self.height + share * u64::from(row.jitter),
        }
    }
}

// A leaf whose heading is filed and that takes rows.
ghost use Rattle.std.specs.Prelude.{◌≡◌, IfOk, OnErr, length, ◌∷◌, []};
ghost use Rattle.rows.specs.Answers.{refusal, first_refusal};
ghost use Rattle.leaves.specs.Headings.{heading_plain};
ghost use Rattle.leaves.specs.declared.entries.Heading.{Heading};
ghost use Rattle.leaves.specs.declared.entries.Entry.{Entry};
ghost use Rattle.reading.specs.declared.phases.Phase.{Phase};
ghost use Rattle.writing.specs.Checks.{begin_checks, begin_numbers_checks};
ghost use Rattle.writing.specs.Filing.{Files, IsReadTo};

use crate::bytes::{check_room, put, put_numbers};
use crate::taking_findings::FindingsLeaf;
use leaves::{HEADING_SIZE, Heading, HeadingNumbers, ROW_SIZE};
use reading::Phase;
use rows::{Fault, MOST_ROWS, Refusal, Row};
use std::marker::Model;

/// A leaf that takes rows: its heading and so many rows are filed. It can be neither copied nor made
/// by hand, so that it is always what its buffer holds, as long as nobody else writes there.
#[must_use]
#[derive(Debug, Drop)]
pub struct RowsLeaf {
    heading: Heading,
    rows: u8,
}

impl Model for RowsLeaf {
    ghost use Rattle.std.specs.Prelude.{◌≤◌};
    ghost use Rattle.rows.specs.Times.{most_rows};
    ghost use Rattle.reading.specs.declared.phases.Phase.{Phase};

    ghost Value = { Phase };

    ghost view = { λ leaf. Phase.Rows leaf.heading leaf.rows };

    ghost invariant = { λ leaf. leaf.rows ≤ most_rows };
}

/// Begins a leaf in a buffer: files its heading at the first byte, and writes no other byte
/// (docs/FORMAT.md, Writing). Refused with 19, short buffer, at 0 where the buffer has fewer than 7
/// bytes. A refusal leaves the buffer as it was.
pub fn begin(heading: Heading, buffer: &mut [u8]) -> Result<RowsLeaf, Fault>
    ensures answered { refusal result ≡ first_refusal (begin_checks (length buffer.old)) }
    ensures filed { IfOk result (λ leaf.
        Files Phase.Opening buffer.old (Entry.Heading heading) leaf buffer.new
        × IsReadTo buffer.new (Entry.Heading heading ∷ []) leaf) }
    ensures refused { OnErr result (buffer.new ≡ buffer.old) }
{
    check_room(buffer, 0, HEADING_SIZE)?;
    Ok(RowsLeaf::opened(heading, buffer))
}

/// Begins a leaf with the heading of these numbers, which nobody has judged, as `begin` does. Refused
/// with the first of these that applies, at 0: 1, bad frame; 20, unknown bound; 3, bad accuracy; 19,
/// short buffer. A refusal leaves the buffer as it was.
pub fn begin_numbers(numbers: HeadingNumbers, buffer: &mut [u8]) -> Result<RowsLeaf, Fault>
    ensures answered { refusal result
        ≡ first_refusal (begin_numbers_checks numbers (length buffer.old)) }
    ensures filed { IfOk result (λ leaf. (h : Heading) × (heading_plain h ≡ numbers)
        × Files Phase.Opening buffer.old (Entry.Heading h) leaf buffer.new
        × IsReadTo buffer.new (Entry.Heading h ∷ []) leaf) }
    ensures refused { OnErr result (buffer.new ≡ buffer.old) }
{
    begin(numbers.judge(0)?, buffer)
}

impl RowsLeaf {
    ghost use Rattle.std.specs.Prelude.{IsTrue, ◌≡◌, ◌+◌, ◌<◌, ◌≤◌, ◌∷◌, [], length, OnOk, OnErr};
    ghost use Rattle.rows.specs.Answers.{refusal, first_refusal};
    ghost use Rattle.rows.specs.Counting.{is_on_frame};
    ghost use Rattle.rows.specs.Times.{most_rows};
    ghost use Rattle.leaves.specs.Entries.{row_size, heading_size};
    ghost use Rattle.leaves.specs.declared.entries.Entry.{Entry};
    ghost use Rattle.reading.specs.declared.phases.Phase.{Phase};
    ghost use Rattle.reading.specs.Phases.{place_of, rows_in, frame_in};
    ghost use Rattle.writing.specs.Checks.{filed_row_checks};
    ghost use Rattle.writing.specs.Filing.{Files, ReadsOn};
    ghost use Rattle.writing.specs.States.{IsInRows};

    // Writes a heading at the first byte, where there is room for it.
    pub(crate) fn opened(heading: Heading, buffer: &mut [u8]) -> RowsLeaf
        requires { 1 + heading_size ≤ length buffer.old }
        ensures answered { result ≡ Phase.Rows heading 0 }
        ensures filed { Files Phase.Opening buffer.old (Entry.Heading heading) result buffer.new }
    {
        let numbers = heading.numbers();
        put_numbers(buffer, 0, b'F', &[numbers.frame.ticks]);
        put(buffer, 5, &[numbers.bound, numbers.accuracy]);
        RowsLeaf { heading, rows: 0 }
    }

    /// The phase in which a reader of what is filed would be. Its place is where the next entry is
    /// to begin.
    pub fn phase(&self) -> Phase
        ensures answered { result ≡ self.now }
        ensures rows { IsInRows self.now }
    {
        Phase::Rows {
            heading: self.heading,
            rows: self.rows,
        }
    }

    /// Files a row behind those that are filed, and writes no other byte (docs/FORMAT.md, Writing).
    /// Refused with the first of these that applies, at the place where the row was to begin: 9, full
    /// table, once 32 rows are filed; 8, off frame; 19, short buffer. A refusal leaves the leaf and
    /// the buffer as they were.
    pub fn row(&mut self, row: &Row, buffer: &mut [u8]) -> Result<(), Fault>
        ensures answered { refusal result
            ≡ first_refusal (filed_row_checks self.old row.now (length buffer.old)) }
        ensures filed { OnOk result
            (Files self.old buffer.old (Entry.Row row.now) self.new buffer.new) }
        ensures read { OnOk result
            (ReadsOn self.old buffer.old (Entry.Row row.now) self.new buffer.new) }
        ensures refused { OnErr result ((self.new ≡ self.old) × (buffer.new ≡ buffer.old)) }
    {
        let at = self.phase().place();
        if usize::from(self.rows) >= MOST_ROWS {
            return Err(Refusal::FullTable.at(at));
        }
        if !row.divides(self.heading.frame.ticks) {
            return Err(Refusal::OffFrame.at(at));
        }
        check_room(buffer, at, ROW_SIZE)?;
        self.put_row(row, buffer);
        Ok(())
    }

    // Writes a row on the frame where it is to begin, where there is room for it.
    pub(crate) fn put_row(&mut self, row: &Row, buffer: &mut [u8])
        requires few { rows_in self.old < most_rows }
        requires on { IsTrue (is_on_frame (frame_in self.old).ticks row.now) }
        requires room { place_of self.old + 1 + row_size ≤ length buffer.old }
        ensures { Files self.old buffer.old (Entry.Row row.now) self.new buffer.new }
    {
        let at = self.phase().place() as usize;
        let numbers = [row.work, row.deadline, row.period, row.jitter];
        put_numbers(buffer, at, b'R', &numbers);
        self.rows += 1;
    }

    /// Ends the rows: from here on the leaf takes findings. Nothing is written, and nothing refused.
    pub fn turn(self) -> FindingsLeaf
        ensures { result ≡ self }
    {
        FindingsLeaf::of(self.heading, self.rows)
    }
}

// A table: rows in rank order on a frame, judged once.
ghost use Rattle.std.specs.Prelude.{IsTrue, ◌≡◌, ◌+◌, ◌<◌, ◌≤◌, [], ◌∷◌, ◌++◌, length, map, IfOk, OnOk};
ghost use Rattle.rows.specs.Answers.{answer, checked};
ghost use Rattle.rows.specs.Books.{flawless_checks};
ghost use Rattle.rows.specs.Judging.{plain, row_flaws, rows_of, table_flaw_check, table_flaw_checks};
ghost use Rattle.rows.specs.Times.{most_rows};

use crate::counting::MOST_ROWS;
use crate::frames::Frame;
use crate::judging::{Flaw, frame_flaws, row_flaws};
use crate::ranks::{check_rank, put_in, take_out};
use crate::refusals::{Fault, Refusal};
use crate::tasks::{Numbers, Row};
use arrayvec::ArrayVec;
use std::marker::Model;

/// A table (docs/RULES.md, Tables): at most 32 rows in rank order, all on its frame.
#[derive(Debug, Drop)]
pub struct Table {
    frame: Frame,
    rows: ArrayVec<Row, MOST_ROWS>,
}

impl Model for Table {
    ghost use Rattle.rows.specs.Books.{Book, IsJudged, book};

    ghost Value = { Book };

    ghost view = { λ t. book t.frame t.rows.items };

    ghost invariant = { λ t. IsJudged (book t.frame t.rows.items) };
}

// Refuses the numbers of a table of which some have a flaw, and tells the rank of the first.
fn check_all(flaw: &Flaw, table: &[Numbers]) -> Result<(), Fault>
    requires { length table.now ≤ most_rows }
    ensures { answer (λ u. u) result ≡ checked (table_flaw_check table.now flaw.now ∷ []) tt }
{
    for (i, numbers) in table.iter().enumerate() {
        numbers.check(flaw, i as u32 + 1)?;
    }
    Ok(())
}

// Refuses the numbers of a table of which some have one of the flaws: each is looked for at every
// rank before the next, and the smallest rank that has it is told.
fn check_numbers(flaws: &[Flaw], table: &[Numbers]) -> Result<(), Fault>
    requires { length table.now ≤ most_rows }
    ensures { answer (λ u. u) result ≡ checked (table_flaw_checks flaws.now table.now) tt }
{
    for flaw in flaws {
        check_all(flaw, table)?;
    }
    Ok(())
}

/// Refuses the numbers of a table that has too many, or of which some have one of the flaws: each flaw
/// is looked for at every rank before the next.
///
/// Refused with 9, full table, at 0 for more than 32; then with the refusal of the first flaw that some
/// have, at the smallest rank that has it (docs/REFUSALS.md).
pub fn check_table(flaws: &[Flaw], table: &[Numbers]) -> Result<(), Fault>
    ensures answered { answer (λ u. u) result ≡ checked (flawless_checks flaws.now table.now) tt }
    ensures few { OnOk result (length table.now ≤ most_rows) }
{
    if table.len() > MOST_ROWS {
        return Err(Refusal::FullTable.at(0));
    }
    check_numbers(flaws, table)
}

/// The rows of numbers that nobody has judged, in rank order, with no frame. Refused with 9, full
/// table, at 0 for more than 32; then with 4, idle row, 5, no window, 6, late deadline, and 7, long
/// period, at the smallest rank that is so (docs/REFUSALS.md).
pub fn judge_rows(numbers: &[Numbers]) -> Result<ArrayVec<Row, MOST_ROWS>, Fault>
    ensures answered { answer (λ rows. map plain rows.items) result
        ≡ checked (flawless_checks row_flaws numbers.now) numbers.now }
    ensures made { IfOk result (λ rows. rows.items ≡ rows_of numbers.now) }
    ensures rows { OnOk result (map plain (rows_of numbers.now) ≡ numbers.now) }
{
    check_table(&row_flaws(), numbers)?;
    let mut rows = ArrayVec::new();
    for row in numbers {
        rows.push(row.judge(0).unwrap());
    }
    Ok(rows)
}

impl Table {
    ghost use Rattle.rows.specs.Answers.{answer, checked, first_refusal, refusal};
    ghost use Rattle.rows.specs.Books.{IsJudged, book, plain_book, judge_checks, rows_checks, put_checks};
    ghost use Rattle.rows.specs.Counting.{is_on_frame};
    ghost use Rattle.rows.specs.Judging.{plain, rows_of};
    ghost use Rattle.rows.specs.Ranks.{rank_checks};
    ghost use Rattle.rows.specs.Times.{most_rows};
    ghost use Rattle.std.specs.List.{insert, remove};
    ghost use Rattle.std.specs.Prelude.{IsTrue, ◌≡◌, ◌+◌, ◌-◌, ◌<◌, [], ◌∷◌, ◌++◌, map, length, take, slice_index_or};
    ghost use Rattle.std.specs.Prelude.{IfOk, OnOk, OnErr, MatchResult};

    /// A table of no row.
    pub fn new(frame: &Frame) -> Table
        ensures { result ≡ book frame.now [] }
    {
        let _ticks = frame.ticks();
        Table {
            frame: *frame,
            rows: ArrayVec::new(),
        }
    }

    /// The table of numbers that nobody has judged, on a frame. Refused with 9, full table, at 0 for
    /// more than 32; then with 4, idle row, 5, no window, 6, late deadline, 7, long period, and 8, off
    /// frame, at the smallest rank that is so (docs/REFUSALS.md).
    pub fn judge(frame: &Frame, numbers: &[Numbers]) -> Result<Table, Fault>
        ensures answered { answer plain_book result
            ≡ checked (judge_checks frame.now numbers.now) (frame.now, numbers.now) }
        ensures made { IfOk result (λ t. t ≡ book frame.now (rows_of numbers.now)) }
        ensures rows { OnOk result (map plain (rows_of numbers.now) ≡ numbers.now) }
    {
        check_table(&frame_flaws(frame), numbers)?;
        let mut table = Table::new(frame);
        for row in numbers {
            table.add(row.judge_on(frame, 0).unwrap());
        }
        Ok(table)
    }

    /// The table of rows on a frame. Refused with 9, full table, at 0 for more than 32; then with 8,
    /// off frame, at the smallest rank that is so (docs/REFUSALS.md).
    pub fn of(frame: &Frame, rows: &[Row]) -> Result<Table, Fault>
        ensures { answer (λ t. t) result
            ≡ checked (rows_checks frame.now rows.now) (book frame.now rows.now) }
    {
        if rows.len() > MOST_ROWS {
            return Err(Refusal::FullTable.at(0));
        }
        let mut table = Table::new(frame);
        for (i, row) in rows.iter().enumerate() {
            if !row.stands_on(frame) {
                return Err(Refusal::OffFrame.at(i as u32 + 1));
            }
            table.add(*row);
        }
        Ok(table)
    }

    /// The frame of the table.
    pub fn frame(&self) -> &Frame
        ensures answered { result.now ≡ self.now.frame }
        ensures judged { IsJudged self.now }
    {
        &self.frame
    }

    /// The rows in rank order: at most 32, all on the frame.
    pub fn rows(&self) -> &[Row]
        ensures answered { result.now ≡ self.now.rows }
        ensures judged { IsJudged self.now }
    {
        self.rows.as_slice()
    }

    /// How many rows there are.
    pub fn len(&self) -> usize
        ensures answered { result ≡ length self.now.rows }
        ensures judged { IsJudged self.now }
    {
        self.rows.len()
    }

    /// The same table once more.
    pub fn copy(&self) -> Table
        ensures { result ≡ self.now }
    {
        let mut rows = ArrayVec::new();
        rows.try_extend_from_slice(self.rows.as_slice()).unwrap();
        Table {
            frame: self.frame,
            rows,
        }
    }

    /// The table of the rows above a rank: of all rows where the rank is past the last, and of none at
    /// rank 1 and at 0.
    pub fn above(&self, rank: usize) -> Table
        ensures { result ≡ book self.now.frame (take (rank - 1) self.now.rows) }
    {
        let mut above = self.copy();
        above.rows.truncate(rank.saturating_sub(1));
        above
    }

    // Puts a row in below the others.
    fn add(&mut self, row: Row)
        requires room { length self.old.rows < most_rows }
        requires on { IsTrue (is_on_frame self.old.frame.ticks row) }
        ensures { self.new ≡ book self.old.frame (self.old.rows ++ row ∷ []) }
    {
        self.rows.push(row);
    }

    /// Puts a row in at a rank, and the rows from there on move down.
    ///
    /// Refused, each at 0, with 8, off frame, where its period does not divide the frame; 9, full
    /// table, where 32 rows stand; 10, no rank, outside 1 to one past the last (docs/REFUSALS.md). A
    /// refused call leaves the table as it was.
    pub fn put_in(&mut self, rank: usize, row: Row) -> Result<(), Fault>
        ensures answered { answer (λ u. u) result ≡ checked (put_checks self.old rank row) tt }
        ensures put { MatchResult result
            (λ _. self.new ≡ book self.old.frame (insert self.old.rows (rank - 1) row))
            (λ _. self.new ≡ self.old) }
    {
        if !row.stands_on(&self.frame) {
            return Err(Refusal::OffFrame.at(0));
        }
        if self.rows.len() == MOST_ROWS {
            return Err(Refusal::FullTable.at(0));
        }
        check_rank(self.rows.len() + 1, rank)?;
        self.rows.push(row);
        put_in(self.rows.as_mut_slice(), rank, row).unwrap();
        Ok(())
    }

    /// Takes the row at a rank out, and the rows below it move up. Answers that row.
    ///
    /// Refused with 10, no rank, at 0 where no row stands at the rank (docs/REFUSALS.md). A refused
    /// call leaves the table as it was.
    pub fn take_out(&mut self, rank: usize) -> Result<Row, Fault>
        ensures answered { refusal result ≡ first_refusal (rank_checks (length self.old.rows) rank) }
        ensures taken { MatchResult result
            (λ r. (r ≡ slice_index_or self.old.rows (rank - 1) r)
            × (self.new ≡ book self.old.frame (remove self.old.rows (rank - 1))))
            (λ _. self.new ≡ self.old) }
    {
        let count = self.rows.len();
        check_rank(count, rank)?;
        let row = self.rows.as_slice()[rank - 1];
        take_out(self.rows.as_mut_slice(), rank).unwrap();
        self.rows.truncate(count - 1);
        Ok(row)
    }
}

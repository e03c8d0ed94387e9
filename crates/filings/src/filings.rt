// A table counted by one bound, and its leaf.
ghost use Rattle.std.specs.Prelude.{◌≡◌};

use arrayvec::ArrayVec;
use bounds::Supplied;
use findings::find;
use leaves::Heading;
use rows::{Fault, Finding, Frame, MOST_ROWS, Row, Table};
use std::marker::Model;
use writing::file;

/// A table that was counted by one bound (docs/RULES.md, Surveys), with the finding about each of
/// its rows, as a leaf keeps them.
#[derive(Debug, Drop)]
pub struct Filing {
    table: Table,
    bound: Supplied,
    findings: ArrayVec<Finding, MOST_ROWS>,
}

impl Model for Filing {
    ghost use Rattle.std.specs.Prelude.{◌≡◌, map};
    ghost use Rattle.rows.specs.Found.{tells};
    ghost use Rattle.bounds.specs.Families.{supplied_plain};
    ghost use Rattle.bounds.specs.Values.{meaning_of};
    ghost use Rattle.findings.specs.Tables.{findings_of};
    ghost use Rattle.filings.specs.Filings.{Filed, filed};

    ghost Value = { Filed };

    ghost view = { λ f. filed f.table.frame (supplied_plain f.bound) f.table.rows };

    ghost invariant = { λ f.
        map tells f.findings.items ≡ findings_of (meaning_of f.bound) f.table.frame f.table.rows };
}

impl Filing {
    ghost use Rattle.std.specs.Prelude.{IsTrue, ◌≡◌, ◌<◌, ◌++◌, ◌∷◌, [], length, map};
    ghost use Rattle.rows.specs.Answers.{gives};
    ghost use Rattle.rows.specs.Books.{IsJudged, book};
    ghost use Rattle.rows.specs.Counting.{is_on_frame};
    ghost use Rattle.rows.specs.Found.{tells};
    ghost use Rattle.rows.specs.Times.{most_rows};
    ghost use Rattle.bounds.specs.Families.{supplied_plain};
    ghost use Rattle.leaves.specs.Contents.{Contents};
    ghost use Rattle.sheets.specs.Answers.{IsPut};
    ghost use Rattle.filings.specs.Filings.{filed, filed_findings, IsLeafOfCount};

    // A filing with no row yet.
    pub(crate) fn of(frame: &Frame, bound: Supplied) -> Filing
        ensures { result ≡ filed frame.now (supplied_plain bound) [] }
    {
        Filing {
            table: Table::new(frame),
            bound,
            findings: ArrayVec::new(),
        }
    }

    // One row more, counted below the rows before it.
    pub(crate) fn add(&mut self, row: Row)
        requires few { length self.old.rows < most_rows }
        requires on { IsTrue (is_on_frame self.old.frame.ticks row) }
        ensures { self.new ≡ filed self.old.frame self.old.bound (self.old.rows ++ row ∷ []) }
    {
        let finding = find(&self.bound, &row, &self.table).unwrap();
        let rank = self.table.len() + 1;
        self.table.put_in(rank, row).unwrap();
        self.findings.push(finding);
    }

    /// The table: its frame, and the rows in rank order, their numbers in ticks (docs/RULES.md, Tables).
    pub fn table(&self) -> &Table
        ensures { result.now ≡ book self.now.frame self.now.rows }
    {
        &self.table
    }

    /// The bound that the rows were counted by (docs/RULES.md, Bounds).
    pub fn bound(&self) -> Supplied
        ensures { supplied_plain result ≡ self.now.bound }
    {
        self.bound
    }

    /// The rows in rank order, their numbers in ticks: 0 to 32 of them, all on the frame.
    pub fn rows(&self) -> &[Row]
        ensures answered { result.now ≡ self.now.rows }
        ensures judged { IsJudged (book self.now.frame self.now.rows) }
    {
        self.table.rows()
    }

    /// The findings of the rows by the bound, in rank order (docs/RULES.md, Findings).
    pub fn findings(&self) -> &[Finding]
        ensures { map tells result.now ≡ filed_findings self.now }
    {
        self.findings.as_slice()
    }

    /// Files the leaf of the count at the first byte of a buffer, and writes no other byte. Answers
    /// the length of the leaf in bytes (docs/FORMAT.md, Writing).
    ///
    /// Refused with 19, short buffer, at 0 where the buffer is shorter than the leaf. A refusal
    /// leaves the buffer as it was.
    pub fn file(&self, buffer: &mut [u8]) -> Result<usize, Fault>
        ensures { (c : Contents) × IsLeafOfCount self.now c × IsPut (gives c) buffer.old buffer.new result }
    {
        let frame = self.table.frame().numbers();
        let bound = self.bound;
        file(
            Heading { frame, bound },
            self.rows(),
            self.findings(),
            buffer,
        )
    }
}

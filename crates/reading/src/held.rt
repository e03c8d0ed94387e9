// What a leaf that was read holds.
ghost use Rattle.std.specs.Prelude.{◌≤◌, length};
ghost use Rattle.rows.specs.Times.{most_rows};
ghost use Rattle.reading.specs.Held.{HoldSomeContents};

use crate::bodies::{body_at, finding_fields, row_fields};
use leaves::{FINDING_SIZE, Heading, ROW_SIZE};
use rows::{Finding, Row};

/// A leaf that was read (docs/FORMAT.md): its heading, the bytes of its rows and those of its
/// findings, which are parts of the bytes that it was read from. Every one holds contents that a
/// leaf can have.
#[derive(Clone, Copy, PartialEq, Eq, Debug)]
pub struct Leaf<'a> {
    pub(crate) heading: Heading,
    pub(crate) rows: &'a [u8],
    pub(crate) findings: &'a [u8],
    ghost held: { HoldSomeContents heading rows.now findings.now },
}

/// The rows of a leaf in rank order, each with the finding about it.
#[derive(Clone, Copy, PartialEq, Eq, Debug)]
pub struct RowsWithFindings<'a> {
    leaf: Leaf<'a>,
    seen: u8,
    ghost within: { seen ≤ most_rows },
}

impl<'a> Iterator for RowsWithFindings<'a> {
    ghost use Rattle.std.specs.Iterator.{item_count, YieldsFirstBy};
    ghost use Rattle.reading.specs.Told.{told, still_told};

    type Item = (Row, Finding);

    ghost next_gives = { YieldsFirstBy told still_told };

    ghost remaining = { item_count still_told };

    fn next(&mut self) -> Option<(Row, Finding)> {
        let told = self.leaf.told(usize::from(self.seen) + 1)?;
        self.seen += 1;
        Some(told)
    }
}

impl<'a> Leaf<'a> {
    ghost use Rattle.std.specs.Prelude.{◌≡◌, ◌==◌, length, Some, IfSome};
    ghost use Rattle.std.specs.Option.{option_map};
    ghost use Rattle.rows.specs.Judging.{plain};
    ghost use Rattle.rows.specs.Lists.{at_rank};
    ghost use Rattle.rows.specs.Found.{tells};
    ghost use Rattle.rows.specs.declared.verdicts.Finding.{Finding};
    ghost use Rattle.leaves.specs.Contents.{Contents};
    ghost use Rattle.leaves.specs.Entries.{finding_body, finding_size};
    ghost use Rattle.leaves.specs.Fields.{TellsBackwards};
    ghost use Rattle.reading.specs.Told.{told, told_of, all_told, still_told};
    ghost use Rattle.reading.specs.Leaves.{heading_of, row_bytes, finding_bytes, Holds, HoldsSome};

    /// The heading: the frame of the rows, and the bound by which they were counted
    /// (docs/FORMAT.md, Entries).
    pub fn heading(&self) -> Heading
        ensures answered { result ≡ heading_of self.now }
        ensures held { HoldsSome self.now }
    {
        self.heading
    }

    /// How many rows there are, from 0 to 32, and as many findings (docs/FORMAT.md, Entries).
    pub fn len(&self) -> usize
        ensures { (c : Contents) → Holds self.now c → result ≡ length c.rows }
    {
        self.rows.len() / (1 + ROW_SIZE)
    }

    /// Whether there is no row, and so no finding.
    pub fn is_empty(&self) -> bool
        ensures { (c : Contents) → Holds self.now c → result ≡ (length c.rows == 0) }
    {
        self.rows.is_empty()
    }

    /// The row of a rank, its numbers in ticks (docs/FORMAT.md, Entries). The first row has rank 1;
    /// there is none at rank 0 and past the last.
    pub fn row(&self, rank: usize) -> Option<Row>
        ensures { (c : Contents) → Holds self.now c →
            option_map plain result ≡ option_map plain (at_rank rank c.rows) }
    {
        let body = body_at(self.rows, ROW_SIZE, rank)?;
        row_fields(body).judge(0).ok()
    }

    /// The finding about the row of a rank, its first rest in ticks (docs/FORMAT.md, Entries). It is
    /// the word of whoever filed the leaf: nothing is counted again. The first row has rank 1; there
    /// is no finding at rank 0 and past the last.
    pub fn finding(&self, rank: usize) -> Option<Finding>
        ensures { (c : Contents) → Holds self.now c →
            option_map tells result ≡ option_map tells (at_rank rank c.findings) }
    {
        let body = self.finding_body(rank)?;
        Some(finding_fields(body))
    }

    /// The body of the finding about the row of a rank: eight bytes, without the letter, a part of the
    /// bytes that the leaf was read from. `leaves::last_number` answers the points of it, and of the
    /// part before them the first rest, 0 where the row misses, and no byte is left (docs/FORMAT.md,
    /// From the last field back). The first row has rank 1; there is no finding at rank 0 and past the
    /// last.
    pub fn finding_body(&self, rank: usize) -> Option<&'a [u8]>
        ensures body { (c : Contents) → Holds self.now c → option_map (λ b. b.now) result
            ≡ option_map (λ f. finding_body (tells f)) (at_rank rank c.findings) }
        ensures backwards { (c : Contents) (f : Finding) → Holds self.now c →
            at_rank rank c.findings ≡ Some f → IfSome result (λ b. TellsBackwards b.now (tells f)) }
        ensures sized { IfSome result (λ b. length b.now ≡ finding_size) }
    {
        body_at(self.findings, FINDING_SIZE, rank)
    }

    // The row of a rank and its finding, both of which are there or neither.
    fn told(&self, rank: usize) -> Option<(Row, Finding)>
        ensures answered { option_map told result ≡ at_rank rank (all_told self.now) }
        ensures few { length (all_told self.now) ≤ most_rows }
    {
        self.row(rank).zip(self.finding(rank))
    }

    /// The rows in rank order, each with the finding about it: as many as there are rows, from 0 to
    /// 32 (docs/FORMAT.md, Entries).
    pub fn rows_with_findings(&self) -> RowsWithFindings<'a>
        ensures told { (c : Contents) → Holds self.now c → still_told result ≡ told_of c }
        ensures few { length (still_told result) ≤ most_rows }
    {
        RowsWithFindings {
            leaf: *self,
            seen: 0,
        }
    }

    /// The bytes of the rows in rank order, 17 a row, each with its letter: a part of the bytes that
    /// the leaf was read from (docs/FORMAT.md, Entries).
    pub fn row_bytes(&self) -> &'a [u8]
        ensures { result.now ≡ row_bytes self.now }
    {
        self.rows
    }

    /// The bytes of the findings in rank order, 9 a finding, each with its letter: a part of the bytes
    /// that the leaf was read from, right after the rows (docs/FORMAT.md, Entries).
    pub fn finding_bytes(&self) -> &'a [u8]
        ensures { result.now ≡ finding_bytes self.now }
    {
        self.findings
    }
}

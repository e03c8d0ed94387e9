// What a sheet that was read holds, and its survey.
ghost use Rattle.rows.specs.Frames.{IsFrame};

use bounds::Supplied;
use findings::recount;
use leaves::Heading;
use rows::{Fault, Finding, Row, Table};
use std::marker::Model;

/// A sheet that was read (docs/FORMAT.md, Sheets): a table that waits to be surveyed, and the bound to
/// count by.
#[derive(Debug, Drop)]
pub struct Sheet {
    table: Table,
    bound: Supplied,
    ghost framed: { IsFrame table.frame },
}

impl Model for Sheet {
    ghost use Rattle.sheets.specs.Tables.{OnSheet, on_sheet};

    ghost Value = { OnSheet };

    ghost view = { λ s. on_sheet
        (record { frame = s.table.frame; bound = s.bound; framed = s.framed }) s.table.rows };
}

impl Sheet {
    ghost use Rattle.std.specs.Prelude.{◌≡◌, map, length, MatchResult, OnOk};
    ghost use Rattle.rows.specs.Answers.{answer, checked};
    ghost use Rattle.rows.specs.Books.{book};
    ghost use Rattle.rows.specs.Lists.{written, StaysOutside};
    ghost use Rattle.rows.specs.Found.{tells};
    ghost use Rattle.findings.specs.Asking.{list_checks};
    ghost use Rattle.sheets.specs.Surveying.{table_findings, SurveySays};
    ghost use Rattle.sheets.specs.Tables.{IsLawfulSheet};

    // The sheet of a table, to be counted by a bound.
    pub(crate) fn of(table: Table, bound: Supplied) -> Sheet
        ensures rows { result.rows ≡ table.rows }
        ensures frame { result.heading.frame ≡ table.frame }
        ensures bound { result.heading.bound ≡ bound }
    {
        let _rows = table.len();
        Sheet { table, bound }
    }

    /// The heading: the frame of the rows, and the bound to count by (docs/FORMAT.md, Sheets).
    pub fn heading(&self) -> Heading
        ensures answered { result ≡ self.now.heading }
        ensures lawful { IsLawfulSheet self.now }
    {
        Heading {
            frame: self.table.frame().numbers(),
            bound: self.bound,
        }
    }

    /// The table: its frame, and the rows in rank order, their numbers in ticks (docs/FORMAT.md,
    /// Sheets).
    pub fn table(&self) -> &Table
        ensures { result.now ≡ book self.now.heading.frame self.now.rows }
    {
        &self.table
    }

    /// The rows in rank order, their numbers in ticks (docs/FORMAT.md, Sheets): 0 to 32 of them.
    pub fn rows(&self) -> &[Row]
        ensures { result.now ≡ self.now.rows }
    {
        self.table.rows()
    }

    /// The survey of the sheet by the bound that its heading names (docs/RULES.md, Surveys): puts the
    /// findings of the rows into the list, in rank order; the places past the last row stay. Answers
    /// how many rows there are.
    ///
    /// Refused with 12, short list, at 0 where the list has fewer places than there are rows
    /// (docs/REFUSALS.md). A refused call leaves the list as it was.
    pub fn survey(&self, list: &mut [Finding]) -> Result<usize, Fault>
        ensures answered { answer (λ n. n) result
            ≡ checked (list_checks (length self.now.rows) (length list.old)) (length self.now.rows) }
        ensures filled { MatchResult result
            (λ _. map tells list.new ≡ written (map tells list.old) 0 (table_findings self.now))
            (λ _. list.new ≡ list.old) }
        ensures stay { StaysOutside 0 (length self.now.rows) list.old list.new }
        ensures says { OnOk result (SurveySays self.now) }
    {
        recount(&self.bound, &self.table, 0, list)?;
        Ok(self.table.len())
    }
}

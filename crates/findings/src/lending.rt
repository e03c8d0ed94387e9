// The demand of a row below a table, lent to be read: what its finding is made of.
ghost use Rattle.std.specs.Prelude.{◌≡◌, IfOk};
ghost use Rattle.rows.specs.Answers.{first_refusal, refusal};
ghost use Rattle.rows.specs.Counting.{window};
ghost use Rattle.rows.specs.Found.{tells};
ghost use Rattle.findings.specs.Asking.{question_checks};
ghost use Rattle.findings.specs.Demand.{load};
ghost use Rattle.findings.specs.Findings.{load_finding};
ghost use Rattle.findings.specs.Loads.{load_of};
ghost use Rattle.findings.specs.Lent.{IsNextPoint, demand_told, lent_load, lent_window, rest_told};

use crate::asking::check_question;
use crate::loads::Load;
use crate::preparing::Prepared;
use crate::questions::Demand;
use bounds::Bound;
use rows::{Fault, Finding, HORIZON, Row, Table};

impl<'a, B: Bound> Demand<'a, B> {
    /// The demand of a row below a table.
    ///
    /// Refused as `find` is: 9, full table, at 0 below more than 31 rows; 8, off frame, at the rank
    /// below the table's last where the row's period does not divide the table's frame.
    pub fn of(bound: &'a B, row: &'a Row, above: &'a Table) -> Result<Demand<'a, B>, Fault>
        ensures answered { refusal result ≡ first_refusal (question_checks row.now above.now) }
        ensures load { IfOk result (λ d. lent_load d
            ≡ load (B.meaning bound.now) above.now.frame.ticks row.now.work above.now.rows) }
        ensures window { IfOk result (λ d. lent_window d ≡ window row.now) }
    {
        check_question(row, above)?;
        let mut prepared = Prepared::new();
        prepared.keep(bound, above.frame(), above.rows());
        Ok(Demand {
            bound,
            row,
            above,
            prepared,
        })
    }

    // The load that is read.
    fn load(&self) -> Load<'_, B>
        ensures { load_of result ≡ lent_load self.now }
    {
        Load::new(
            self.bound,
            self.above.frame(),
            self.row.work,
            self.above.rows(),
            &self.prepared,
        )
    }

    /// The window of the row, in ticks: the last instant that is tested.
    pub fn window(&self) -> u32
        ensures { result ≡ lent_window self.now }
    {
        self.row.window()
    }

    /// All that can be demanded up to an instant, in parts: the row's work and the amounts of the rows
    /// above. None past the horizon.
    pub fn at(&self, at: u32) -> Option<u64>
        ensures { result ≡ demand_told (lent_load self.now) at }
    {
        if at > HORIZON {
            return None;
        }
        Some(self.load().demand(at))
    }

    /// Whether all that can be demanded up to an instant is served by it. Nothing is past the horizon.
    pub fn is_rest(&self, at: u32) -> bool
        ensures { result ≡ rest_told (lent_load self.now) at }
    {
        at <= HORIZON && self.load().is_rest(at)
    }

    /// The first test point after an instant: none from the window on.
    pub fn next_point(&self, after: u32) -> Option<u32>
        ensures { IsNextPoint (lent_load self.now) (lent_window self.now) after result }
    {
        let last = self.row.window();
        if last <= after {
            return None;
        }
        Some(self.load().next_point(after, last))
    }

    /// The finding about the row (docs/RULES.md, Findings).
    pub fn finding(&self) -> Finding
        ensures { tells result ≡ load_finding (lent_load self.now) (lent_window self.now) }
    {
        self.load().finding(self.row.window())
    }
}

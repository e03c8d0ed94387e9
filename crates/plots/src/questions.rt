// What a picture is drawn of: a row with a rank below a table, and the bounds that it is counted by.
ghost use Rattle.std.specs.Prelude.{◌≡◌};
ghost use Rattle.rows.specs.Answers.{Passes};
ghost use Rattle.rows.specs.Counting.{window};
ghost use Rattle.findings.specs.Asking.{question_checks};
ghost use Rattle.findings.specs.Lent.{lent_window};

use bounds::{Bound, ExactSteps};
use findings::Demand;
use rows::{Fault, Row, Table};

/// A bound with what a picture calls it, at length and in short, as `linear tail` and `linear-3`.
#[derive(Clone, Copy)]
pub struct Named<'a, B> {
    pub bound: &'a B,
    pub name: &'a str,
    pub short: &'a str,
}

/// The demand of a row below a table in exact steps and by some bounds, with the rank and the name of
/// the task that are shown: what a picture is drawn of. `of` makes it.
#[derive(Drop)]
pub struct Drawing<'a, B: Bound> {
    pub(crate) task: &'a str,
    pub(crate) rank: usize,
    pub(crate) row: &'a Row,
    pub(crate) frame: u32,
    pub(crate) above: &'a Table,
    pub(crate) bounds: &'a [Named<'a, B>],
    pub(crate) exact: Demand<'a, ExactSteps>,
    pub(crate) ghost asked: { Passes (question_checks row.now above.now) },
    pub(crate) ghost same: { lent_window exact ≡ window row.now },
}

impl<'a, B: Bound> Drawing<'a, B> {
    ghost use Rattle.std.specs.Prelude.{IfOk, map};
    ghost use Rattle.rows.specs.Answers.{first_refusal, refusal};
    ghost use Rattle.bounds.specs.Supplied.{exact_steps};
    ghost use Rattle.findings.specs.Demand.{load};
    ghost use Rattle.findings.specs.Findings.{load_finding};
    ghost use Rattle.findings.specs.Lent.{lent_load};
    ghost use Rattle.plots.specs.Drawn.{
      drawn_bounded,
      drawn_exact,
      drawn_rank,
      drawn_row,
      drawn_task,
      drawn_window,
      load_by,
    };

    /// The drawing of a row below a table, by bounds: as many as there are, and by none in exact steps
    /// alone. The rank and the name of the task, which may be empty, are shown as they are given.
    ///
    /// Refused as `findings::find` is: 9, full table, at 0 below more than 31 rows; 8, off frame, at
    /// the rank below the table's last where the row's period does not divide the table's frame.
    pub fn of(
        task: &'a str,
        rank: usize,
        bounds: &'a [Named<'a, B>],
        row: &'a Row,
        above: &'a Table,
    ) -> Result<Drawing<'a, B>, Fault>
        ensures answered { refusal result ≡ first_refusal (question_checks row.now above.now) }
        ensures shown { IfOk result (λ d. (d.bounds.now ≡ bounds.now) × (drawn_rank d ≡ rank)
            × (drawn_task d ≡ task.now)) }
        ensures row { IfOk result (λ d. drawn_row d ≡ row.now) }
        ensures frame { IfOk result (λ d. d.frame ≡ above.now.frame.ticks) }
        ensures exact { IfOk result (λ d. drawn_exact d
            ≡ load exact_steps above.now.frame.ticks row.now.work above.now.rows) }
        ensures bounded { IfOk result (λ d. drawn_bounded d ≡ map (λ n. load (B.meaning n.bound.now)
            above.now.frame.ticks row.now.work above.now.rows) bounds.now) }
        ensures window { IfOk result (λ d. drawn_window d ≡ window row.now) }
    {
        let exact = Demand::of(&ExactSteps, row, above)?;
        Ok(Drawing {
            task,
            rank,
            row,
            frame: above.frame().ticks(),
            above,
            bounds,
            exact,
        })
    }

    // The demand by one of the bounds.
    pub(crate) fn demand(&self, named: &Named<'a, B>) -> Demand<'a, B>
        ensures load { lent_load result ≡ load_by self.now named.now }
        ensures window { lent_window result ≡ drawn_window self.now }
    {
        Demand::of(named.bound, self.row, self.above).unwrap()
    }

    // The first rest by one of the bounds, where the row has one.
    pub(crate) fn rest(&self, named: &Named<'a, B>) -> Option<u32>
        ensures { result ≡ (load_finding (load_by self.now named.now) (drawn_window self.now)).rest }
    {
        self.demand(named).finding().verdict.rest()
    }
}

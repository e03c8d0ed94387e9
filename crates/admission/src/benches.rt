// The bench: its four calls, and what can be seen of it.
ghost use Rattle.std.specs.Prelude.{◌≡◌};
ghost use Rattle.admission.specs.Promises.{overload_of};

use crate::calls::{Call, Reply};
use crate::keeping::Kept;
use bounds::Bound;
use rows::{Fault, Finding, FrameNumbers, MOST_ROWS, Numbers, Refusal, Row, Table, check_rank};
use std::marker::Model;

/// An admission bench (docs/RULES.md, The bench): a table of at most 32 rows on a frame, on which
/// tasks arrive and leave, with the finding of each row by a bound. Every row that stands meets.
#[derive(Debug, Drop)]
pub struct Bench<B: Bound> {
    bound: B,
    kept: Kept,
}

impl<B: Bound> Model for Bench<B> {
    ghost use Rattle.admission.specs.Benches.{Held, Keeps, kept_findings};

    ghost Value = { Held B };

    ghost view = { λ b. record {
      bound = b.bound;
      book = b.kept.table;
      findings = kept_findings b.kept;
    } };

    ghost invariant = { λ b. Keeps (B.meaning b.bound) b.kept };
}

impl<B: Bound> Bench<B> {
    ghost use Rattle.std.specs.Prelude.{◌≡◌, map, OnErr};
    ghost use Rattle.std.specs.List.{AllPass};
    ghost use Rattle.rows.specs.Found.{tells, is_met};
    ghost use Rattle.rows.specs.Books.{IsJudged};
    ghost use Rattle.findings.specs.Tables.{findings_of};
    ghost use Rattle.admission.specs.Benches.{bench, Does};
    ghost use Rattle.admission.specs.Books.{first_book};
    ghost use Rattle.admission.specs.Promises.{FinerAdmitsOn, FinerRestsOn, FirstMissDecidesOn};
    ghost use Rattle.admission.specs.Promises.{OverloadMisses, RowsMeetByBoth, TellsStanding};
    ghost use Rattle.admission.specs.Replies.{answer_of, as_done, as_found, IfRefused};
    ghost use Rattle.admission.specs.Runs.{GoesOn};
    ghost use Rattle.admission.specs.declared.calls.Call.{Call};

    /// A new bench: its bound, frame 1 and no row.
    pub fn new(bound: B) -> Bench<B>
        ensures { result ≡ bench (B.meaning bound) bound first_book }
    {
        Bench {
            bound,
            kept: Kept::empty(&FrameNumbers { ticks: 1 }.judge().unwrap()),
        }
    }

    /// The bound by which the bench counts.
    pub fn bound(&self) -> &B
        ensures { result.now ≡ self.now.bound }
    {
        &self.bound
    }

    /// The frame, and the rows that stand, in rank order: at most 32, all on the frame. Each meets by
    /// the bound and in exact steps. Of a newcomer that comes to be counted, the first row that misses
    /// with it in place decides the answer; and where a linear tail admits one, every more accurate
    /// tail does (docs/RULES.md, After every list of calls).
    pub fn table(&self) -> &Table
        ensures answered { result.now ≡ self.now.book }
        ensures stand { IsJudged self.now.book }
        ensures both { RowsMeetByBoth (B.meaning self.now.bound) self.now.book }
        ensures decides { FirstMissDecidesOn (B.meaning self.now.bound) self.now.book }
        ensures finer_admits { FinerAdmitsOn self.now.book }
        ensures finer_rests { FinerRestsOn self.now.book }
    {
        let _rows = self.kept.table.rows();
        &self.kept.table
    }

    /// The findings of the rows, in rank order (docs/RULES.md, The bench): those of a survey. All meet,
    /// and in exact steps each row rests no later.
    pub fn findings(&self) -> &[Finding]
        ensures answered { map tells result.now ≡ self.now.findings }
        ensures surveyed { self.now.findings
            ≡ findings_of (B.meaning self.now.bound) self.now.book.frame self.now.book.rows }
        ensures meet { AllPass is_met self.now.findings }
        ensures both { RowsMeetByBoth (B.meaning self.now.bound) self.now.book }
    {
        let _rows = self.kept.table.rows();
        self.kept.findings.as_slice()
    }

    /// Sets the frame, its length in ticks (docs/RULES.md, The bench).
    ///
    /// Refused, each at 0, with 1, bad frame, for a length of 0 or above the horizon; 2, standing rows,
    /// while a row stands (docs/REFUSALS.md). A refused call leaves the bench as it was.
    pub fn set_frame(&mut self, frame: FrameNumbers) -> Result<(), Fault>
        ensures does { Does (B.meaning self.old.bound) (Call.Frame frame)
            self.old self.new (as_done result) }
        ensures goes_on { GoesOn (B.meaning self.old.bound) (Call.Frame frame)
            self.old.book self.new.book (as_done result) }
        ensures refused { OnErr result (self.new ≡ self.old) }
    {
        let rows_stand = self.kept.table.len() > 0;
        let frame = frame.judge()?;
        if rows_stand {
            return Err(Refusal::StandingRows.at(0));
        }
        self.kept = Kept::empty(&frame);
        Ok(())
    }

    /// Puts the row of four numbers in at a rank, and the rows from there on move down (docs/RULES.md,
    /// The bench).
    ///
    /// Refused, each at 0 but the last two, with 4, idle row, 5, no window, 6, late deadline, 7, long
    /// period; 8, off frame; 9, full table, while 32 rows stand; 10, no rank, outside 1 to one past
    /// the last; 21, newcomer overload, at its own rank where the new row itself would miss; 11,
    /// overload, where it would meet, at the smallest rank, with it in place, of a row that stood and
    /// would miss (docs/REFUSALS.md). By a bound of accuracy k the row at the rank told would miss in
    /// exact steps too, at speed k / (k + 1). A refused call leaves the bench as it was.
    pub fn admit(&mut self, rank: usize, numbers: Numbers) -> Result<(), Fault>
        ensures does { Does (B.meaning self.old.bound) (Call.Admit rank numbers)
            self.old self.new (as_done result) }
        ensures goes_on { GoesOn (B.meaning self.old.bound) (Call.Admit rank numbers)
            self.old.book self.new.book (as_done result) }
        ensures overload { OverloadMisses (B.meaning self.old.bound) self.old.book
            (Call.Admit rank numbers) (answer_of (as_done result)) }
        ensures refused { OnErr result (self.new ≡ self.old) }
    {
        let row = numbers.judge_on(self.kept.table.frame(), 0)?;
        let count = self.kept.table.len();
        if count == MOST_ROWS {
            return Err(Refusal::FullTable.at(0));
        }
        check_rank(count + 1, rank)?;
        let kept = self.kept.with_row(&self.bound, rank, row);
        if let Some(place) = kept.first_miss() {
            return Err(overload_of(rank, place + 1).at(place as u32 + 1));
        }
        self.kept = kept;
        Ok(())
    }

    /// Takes the row at a rank out, and the rows below it move up (docs/RULES.md, The bench).
    ///
    /// Refused with 10, no rank, at 0 where no row stands at the rank (docs/REFUSALS.md). A refused
    /// call leaves the bench as it was.
    pub fn dismiss(&mut self, rank: usize) -> Result<(), Fault>
        ensures does { Does (B.meaning self.old.bound) (Call.Dismiss rank)
            self.old self.new (as_done result) }
        ensures goes_on { GoesOn (B.meaning self.old.bound) (Call.Dismiss rank)
            self.old.book self.new.book (as_done result) }
        ensures refused { OnErr result (self.new ≡ self.old) }
    {
        check_rank(self.kept.table.len(), rank)?;
        self.kept = self.kept.without_row(&self.bound, rank);
        Ok(())
    }

    /// The row at a rank and its finding (docs/RULES.md, The bench). As every row that stands, it is
    /// on the frame, and meets by the bound and in exact steps.
    ///
    /// Refused with 10, no rank, at 0 where no row stands at the rank (docs/REFUSALS.md).
    pub fn inquire(&self, rank: usize) -> Result<(Row, Finding), Fault>
        ensures does { Does (B.meaning self.now.bound) (Call.Inquire rank)
            self.now self.now (as_found result) }
        ensures goes_on { GoesOn (B.meaning self.now.bound) (Call.Inquire rank)
            self.now.book self.now.book (as_found result) }
        ensures told { TellsStanding (B.meaning self.now.bound) self.now.book
            (Call.Inquire rank) (as_found result) }
        ensures stand { IsJudged self.now.book }
        ensures meet { AllPass is_met
            (findings_of (B.meaning self.now.bound) self.now.book.frame self.now.book.rows) }
        ensures both { RowsMeetByBoth (B.meaning self.now.bound) self.now.book }
    {
        let rows = self.kept.table.rows();
        check_rank(rows.len(), rank)?;
        Ok((rows[rank - 1], self.kept.findings.as_slice()[rank - 1]))
    }

    /// Makes a call that is given as a value, and replies as that call does: one of the four above.
    pub fn call(&mut self, call: Call) -> Reply
        ensures does { Does (B.meaning self.old.bound) call self.old self.new result }
        ensures goes_on { GoesOn (B.meaning self.old.bound) call self.old.book self.new.book result }
        ensures overload { OverloadMisses (B.meaning self.old.bound) self.old.book call
            (answer_of result) }
        ensures told { TellsStanding (B.meaning self.old.bound) self.old.book call result }
        ensures refused { IfRefused result (self.new ≡ self.old) }
    {
        match call {
            Call::Frame(frame) => self.set_frame(frame).into(),
            Call::Admit(rank, numbers) => self.admit(rank, numbers).into(),
            Call::Dismiss(rank) => self.dismiss(rank).into(),
            Call::Inquire(rank) => self.inquire(rank).into(),
        }
    }
}

// What an admit at a rank is refused with where the first row that misses, with the newcomer in place, has
// the rank at: newcomer overload where that is the newcomer, and else overload.
fn overload_of(rank: usize, at: usize) -> Refusal
    ensures { result ≡ overload_of rank at }
{
    if at == rank {
        Refusal::NewcomerOverload
    } else {
        Refusal::Overload
    }
}

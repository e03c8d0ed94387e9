// A table with the finding of each of its rows, and how both are kept when a row comes or goes.
ghost use Rattle.std.specs.Prelude.{IsTrue, ◌≡◌, ◌+◌, ◌-◌, ◌<◌, ◌≤◌, [], ◌∷◌, ◌++◌, map, length, take, position};
ghost use Rattle.std.specs.List.{insert, remove};
ghost use Rattle.rows.specs.Books.{book};
ghost use Rattle.rows.specs.Counting.{is_on_frame};
ghost use Rattle.rows.specs.Times.{most_rows};
ghost use Rattle.rows.specs.Found.{tells, is_miss};
ghost use Rattle.findings.specs.Tables.{findings_of};
ghost use Rattle.admission.specs.Benches.{IsCounted, kept_findings};

use arrayvec::ArrayVec;
use bounds::Bound;
use findings::recount;
use rows::{Finding, Frame, MOST_ROWS, Row, Table, Verdict, put_in, take_out};

// Whether a finding says that its row misses.
fn is_miss(finding: &Finding) -> bool
    ensures { result ≡ is_miss (tells finding.now) }
{
    matches!(finding.verdict, Verdict::Misses)
}

// The place of the first finding that says so.
fn first_miss(findings: &[Finding]) -> Option<usize>
    ensures { result ≡ position (λ f. is_miss (tells f)) findings.now }
{
    findings.iter().position(is_miss)
}

// The same findings once more.
fn copied(findings: &ArrayVec<Finding, MOST_ROWS>) -> ArrayVec<Finding, MOST_ROWS>
    ensures { result.items ≡ findings.now.items }
{
    let mut copy = ArrayVec::new();
    copy.try_extend_from_slice(findings.as_slice()).unwrap();
    copy
}

// The same findings, with a place for one more put in at a rank.
fn one_more(findings: &ArrayVec<Finding, MOST_ROWS>, rank: usize) -> ArrayVec<Finding, MOST_ROWS>
    requires room { length findings.now.items < most_rows }
    requires low { 1 ≤ rank }
    requires high { rank ≤ length findings.now.items + 1 }
    ensures size { length result.items ≡ length findings.now.items + 1 }
    ensures before { take (rank - 1) result.items ≡ take (rank - 1) findings.now.items }
{
    let mut more = copied(findings);
    more.push(Finding::default());
    put_in(more.as_mut_slice(), rank, Finding::default()).unwrap();
    more
}

// The same findings without the one at a rank.
fn one_less(findings: &ArrayVec<Finding, MOST_ROWS>, rank: usize) -> ArrayVec<Finding, MOST_ROWS>
    requires low { 1 ≤ rank }
    requires high { rank ≤ length findings.now.items }
    ensures { result.items ≡ remove findings.now.items (rank - 1) }
{
    let mut less = copied(findings);
    let count = less.len();
    take_out(less.as_mut_slice(), rank).unwrap();
    less.truncate(count - 1);
    less
}

// Counts the rows of a table from a place on anew. The findings of those before it are known.
fn count_from<B: Bound>(
    bound: &B,
    table: &Table,
    from: usize,
    findings: &mut ArrayVec<Finding, MOST_ROWS>,
)
    requires within { from ≤ length table.now.rows }
    requires size { length findings.old.items ≡ length table.now.rows }
    requires known { take from (map tells findings.old.items)
        ≡ take from (findings_of (B.meaning bound.now) table.now.frame table.now.rows) }
    ensures { map tells findings.new.items
        ≡ findings_of (B.meaning bound.now) table.now.frame table.now.rows }
{
    recount(bound, table, from, findings.as_mut_slice()).unwrap();
}

// A table, and the finding of each of its rows.
#[derive(Debug, Drop)]
pub(crate) struct Kept {
    pub(crate) table: Table,
    pub(crate) findings: ArrayVec<Finding, MOST_ROWS>,
}

impl Kept {
    // A table of no row.
    pub(crate) fn empty(frame: &Frame) -> Kept
        ensures table { result.table ≡ book frame.now [] }
        ensures findings { kept_findings result ≡ [] }
    {
        Kept {
            table: Table::new(frame),
            findings: ArrayVec::new(),
        }
    }

    // The place of the first row that misses.
    #[tactic(auto, using(rows::proofs::Places::position_map))]
    pub(crate) fn first_miss(&self) -> Option<usize>
        ensures { result ≡ position is_miss (kept_findings self.now) }
    {
        first_miss(self.findings.as_slice())
    }

    // The table with a row put in at a rank: it is counted, and the rows below it anew.
    pub(crate) fn with_row<B: Bound>(&self, bound: &B, rank: usize, row: Row) -> Kept
        requires counted { IsCounted (B.meaning bound.now) self.now }
        requires room { length self.now.table.rows < most_rows }
        requires low { 1 ≤ rank }
        requires high { rank ≤ length self.now.table.rows + 1 }
        requires on { IsTrue (is_on_frame self.now.table.frame.ticks row) }
        ensures counted { IsCounted (B.meaning bound.now) result }
        ensures table { result.table
            ≡ book self.now.table.frame (insert self.now.table.rows (rank - 1) row) }
    {
        let mut table = self.table.copy();
        table.put_in(rank, row).unwrap();
        let mut findings = one_more(&self.findings, rank);
        count_from(bound, &table, rank - 1, &mut findings);
        Kept { table, findings }
    }

    // The table with the row at a rank taken out: the rows that stood below it are counted anew.
    pub(crate) fn without_row<B: Bound>(&self, bound: &B, rank: usize) -> Kept
        requires counted { IsCounted (B.meaning bound.now) self.now }
        requires low { 1 ≤ rank }
        requires high { rank ≤ length self.now.table.rows }
        ensures counted { IsCounted (B.meaning bound.now) result }
        ensures table { result.table
            ≡ book self.now.table.frame (remove self.now.table.rows (rank - 1)) }
    {
        let mut table = self.table.copy();
        table.take_out(rank).unwrap();
        let mut findings = one_less(&self.findings, rank);
        count_from(bound, &table, rank - 1, &mut findings);
        Kept { table, findings }
    }
}

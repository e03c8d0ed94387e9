// A judged table counted by a bound, row by row.
ghost use Rattle.std.specs.Prelude.{◌≡◌};
ghost use Rattle.bounds.specs.Families.{supplied_plain};
ghost use Rattle.filings.specs.Filings.{filed};

use crate::filings::Filing;
use crate::progress::Progress;
use bounds::Supplied;
use rows::Table;

/// Counts a table by a bound, its rows from rank 1 on (docs/RULES.md, Surveys). After each row the
/// progress is told.
pub fn count_by<P: Progress>(bound: Supplied, table: &Table, progress: &mut P) -> Filing
    ensures { result ≡ filed table.now.frame (supplied_plain bound) table.now.rows }
{
    let mut filing = Filing::of(table.frame(), bound);
    for (i, row) in table.rows().iter().enumerate() {
        filing.add(*row);
        progress.counted(bound, i + 1, table.len());
    }
    filing
}

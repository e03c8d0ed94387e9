// The findings of the rows of a table, counted into a list.
ghost use Rattle.std.specs.Prelude.{◌≡◌, ◌≤◌, map, length, drop, MatchResult, OnOk};
ghost use Rattle.rows.specs.Answers.{answer, checked};
ghost use Rattle.rows.specs.Lists.{written, StaysOutside};
ghost use Rattle.findings.specs.Countable.{CanBeCounted};
ghost use Rattle.rows.specs.Times.{most_rows};
ghost use Rattle.findings.specs.Asking.{list_checks};
ghost use Rattle.rows.specs.Found.{tells};
ghost use Rattle.findings.specs.Tables.{findings_of, TableSays};

use crate::loads::Load;
use crate::preparing::Prepared;
use bounds::Bound;
use rows::{Fault, Finding, Frame, Refusal, Row, Table};

// Puts the findings of the rows from a place on into the list, each at its row's place. Each row is
// searched from where the row above was served, plus its own work.
fn fill<B: Bound>(bound: &B, frame: &Frame, rows: &[Row], from: usize, list: &mut [Finding])
    requires countable { CanBeCounted most_rows frame.now.ticks rows.now }
    requires room { length rows.now ≤ length list.old }
    ensures filled { map tells list.new
        ≡ written (map tells list.old) from
        (drop from (findings_of (B.meaning bound.now) frame.now rows.now)) }
    ensures stay { StaysOutside from (length rows.now) list.old list.new }
{
    let mut prepared = Prepared::new();
    prepared.keep(bound, frame, &rows[..from.min(rows.len())]);
    let mut late = 0;
    for i in from..rows.len() {
        let row = &rows[i];
        let last = row.window();
        {
            let load = Load::new(bound, frame, row.work, &rows[0..i], &prepared);
            late = load.reach((late + row.work).min(last + 1), last);
            list[i] = load.search(late, last);
        }
        prepared.add(bound, frame, rows, i);
    }
}

/// The findings of the rows of a table, each below the rows before it, put into the list in rank
/// order (docs/RULES.md, Findings). The first `from` places stay, and those past the last row.
///
/// Refused with 12, short list, at 0 where the list has fewer places than there are rows. A refused
/// call leaves the list as it was.
pub fn recount<B: Bound>(
    bound: &B,
    table: &Table,
    from: usize,
    list: &mut [Finding],
) -> Result<(), Fault>
    ensures answered { answer (λ u. u) result
        ≡ checked (list_checks (length table.now.rows) (length list.old)) tt }
    ensures filled { MatchResult result (λ _. map tells list.new
        ≡ written (map tells list.old) from
        (drop from (findings_of (B.meaning bound.now) table.now.frame table.now.rows)))
        (λ _. list.new ≡ list.old) }
    ensures stay { StaysOutside from (length table.now.rows) list.old list.new }
    ensures says { OnOk result
        (TableSays (B.meaning bound.now) table.now.frame table.now.rows) }
{
    let rows = table.rows();
    if list.len() < rows.len() {
        return Err(Refusal::ShortList.at(0));
    }
    fill(bound, table.frame(), rows, from, list);
    Ok(())
}

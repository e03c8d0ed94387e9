// Whether what is counted of a table has a place for each row.
ghost use Rattle.std.specs.Prelude.{◌≡◌, ◌≤◌, OnOk};
ghost use Rattle.rows.specs.Answers.{answer, checked};
ghost use Rattle.rows.specs.Times.{most_rows};
ghost use Rattle.findings.specs.Asking.{size_checks};

use rows::{Fault, MOST_ROWS, Refusal};

/// Whether a table of so many rows can be counted into a list of so many places, one for each row.
///
/// Refused, each at 0, with 9, full table, above 32 rows, and 12, short list, with fewer places than
/// rows (docs/REFUSALS.md).
pub fn check_size(rows: usize, places: usize) -> Result<(), Fault>
    ensures answered { answer (λ u. u) result ≡ checked (size_checks rows places) tt }
    ensures few { OnOk result (rows ≤ most_rows) }
    ensures room { OnOk result (rows ≤ places) }
{
    if rows > MOST_ROWS {
        return Err(Refusal::FullTable.at(0));
    }
    if places < rows {
        return Err(Refusal::ShortList.at(0));
    }
    Ok(())
}

// Response times, in exact steps and with no frame.
ghost use Rattle.std.specs.Prelude.{◌≡◌, ◌+◌, ◌≤◌, length, map, IfOk, MatchResult, OnOk};
ghost use Rattle.std.specs.Option.{option_map};
ghost use Rattle.rows.specs.Answers.{answer, checked};
ghost use Rattle.rows.specs.Judging.{plain, rows_of};
ghost use Rattle.rows.specs.Lists.{written, StaysOutside};
ghost use Rattle.rows.specs.Times.{most_rows};
ghost use Rattle.findings.specs.Asking.{above_checks, most_above};
ghost use Rattle.findings.specs.Exact.{response, Responds};
ghost use Rattle.brackets.specs.Responses.{responses_of, response_checks, TableResponds};
ghost use Rattle.brackets.specs.Speeds.{IsExactOnFrames};

use crate::speeds::{Speed, climb};
use findings::check_size;
use rows::{Fault, MOST_ROWS, Numbers, Refusal, Row, judge_rows};

// An instant counted from the readiness of a row, counted from its release.
fn from_release(rest: Option<u32>, row: &Row) -> Option<u64>
    ensures { result ≡ option_map (λ t. t + row.now.jitter) rest }
{
    let rest = rest?;
    Some(u64::from(rest) + u64::from(row.jitter))
}

// The response time of a row below others that are few enough.
fn respond(row: &Row, above: &[Row]) -> Option<u64>
    requires { length above.now ≤ most_above }
    ensures { result ≡ response row.now above.now }
{
    let full = Speed {
        served: 1,
        within: 1,
    };
    from_release(climb(full, row, above), row)
}

/// The response time of a row below others in ticks from its release, in exact steps: none where it
/// misses its deadline (docs/RULES.md, Rests). It needs no frame, and is the first rest in exact
/// steps on every frame that the rows stand on, plus the jitter.
///
/// Refused with 9, full table, at 0 with more than 31 rows above (docs/REFUSALS.md).
pub fn response_time(row: &Row, above: &[Row]) -> Result<Option<u64>, Fault>
    ensures answered { answer (λ o. o) result
        ≡ checked (above_checks above.now) (response row.now above.now) }
    ensures fixed { IfOk result (λ o. Responds row.now above.now o) }
    ensures frames { IfOk result (λ o. IsExactOnFrames row.now above.now o) }
{
    // With the row itself there is one more.
    if above.len() >= MOST_ROWS {
        return Err(Refusal::FullTable.at(0));
    }
    Ok(respond(row, above))
}

// Puts the response times of rows into the list, each at its row's place.
fn fill(rows: &[Row], list: &mut [Option<u64>])
    requires few { length rows.now ≤ most_rows }
    requires room { length rows.now ≤ length list.old }
    ensures filled { list.new ≡ written list.old 0 (responses_of rows.now) }
    ensures stay { StaysOutside 0 (length rows.now) list.old list.new }
{
    for i in 0..rows.len() {
        list[i] = respond(&rows[i], &rows[..i]);
    }
}

/// The response times of the rows of a table in ticks from their releases, in exact steps, put into the
/// list in rank order: of a row that misses its deadline none. The places past the last row stay. It
/// needs no frame, so the periods need no common multiple. Answers how many rows there are.
///
/// Refused, each at 0, with 9, full table, and 12, short list; then with 4, idle row, 5, no window, 6,
/// late deadline, and 7, long period, at the smallest rank that is so (docs/REFUSALS.md). A refused
/// call leaves the list as it was.
pub fn response_times(table: &[Numbers], list: &mut [Option<u64>]) -> Result<usize, Fault>
    ensures answered { answer (λ n. n) result
        ≡ checked (response_checks table.now (length list.old)) (length table.now) }
    ensures filled { MatchResult result
        (λ _. list.new ≡ written list.old 0 (responses_of (rows_of table.now)))
        (λ _. list.new ≡ list.old) }
    ensures stay { StaysOutside 0 (length table.now) list.old list.new }
    ensures rows { OnOk result (map plain (rows_of table.now) ≡ table.now) }
    ensures says { OnOk result (TableResponds (rows_of table.now)) }
{
    check_size(table.len(), list.len())?;
    let rows = judge_rows(table)?;
    fill(rows.as_slice(), list);
    Ok(table.len())
}

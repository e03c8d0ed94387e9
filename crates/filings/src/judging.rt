// What is checked of a table before it is counted, and the table that it is then.
ghost use Rattle.std.specs.Prelude.{◌≡◌, ◌∷◌, [], map, None, IfOk, OnOk};
ghost use Rattle.rows.specs.Answers.{answer, checked};
ghost use Rattle.rows.specs.Books.{book, plain_book};
ghost use Rattle.rows.specs.Judging.{plain, rows_of};
ghost use Rattle.filings.specs.Checks.{
  bound_check,
  bound_checks,
  filing_checks,
  frame_for,
  given_frame_checks,
  table_checks,
};

use crate::frames::common_frame;
use bounds::Family;
use rows::{Fault, Frame, FrameNumbers, Numbers, Refusal, Table, judge_rows};

/// Judges a table that is to be counted by bounds, each named by its kind and an accuracy
/// (docs/RULES.md, Surveys): on the frame given, or else on the common frame of its periods. Answers the
/// table; by which of these bounds it is counted, `count_by` is told.
///
/// Refused with the first of these that applies: 1, bad frame, at 0, where a frame is given; 3, bad
/// accuracy, at 0, for each bound in turn; 9, full table, at 0; 4, idle row, 5, no window, 6, late
/// deadline, and 7, long period, at the smallest rank that is so; then 8, off frame, at the smallest rank,
/// where a frame is given; else 1, bad frame, at 0, where the periods have no common multiple up to the
/// horizon (docs/REFUSALS.md).
pub fn judge(
    frame: Option<FrameNumbers>,
    bounds: &[(Family, u32)],
    table: &[Numbers],
) -> Result<Table, Fault>
    ensures answered { answer plain_book result
        ≡ checked (filing_checks frame bounds.now table.now) (frame_for frame table.now, table.now) }
    ensures made { IfOk result (λ t. t ≡ book (frame_for frame table.now) (rows_of table.now)) }
    ensures rows { OnOk result (map plain (rows_of table.now) ≡ table.now) }
{
    let frame = judge_frame(frame)?;
    check_bounds(bounds)?;
    judge_on(frame, table)
}

// The frame that is given, if one is, judged.
pub(crate) fn judge_frame(frame: Option<FrameNumbers>) -> Result<Option<Frame>, Fault>
    ensures { answer (λ f. f) result ≡ checked (given_frame_checks frame) frame }
{
    match frame {
        Some(numbers) => Ok(Some(numbers.judge()?)),
        None => Ok(None),
    }
}

// Refuses bounds of which some are named by an accuracy that no bound of their kind has.
fn check_bounds(bounds: &[(Family, u32)]) -> Result<(), Fault>
    ensures { answer (λ u. u) result ≡ checked (bound_checks bounds.now) tt }
{
    for bound in bounds {
        check_bound(bound)?;
    }
    Ok(())
}

// Refuses a bound that is named by an accuracy that no bound of its kind has.
fn check_bound(bound: &(Family, u32)) -> Result<(), Fault>
    ensures { answer (λ u. u) result ≡ checked (bound_check bound.now ∷ []) tt }
{
    let (family, accuracy) = *bound;
    match family.bound(accuracy) {
        Ok(_) => Ok(()),
        Err(fault) => Err(fault),
    }
}

// The table of numbers on the frame given, or else on the common one of their periods.
pub(crate) fn judge_on(frame: Option<Frame>, table: &[Numbers]) -> Result<Table, Fault>
    ensures answered { answer plain_book result
        ≡ checked (table_checks frame table.now) (frame_for frame table.now, table.now) }
    ensures made { IfOk result (λ t. t ≡ book (frame_for frame table.now) (rows_of table.now)) }
    ensures rows { OnOk result (map plain (rows_of table.now) ≡ table.now) }
{
    match frame {
        Some(frame) => Table::judge(&frame, table),
        None => judge_on_common(table),
    }
}

// The table of numbers on the common frame of their periods.
fn judge_on_common(table: &[Numbers]) -> Result<Table, Fault>
    ensures answered { answer plain_book result
        ≡ checked (table_checks None table.now) (frame_for None table.now, table.now) }
    ensures made { IfOk result (λ t. t ≡ book (frame_for None table.now) (rows_of table.now)) }
    ensures rows { OnOk result (map plain (rows_of table.now) ≡ table.now) }
{
    judge_rows(table)?;
    match common_frame(table) {
        Some(frame) => Table::judge(&frame, table),
        None => Err(Refusal::BadFrame.at(0)),
    }
}

// The instants of a window that are drawn: few enough for a picture, and all that decide.
ghost use Rattle.std.specs.Prelude.{◌≡◌, ◌+◌, ◌≤◌, IfOk, OnOk};
ghost use Rattle.std.specs.Ordering.{nat_cmp};
ghost use Rattle.std.specs.BTreeSet.{IsOrdered, btree_set_len};
ghost use Rattle.rows.specs.Times.{ceiling};
ghost use Rattle.findings.specs.Findings.{is_tested};
ghost use Rattle.findings.specs.Lent.{lent_load, lent_window};
ghost use Rattle.plots.specs.Thinning.{
  Draws,
  DrawsColumns,
  DrawsMore,
  DrawsRest,
  DrawsWithin,
  IsThinned,
};

use bounds::Bound;
use findings::Demand;
use std::alloc::{AllocError, Global};
use std::collections::BTreeSet;

/// A picture has so many columns of instants.
pub const COLUMNS: u32 = 720;

// How many instants a column has.
pub(crate) fn column_width(window: u32) -> u32
    ensures { result ≡ ceiling window COLUMNS }
{
    window.div_ceil(COLUMNS)
}

// Keeps an instant of the window.
fn keep(kept: &mut BTreeSet<u32>, window: u32, at: u32) -> Result<(), AllocError>
    requires inside { DrawsWithin window kept.old }
    requires some { 1 ≤ at }
    requires near { at ≤ window }
    ensures kept { OnOk result (Draws kept.new at) }
    ensures more { OnOk result (DrawsMore kept.old kept.new) }
    ensures within { OnOk result (DrawsWithin window kept.new) }
    ensures few { OnOk result (btree_set_len kept.new ≤ btree_set_len kept.old + 1) }
    ensures rising { IsOrdered nat_cmp kept.new }
{
    kept.insert(at)?;
    Ok(())
}

// The first test point of each column that has one.
fn column_points<B: Bound>(
    alloc: Global,
    demand: &Demand<'_, B>,
) -> Result<BTreeSet<u32>, AllocError>
    ensures within { IfOk result (λ kept. DrawsWithin (lent_window demand.now) kept) }
    ensures firsts { IfOk result (λ kept. DrawsColumns
        (is_tested (lent_load demand.now) (lent_window demand.now)) (lent_window demand.now)
        (ceiling (lent_window demand.now) COLUMNS) COLUMNS kept) }
    ensures few { IfOk result (λ kept. btree_set_len kept ≤ COLUMNS) }
{
    let window = demand.window();
    let width = column_width(window);
    let mut kept = BTreeSet::new(alloc);
    for column in 0..COLUMNS {
        let start = column * width;
        if let Some(point) = demand.next_point(start) {
            if point <= start + width {
                keep(&mut kept, window, point)?;
            }
        }
    }
    Ok(kept)
}

// Keeps what decides about a first rest: the instant before it, itself, and the first test point from
// it on.
fn keep_rest<B: Bound>(
    kept: &mut BTreeSet<u32>,
    demand: &Demand<'_, B>,
    rest: u32,
) -> Result<(), AllocError>
    requires { DrawsWithin (lent_window demand.now) kept.old }
    ensures decides { OnOk result
        (DrawsRest (is_tested (lent_load demand.now) (lent_window demand.now))
        (lent_window demand.now) rest kept.new) }
    ensures more { OnOk result (DrawsMore kept.old kept.new) }
    ensures within { OnOk result (DrawsWithin (lent_window demand.now) kept.new) }
    ensures few { OnOk result (btree_set_len kept.new ≤ btree_set_len kept.old + 3) }
{
    let window = demand.window();
    if rest == 0 || rest > window {
        return Ok(());
    }
    if rest > 1 {
        keep(kept, window, rest - 1)?;
    }
    keep(kept, window, rest)?;
    match demand.next_point(rest - 1) {
        Some(stop) => keep(kept, window, stop),
        None => Ok(()),
    }
}

/// The instants of a demand's window that are drawn, in ticks, from 1 to the window: the window is cut
/// into columns, and the first test point of each column is kept (docs/RULES.md, Test points), and
/// besides the window, each of the first rests that lies in it, the instant before it and the first
/// test point from it on.
pub fn instants<B: Bound>(
    alloc: Global,
    demand: &Demand<'_, B>,
    rests: &[u32],
) -> Result<BTreeSet<u32>, AllocError>
    ensures thinned { IfOk result (IsThinned
        (is_tested (lent_load demand.now) (lent_window demand.now)) (lent_window demand.now) COLUMNS
        rests.now) }
    ensures rising { IfOk result (IsOrdered nat_cmp) }
{
    let mut kept = column_points(alloc, demand)?;
    for rest in rests {
        keep_rest(&mut kept, demand, *rest)?;
    }
    let window = demand.window();
    keep(&mut kept, window, window)?;
    Ok(kept)
}

// What a picture shows, in whole numbers.
ghost use Rattle.std.specs.Prelude.{◌≡◌, ◌++◌, IfOk, OnOk, map};
ghost use Rattle.std.specs.List.{AllZip};
ghost use Rattle.std.specs.Option.{option_to_list};
ghost use Rattle.rows.specs.Found.{tells};
ghost use Rattle.findings.specs.Findings.{load_finding};
ghost use Rattle.findings.specs.Lent.{lent_load, lent_window};
ghost use Rattle.plots.specs.Drawn.{
  drawn_bounded,
  drawn_exact,
  drawn_rests,
  drawn_window,
};
ghost use Rattle.plots.specs.Pictures.{IsBoundCurveOf, IsCurve, IsCurveOf, point_told};

use crate::points::{count_points, is_point};
use crate::questions::Drawing;
use crate::thinning::{COLUMNS, instants};
use bounds::Bound;
use findings::Demand;
use rows::Finding;
use std::alloc::{AllocError, Global};
use std::collections::BTreeSet;

/// An instant that is drawn, in ticks: the demand up to it, in parts, and whether it is a test point.
#[derive(Clone, Copy)]
pub struct Point {
    pub at: u32,
    pub demand: u64,
    pub tested: bool,
}

/// What is drawn of a demand, and the finding.
#[derive(Drop)]
pub struct Curve {
    pub points: Vec<Point>,
    pub finding: Finding,
}

/// The same by a bound, with how many test points the window has by it.
#[derive(Drop)]
pub struct BoundCurve {
    pub curve: Curve,
    pub tests: u32,
}

/// What a picture shows, in whole numbers: the window, and what is drawn of the demand in exact steps
/// and by each bound in turn.
#[derive(Drop)]
pub struct Picture {
    pub window: u32,
    pub exact: Curve,
    pub bounded: Vec<BoundCurve>,
}

// What is drawn at an instant. Past the horizon nothing is.
fn draw_point<B: Bound>(demand: &Demand<'_, B>, at: u32) -> Point
    ensures { result ≡ point_told (lent_load demand.now) (lent_window demand.now) at }
{
    Point {
        at,
        demand: demand.at(at).unwrap_or(0),
        tested: is_point(demand, at),
    }
}

// What is drawn at the instants that are kept.
fn draw_points<B: Bound>(
    alloc: Global,
    demand: &Demand<'_, B>,
    kept: &BTreeSet<u32>,
) -> Result<Vec<Point>, AllocError>
    ensures { IfOk result (λ points. points.items
        ≡ map (point_told (lent_load demand.now) (lent_window demand.now)) kept.now.keys) }
{
    kept.iter().map(|at| draw_point(demand, *at)).collect(alloc)
}

// What is drawn of a demand at the instants that are kept of its window.
fn points<B: Bound>(
    alloc: Global,
    demand: &Demand<'_, B>,
    rests: &[u32],
) -> Result<Vec<Point>, AllocError>
    ensures { IfOk result (λ points.
        IsCurve (lent_load demand.now) (lent_window demand.now) COLUMNS rests.now points.items) }
{
    let kept = instants(alloc, demand, rests)?;
    draw_points(alloc, demand, &kept)
}

// What is drawn of a demand whose finding is known.
fn curve_of<B: Bound>(
    alloc: Global,
    demand: &Demand<'_, B>,
    finding: Finding,
    rests: &[u32],
) -> Result<Curve, AllocError>
    requires { tells finding ≡ load_finding (lent_load demand.now) (lent_window demand.now) }
    ensures { IfOk result
        (IsCurveOf (lent_load demand.now) (lent_window demand.now) COLUMNS rests.now) }
{
    Ok(Curve {
        points: points(alloc, demand, rests)?,
        finding,
    })
}

// What is drawn of a demand by a bound.
fn bound_curve_of<B: Bound>(
    alloc: Global,
    demand: &Demand<'_, B>,
    rests: &[u32],
) -> Result<BoundCurve, AllocError>
    ensures { IfOk result
        (IsBoundCurveOf (lent_window demand.now) COLUMNS rests.now (lent_load demand.now)) }
{
    Ok(BoundCurve {
        curve: curve_of(alloc, demand, demand.finding(), rests)?,
        tests: count_points(demand),
    })
}

// What is drawn of the demand by each bound.
fn bound_curves<B: Bound>(
    alloc: Global,
    drawing: &Drawing<'_, B>,
    rests: &[u32],
) -> Result<Vec<BoundCurve>, AllocError>
    ensures { IfOk result (λ curves. AllZip (IsBoundCurveOf (drawn_window drawing.now) COLUMNS rests.now)
        (drawn_bounded drawing.now) curves.items) }
{
    let mut curves = Vec::new(alloc);
    for named in drawing.bounds {
        let demand = drawing.demand(named);
        curves.push(bound_curve_of(alloc, &demand, rests)?)?;
    }
    Ok(curves)
}

// Puts a first rest behind others, where there is one.
fn push_rest(rests: &mut Vec<u32>, rest: Option<u32>) -> Result<(), AllocError>
    ensures { OnOk result (rests.new.items ≡ rests.old.items ++ option_to_list rest) }
{
    if let Some(at) = rest {
        rests.push(at)?;
    }
    Ok(())
}

// The first rests that there are: that in exact steps, which is known, and then those by the bounds.
fn list_rests<B: Bound>(
    alloc: Global,
    drawing: &Drawing<'_, B>,
    exact: Option<u32>,
) -> Result<Vec<u32>, AllocError>
    requires { exact ≡ (load_finding (drawn_exact drawing.now) (drawn_window drawing.now)).rest }
    ensures { IfOk result (λ rests. rests.items ≡ drawn_rests drawing.now) }
{
    let mut rests = Vec::new(alloc);
    push_rest(&mut rests, exact)?;
    for named in drawing.bounds {
        push_rest(&mut rests, drawing.rest(named))?;
    }
    Ok(rests)
}

/// What the picture of a row's demand shows, in whole numbers: the window of the row; of each count the
/// instants that are kept (see `instants`), with the demand up to each and whether it is a test point,
/// and the finding; and how many test points the window has by each bound. Out of memory is an `Err`.
pub fn picture_of<B: Bound>(alloc: Global, drawing: &Drawing<'_, B>) -> Result<Picture, AllocError>
    ensures window { IfOk result (λ p. p.window ≡ drawn_window drawing.now) }
    ensures exact { IfOk result (λ p. IsCurveOf (drawn_exact drawing.now) (drawn_window drawing.now)
        COLUMNS (drawn_rests drawing.now) p.exact) }
    ensures bounded { IfOk result (λ p. AllZip
        (IsBoundCurveOf (drawn_window drawing.now) COLUMNS (drawn_rests drawing.now))
        (drawn_bounded drawing.now) p.bounded.items) }
{
    let finding = drawing.exact.finding();
    let rests = list_rests(alloc, drawing, finding.verdict.rest())?;
    Ok(Picture {
        window: drawing.row.window(),
        exact: curve_of(alloc, &drawing.exact, finding, &rests)?,
        bounded: bound_curves(alloc, drawing, &rests)?,
    })
}

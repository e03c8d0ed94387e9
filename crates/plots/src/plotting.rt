// What is drawn, and where its instants and amounts stand.
ghost use Rattle.std.specs.Prelude.{◌≤◌};

use crate::layout::{FOOT, HEIGHT, LEFT, Layout, WIDTH};
use crate::pictures::{Picture, Point};
use crate::questions::Drawing;
use crate::scales::scale;
use crate::shown::Shown;
use bounds::Bound;
use std::alloc::{AllocError, Global};

// Amounts that pass the top of the picture go on upward as far as so many heights.
const BEYOND: u32 = 64;

// A drawing with what it shows, its bounds, the work at the top of the picture, and what stands below.
#[derive(Drop)]
pub(crate) struct Plot<'a, B: Bound> {
    pub(crate) drawing: &'a Drawing<'a, B>,
    pub(crate) picture: &'a Picture,
    pub(crate) bounds: Vec<Shown<'a, B>>,
    pub(crate) layout: Layout,
    pub(crate) top: u32,
}

// The bounds of a drawing, with what is shown of them.
fn shown<'a, B: Bound>(
    alloc: Global,
    drawing: &'a Drawing<'a, B>,
    picture: &'a Picture,
) -> Result<Vec<Shown<'a, B>>, AllocError> {
    let mut bounds = Vec::new(alloc);
    for (place, named) in drawing.bounds.iter().enumerate() {
        if let Some(drawn) = picture.bounded.get(place) {
            bounds.push(Shown::new(alloc, drawing, place, named, drawn)?)?;
        }
    }
    Ok(bounds)
}

// The demand at the last of some points.
fn last(points: &[Point]) -> u64 {
    points.last().map_or(0, |point| point.demand)
}

// The highest demand that is drawn at the end of the window.
fn highest(picture: &Picture) -> u64 {
    let mut parts = last(&picture.exact.points);
    for drawn in &picture.bounded {
        parts = parts.max(last(&drawn.curve.points));
    }
    parts
}

// The work at the top: a little above the window and what is drawn, with room for the label of each
// bound, and at most about 1.3 times the window.
fn top(picture: &Picture, unit: u64) -> u32
    requires { 1 ≤ unit }
{
    let window = u64::from(picture.window);
    let work = highest(picture).div_ceil(unit).max(window);
    let labels = (picture.bounded.len() as u64).max(1);
    let limit = window * 13 / 10 + 1;
    let top = work
        .saturating_add((work / 20).saturating_mul(labels))
        .saturating_add(1)
        .min(limit);
    u32::try_from(top).unwrap_or(u32::MAX)
}

impl<'a, B: Bound> Plot<'a, B> {
    // The drawing on scales that suit it.
    pub(crate) fn new(
        alloc: Global,
        drawing: &'a Drawing<'a, B>,
        picture: &'a Picture,
    ) -> Result<Plot<'a, B>, AllocError> {
        Ok(Plot {
            drawing,
            picture,
            bounds: shown(alloc, drawing, picture)?,
            layout: Layout::new(picture.bounded.len()),
            top: top(picture, u64::from(drawing.frame).max(1)),
        })
    }

    // Some work in parts.
    pub(crate) fn parts(&self, work: u32) -> u64 {
        u64::from(work) * u64::from(self.drawing.frame)
    }

    // The demand in exact steps up to an instant, in parts.
    pub(crate) fn exact(&self, at: u32) -> u64 {
        self.drawing.exact.at(at).unwrap_or(0)
    }

    // Where an instant stands on the axis of time, in tenths.
    pub(crate) fn x(&self, at: u32) -> i64 {
        let right = scale(u64::from(at), u64::from(self.picture.window).max(1), WIDTH);
        LEFT + i64::from(right)
    }

    // Where an amount in parts stands on the axis of work, or above it, in tenths.
    pub(crate) fn y(&self, parts: u64) -> i64 {
        let whole = self.parts(self.top).saturating_mul(u64::from(BEYOND));
        let up = scale(parts, whole.max(1), BEYOND * HEIGHT);
        FOOT - i64::from(up)
    }
}

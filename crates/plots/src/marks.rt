// The marks of a picture: test points below the axis of time, and first rests on the curves.
use crate::filling::{Value, fill};
use crate::forms::{CIRCLE, DIAMOND, DIAMONDS, LABEL, LANE, MARKED, SQUARE, STROKE, STROKES};
use crate::labels::{Labels, Room};
use crate::layout::{FOOT, LEFT};
use crate::pictures::Point;
use crate::plotting::Plot;
use crate::shown::Shown;
use bounds::Bound;
use std::alloc::Global;
use std::io;
use std::io::Write;

// Below an amount so far above the foot a label has no room, and within so much nor has a second one
// above the first, in tenths.
const ROOM: i64 = 260;

const ROOM_ABOVE: i64 = 450;

// How wide labels are at most, in tenths: in exact steps; by a bound whose short name has so many
// characters or fewer; and so much wider for each more. On the right they end at the last.
const EXACT_LABEL: i64 = 1190;

const BOUNDED_LABEL: i64 = 1530;

const SHORT: i64 = 9;

const LETTER: i64 = 80;

const RIGHT: i64 = 8950;

// A mark for each test point that is drawn, beginning at a height.
fn draw_points<B: Bound, W: Write>(
    plot: &Plot<'_, B>,
    points: &[Point],
    form: &str,
    y: i64,
    writer: &mut W,
) -> io::Result<()> {
    for point in points {
        if point.tested {
            let x = Value::Tenths(plot.x(point.at));
            fill(writer, form, &[x, Value::Tenths(y)])?;
        }
    }
    Ok(())
}

// On which side of its mark a label stands: how far away, and which of its ends is there.
fn side(right: bool, off: i64) -> (Value<'static>, Value<'static>) {
    if right {
        (Value::Signed(off), Value::Words("start"))
    } else {
        (Value::Signed(off.saturating_neg()), Value::Words("end"))
    }
}

// The first rest in exact steps: its label below it on the right, where the curves have risen.
fn draw_exact_rest<B: Bound, W: Write>(
    plot: &Plot<'_, B>,
    rest: u32,
    writer: &mut W,
) -> io::Result<()> {
    let x = plot.x(rest);
    let y = plot.y(plot.exact(rest));
    let dy = Value::Signed(if y > FOOT - ROOM { -9 } else { 18 });
    let (dx, end) = side(x <= RIGHT - EXACT_LABEL, 9);
    let x = Value::Tenths(x);
    let y = Value::Tenths(y);
    let words = Value::Words("exact");
    let rest = Value::Whole(u64::from(rest));
    fill(writer, LABEL, &[x, y, dx, dy, end, words, rest])?;
    fill(writer, CIRCLE, &[x, y])
}

// How wide the label of a bound is at most, in tenths.
fn label_width<B: Bound>(shown: &Shown<'_, B>) -> i64 {
    let more = shown.short_len().saturating_sub(SHORT).max(0);
    more.saturating_mul(LETTER).saturating_add(BOUNDED_LABEL)
}

// The label of the first rest by a bound: above it on the left, where the curves have not risen yet.
fn draw_label<B: Bound, W: Write>(
    shown: &Shown<'_, B>,
    (x, y): (i64, i64),
    rest: u32,
    labels: &mut Labels,
    writer: &mut W,
) -> io::Result<()> {
    let width = label_width(shown);
    let right = x < width.saturating_add(LEFT);
    let off = shown.off();
    let up = if y > FOOT - ROOM_ABOVE {
        off.saturating_add(15)
    } else {
        off
    };
    let left = if right { x } else { x.saturating_sub(width) };
    let room = Room {
        left,
        right: left.saturating_add(width),
        foot: y.saturating_sub(up.saturating_mul(10)),
    };
    let dy = Value::Signed(labels.put(room)?.saturating_add(up).saturating_neg());
    let (dx, end) = side(right, off);
    let rest = Value::Whole(u64::from(rest));
    let values = [
        Value::Tenths(x),
        Value::Tenths(y),
        dx,
        dy,
        end,
        shown.short(),
        rest,
    ];
    fill(writer, LABEL, &values)
}

// The first rest by a bound: an open square.
fn draw_bounded_rest<B: Bound, W: Write>(
    plot: &Plot<'_, B>,
    shown: &Shown<'_, B>,
    rest: u32,
    labels: &mut Labels,
    writer: &mut W,
) -> io::Result<()> {
    let x = plot.x(rest);
    let y = plot.y(shown.at(rest));
    draw_label(shown, (x, y), rest, labels, writer)?;
    draw_square(shown, x, y, writer)
}

// The square of a bound around a place, in tenths.
pub(crate) fn draw_square<B: Bound, W: Write>(
    shown: &Shown<'_, B>,
    x: i64,
    y: i64,
    writer: &mut W,
) -> io::Result<()> {
    let side = shown.square();
    let half = side.saturating_mul(5);
    let corner = Value::Tenths(x.saturating_sub(half));
    let head = Value::Tenths(y.saturating_sub(half));
    let side = Value::Signed(side);
    fill(writer, SQUARE, &[shown.class(), corner, head, side, side])
}

// A diamond for a test point by a bound is so high above the middle of its lane, and a stroke for one in
// exact steps, in tenths.
pub(crate) const DIAMOND_UP: i64 = 45;

pub(crate) const STROKE_UP: i64 = 35;

// What the lanes of marks are for.
fn draw_lanes<B: Bound, W: Write>(plot: &Plot<'_, B>, writer: &mut W) -> io::Result<()> {
    for shown in &plot.bounds {
        let y = Value::Tenths(plot.layout.lane(shown.place));
        fill(writer, LANE, &[y, Value::Signed(5), shown.short()])?;
    }
    let y = Value::Tenths(plot.layout.exact_lane());
    fill(writer, LANE, &[y, Value::Signed(4), Value::Words("exact")])
}

// The marks of the test points.
fn draw_tests<B: Bound, W: Write>(plot: &Plot<'_, B>, writer: &mut W) -> io::Result<()> {
    for shown in &plot.bounds {
        let y = plot.layout.lane(shown.place).saturating_sub(DIAMOND_UP);
        fill(writer, DIAMONDS, &[shown.class()])?;
        draw_points(plot, &shown.drawn.curve.points, DIAMOND, y, writer)?;
        fill(writer, MARKED, &[])?;
    }
    let y = plot.layout.exact_lane().saturating_sub(STROKE_UP);
    fill(writer, STROKES, &[])?;
    draw_points(plot, &plot.picture.exact.points, STROKE, y, writer)?;
    fill(writer, MARKED, &[])
}

// All marks.
pub(crate) fn draw_marks<B: Bound, W: Write>(
    alloc: Global,
    plot: &Plot<'_, B>,
    writer: &mut W,
) -> io::Result<()> {
    draw_lanes(plot, writer)?;
    draw_tests(plot, writer)?;
    if let Some(rest) = plot.picture.exact.finding.verdict.rest() {
        draw_exact_rest(plot, rest, writer)?;
    }
    let mut labels = Labels::new(alloc);
    for shown in &plot.bounds {
        if let Some(rest) = shown.drawn.curve.finding.verdict.rest() {
            draw_bounded_rest(plot, shown, rest, &mut labels, writer)?;
        }
    }
    Ok(())
}

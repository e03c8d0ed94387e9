// The legend of a picture: what its lines and marks mean, in words below it.
use crate::filling::{Value, fill};
use crate::forms::{
    BOUNDED_LINE, BOUNDED_POINTS, CIRCLE, DIAMOND, DIAMONDS, EXACT_LINE, EXACT_POINTS, FOUND,
    MARKED, OTHER_LINES, STROKE, STROKES,
};
use crate::marks::{DIAMOND_UP, STROKE_UP, draw_square};
use crate::pictures::{Curve, Point};
use crate::plotting::Plot;
use crate::shown::Shown;
use bounds::Bound;
use rows::Finding;
use std::io;
use std::io::Write;

// Where marks stand in the legend, from the left.
const MARK: i64 = 452;

// How many points are test points.
pub(crate) fn count_tested(points: &[Point]) -> Value<'static> {
    Value::Whole(points.iter().filter(|point| point.tested).count() as u64)
}

// How many points a finding tells.
pub(crate) fn count_told(finding: &Finding) -> Value<'static> {
    Value::Whole(u64::from(finding.points))
}

// What is found by a count that is called in some way.
fn draw_found<W: Write>(curve: &Curve, words: Value<'_>, y: i64, writer: &mut W) -> io::Result<()> {
    let rest = curve.finding.verdict.rest();
    let first = Value::Words(if rest.is_some() { "first " } else { "" });
    let told = count_told(&curve.finding);
    let values = [Value::Signed(y), words, first, Value::Rest(rest), told];
    fill(writer, FOUND, &values)
}

// The lines, on the left.
fn draw_lines<B: Bound, W: Write>(plot: &Plot<'_, B>, writer: &mut W) -> io::Result<()> {
    let y = Value::Signed(plot.layout.line(0));
    fill(writer, EXACT_LINE, &[y, y])?;
    for shown in &plot.bounds {
        let y = Value::Signed(plot.layout.line(1 + i64::from(shown.place)));
        let values = [shown.class(), y, y, shown.name(), shown.short()];
        fill(writer, BOUNDED_LINE, &values)?;
    }
    let service = Value::Signed(plot.layout.behind(1, 1));
    let window = Value::Signed(plot.layout.behind(1, 2));
    fill(writer, OTHER_LINES, &[service, service, window, window])
}

// The first rests, on the right.
fn draw_rests<B: Bound, W: Write>(plot: &Plot<'_, B>, writer: &mut W) -> io::Result<()> {
    let y = plot.layout.line(0);
    fill(writer, CIRCLE, &[Value::Signed(MARK), Value::Signed(y)])?;
    draw_found(&plot.picture.exact, Value::Words("exact"), y, writer)?;
    for shown in &plot.bounds {
        let y = plot.layout.line(1 + i64::from(shown.place));
        draw_square(shown, 10 * MARK, y.saturating_mul(10), writer)?;
        draw_found(&shown.drawn.curve, shown.short(), y, writer)?;
    }
    Ok(())
}

// One mark like those of some test points, beginning at a height, in tenths.
fn draw_mark<W: Write>(
    (begin, form): (&str, &str),
    class: &[Value<'_>],
    y: i64,
    writer: &mut W,
) -> io::Result<()> {
    fill(writer, begin, class)?;
    fill(writer, form, &[Value::Signed(MARK), Value::Tenths(y)])?;
    fill(writer, MARKED, &[])
}

// The test points by a bound: one mark, and how many of how many are drawn.
fn draw_tests<B: Bound, W: Write>(
    plot: &Plot<'_, B>,
    shown: &Shown<'_, B>,
    writer: &mut W,
) -> io::Result<()> {
    let y = plot.layout.behind(1, 1 + i64::from(shown.place));
    let top = y.saturating_mul(10).saturating_sub(DIAMOND_UP);
    draw_mark((DIAMONDS, DIAMOND), &[shown.class()], top, writer)?;
    let drawn = count_tested(&shown.drawn.curve.points);
    let tests = Value::Whole(u64::from(shown.drawn.tests));
    let values = [Value::Signed(y), shown.noun(), drawn, tests];
    fill(writer, BOUNDED_POINTS, &values)
}

// The test points in exact steps.
fn draw_exact_tests<B: Bound, W: Write>(plot: &Plot<'_, B>, writer: &mut W) -> io::Result<()> {
    let y = plot.layout.behind(2, 1);
    let top = y.saturating_mul(10).saturating_sub(STROKE_UP);
    draw_mark((STROKES, STROKE), &[], top, writer)?;
    let drawn = count_tested(&plot.picture.exact.points);
    fill(writer, EXACT_POINTS, &[Value::Signed(y), drawn])
}

// The legend.
pub(crate) fn draw_legend<B: Bound, W: Write>(
    plot: &Plot<'_, B>,
    writer: &mut W,
) -> io::Result<()> {
    draw_lines(plot, writer)?;
    draw_rests(plot, writer)?;
    for shown in &plot.bounds {
        draw_tests(plot, shown, writer)?;
    }
    draw_exact_tests(plot, writer)
}

// The picture, from its head to its legend.
use crate::escaping::escape;
use crate::filling::{Value, fill};
use crate::forms::{BOUNDED_LOOKS, DESCRIBED, END, EXACT_LOOKS, FRAME, HEAD, LOOKS, REST_LOOKS};
use crate::legends::{count_tested, count_told, draw_legend};
use crate::lines::draw_lines;
use crate::marks::draw_marks;
use crate::pictures::picture_of;
use crate::plotting::Plot;
use crate::questions::Drawing;
use bounds::Bound;
use std::alloc::Global;
use std::io;
use std::io::Write;

// The title of a picture.
fn title<B: Bound>(alloc: Global, drawing: &Drawing<'_, B>) -> io::Result<String> {
    let name = escape(alloc, drawing.task)?;
    let rank = drawing.rank;
    let work = drawing.row.work;
    let deadline = drawing.row.deadline;
    let period = drawing.row.period;
    let jitter = drawing.row.jitter;
    let comma = if name.is_empty() { "" } else { ", " };
    let title = format!(in alloc;
        "rank {rank}{comma}{name}: C {work}, D {deadline}, T {period}, J {jitter}"
    )?;
    Ok(title)
}

// The beginning of a picture: its size, its title, and what it shows in words.
fn draw_head<B: Bound, W: Write>(
    plot: &Plot<'_, B>,
    title: &str,
    writer: &mut W,
) -> io::Result<()> {
    let picture = plot.picture;
    let height = Value::Signed(plot.layout.height());
    let values = [
        height,
        height,
        Value::Words(title),
        Value::Whole(plot.drawing.rank as u64),
        Value::Whole(u64::from(picture.window)),
        Value::Rest(picture.exact.finding.verdict.rest()),
        count_told(&picture.exact.finding),
    ];
    fill(writer, HEAD, &values)?;
    for shown in &plot.bounds {
        let curve = &shown.drawn.curve;
        let values = [
            shown.short(),
            Value::Rest(curve.finding.verdict.rest()),
            count_told(&curve.finding),
            count_tested(&curve.points),
            Value::Whole(u64::from(shown.drawn.tests)),
            shown.noun(),
        ];
        fill(writer, DESCRIBED, &values)?;
    }
    Ok(())
}

// How the lines of bounds and their test points look.
fn draw_bounded_looks<B: Bound, W: Write>(plot: &Plot<'_, B>, writer: &mut W) -> io::Result<()> {
    for shown in &plot.bounds {
        let (class, colour) = (shown.class(), shown.colour());
        let dots = Value::Dots(shown.place);
        fill(writer, BOUNDED_LOOKS, &[class, colour, dots, class, colour])?;
    }
    Ok(())
}

// How their first rests look.
fn draw_rest_looks<B: Bound, W: Write>(plot: &Plot<'_, B>, writer: &mut W) -> io::Result<()> {
    for shown in &plot.bounds {
        fill(writer, REST_LOOKS, &[shown.class(), shown.colour()])?;
    }
    Ok(())
}

// How the picture looks.
fn draw_looks<B: Bound, W: Write>(
    plot: &Plot<'_, B>,
    title: &str,
    writer: &mut W,
) -> io::Result<()> {
    fill(writer, LOOKS, &[])?;
    draw_bounded_looks(plot, writer)?;
    fill(writer, EXACT_LOOKS, &[])?;
    draw_rest_looks(plot, writer)?;
    let height = Value::Signed(plot.layout.height());
    fill(writer, FRAME, &[height, Value::Words(title)])
}

/// Writes a picture of a row's demand over time, as SVG in UTF-8: the demand in exact steps and by each
/// bound, the line of service, the window, the test points and the first rests (docs/RULES.md, Rests).
/// What it shows in whole numbers is `picture_of`. Of each name 40 characters are shown.
pub fn draw<B: Bound, W: Write>(
    alloc: Global,
    drawing: &Drawing<'_, B>,
    writer: &mut W,
) -> io::Result<()> {
    let picture = picture_of(alloc, drawing)?;
    let plot = Plot::new(alloc, drawing, &picture)?;
    let title = title(alloc, drawing)?;
    draw_head(&plot, title.as_str(), writer)?;
    draw_looks(&plot, title.as_str(), writer)?;
    draw_lines(&plot, writer)?;
    draw_marks(alloc, &plot, writer)?;
    draw_legend(&plot, writer)?;
    fill(writer, END, &[])
}

// The lines of a picture: the axes with their marks, the demand by each count, the service and the window.
use crate::filling::{Value, fill};
use crate::forms::{AXES, BOUNDED, DRAWN, LINE, RISE, STEP, TIME, WORK};
use crate::plotting::Plot;
use crate::scales::tick_step;
use crate::shown::Shown;
use crate::thinning::column_width;
use bounds::Bound;
use std::io;
use std::io::Write;

// A mark of the axis of time.
fn draw_time<B: Bound, W: Write>(
    plot: &Plot<'_, B>,
    number: u32,
    writer: &mut W,
) -> io::Result<()> {
    let x = Value::Tenths(plot.x(number));
    let y = Value::Signed(plot.layout.time());
    fill(writer, TIME, &[x, x, y, Value::Whole(u64::from(number))])
}

// A mark of the axis of work.
fn draw_work<B: Bound, W: Write>(
    plot: &Plot<'_, B>,
    number: u32,
    writer: &mut W,
) -> io::Result<()> {
    let y = Value::Tenths(plot.y(plot.parts(number)));
    fill(writer, WORK, &[y, y, Value::Whole(u64::from(number))])
}

// The marks of an axis at round numbers: that of time, which goes across, or that of work.
fn draw_axis<B: Bound, W: Write>(
    plot: &Plot<'_, B>,
    across: bool,
    writer: &mut W,
) -> io::Result<()> {
    let end = if across {
        plot.picture.window
    } else {
        plot.top
    };
    let step = tick_step(end);
    for mark in 0..=10u32 {
        let number = mark.saturating_mul(step);
        if number <= end && across {
            draw_time(plot, number, writer)?;
        } else if number <= end {
            draw_work(plot, number, writer)?;
        }
    }
    Ok(())
}

// The demand in exact steps. Each step stands just after the instant that it follows.
fn draw_exact<B: Bound, W: Write>(plot: &Plot<'_, B>, writer: &mut W) -> io::Result<()> {
    for point in &plot.picture.exact.points {
        let y = Value::Tenths(plot.y(point.demand));
        fill(writer, STEP, &[y, Value::Tenths(plot.x(point.at))])?;
    }
    Ok(())
}

// The demand by a bound at an instant, and just after it.
fn draw_bend<B: Bound, W: Write>(
    plot: &Plot<'_, B>,
    shown: &Shown<'_, B>,
    at: u32,
    writer: &mut W,
) -> io::Result<()> {
    let y = plot.y(shown.at(at));
    let above = plot.y(shown.after(at));
    fill(writer, LINE, &[Value::Tenths(plot.x(at)), Value::Tenths(y)])?;
    if above != y {
        fill(writer, RISE, &[Value::Tenths(above)])?;
    }
    Ok(())
}

// The demand by a bound. Where a column may have lost test points, the line is drawn through its end,
// past which there is none before the next point.
fn draw_bounded<B: Bound, W: Write>(
    plot: &Plot<'_, B>,
    shown: &Shown<'_, B>,
    writer: &mut W,
) -> io::Result<()> {
    let first = Value::Tenths(plot.y(shown.after(0)));
    fill(writer, BOUNDED, &[shown.class(), first])?;
    let width = column_width(plot.picture.window).max(1);
    let mut last = 0u32;
    for point in &shown.drawn.curve.points {
        let end = last.div_ceil(width).saturating_mul(width);
        if last < end && end < point.at {
            draw_bend(plot, shown, end, writer)?;
        }
        draw_bend(plot, shown, point.at, writer)?;
        last = point.at;
    }
    Ok(())
}

// The axes, and what is drawn of every picture.
fn draw_axes<B: Bound, W: Write>(plot: &Plot<'_, B>, writer: &mut W) -> io::Result<()> {
    draw_axis(plot, true, writer)?;
    draw_axis(plot, false, writer)?;
    let window = plot.picture.window;
    let values = [
        Value::Signed(plot.layout.time_title()),
        Value::Tenths(plot.y(plot.parts(window))),
        Value::Whole(u64::from(window)),
        Value::Tenths(plot.y(plot.exact(1))),
    ];
    fill(writer, AXES, &values)
}

// All lines.
pub(crate) fn draw_lines<B: Bound, W: Write>(plot: &Plot<'_, B>, writer: &mut W) -> io::Result<()> {
    draw_axes(plot, writer)?;
    draw_exact(plot, writer)?;
    for shown in &plot.bounds {
        draw_bounded(plot, shown, writer)?;
    }
    fill(writer, DRAWN, &[])
}

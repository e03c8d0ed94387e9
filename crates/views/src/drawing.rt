// The picture of one row's demand.
ghost use Rattle.std.specs.Prelude.{◌≡◌, ◌-◌, false, map, take, IfErr, IfOk, OnOk};
ghost use Rattle.std.specs.Io.KnownBytes.{Keeps};
ghost use Rattle.rows.specs.Books.{book};
ghost use Rattle.bounds.specs.Families.{supplied_plain};
ghost use Rattle.views.specs.Counted.{HasRank, IsDrawnOf, IsRank, TellsRank};
ghost use Rattle.views.specs.Troubles.{FailsBefore, is_output, of_row};

use crate::counted::{Counted, Counting, count_table};
use crate::troubles::Trouble;
use bounds::{Short, Supplied};
use filings::{Filing, Progress};
use plots::{Drawing, Named, draw};
use rows::Table;
use std::alloc::{AllocError, Global};
use std::io;
use std::io::{Read, Write};

/// Reads a task table, counts it, and draws the demand of the row of a rank, from 1, as an SVG picture
/// (docs/PROGRAMS.md, `yabreznul plot`).
///
/// Refused as `count_table` refuses, and then where there is no row of the rank; nothing is written then.
/// Where drawing fails, for the writer or for memory, a part of the picture may be written.
pub fn plot<R: Read, W: Write, P: Progress>(
    alloc: Global,
    reader: &mut R,
    rank: u32,
    how: Counting<'_>,
    progress: &mut P,
    writer: &mut W,
) -> Result<(), Trouble>
    ensures drawn { OnOk result (HasRank (R.remaining reader.old) how.entry.frame how.entry.bounds.now rank) }
    ensures failed { IfErr result (FailsBefore
        (of_row rank (R.remaining reader.old) how.entry.frame how.entry.bounds.now)
        (W.contents writer.old) (W.contents writer.new)) }
{
    match count_table(alloc, reader, how, progress) {
        Ok(counted) => plot_counted(alloc, &counted, rank as usize, writer),
        Err(trouble) => Err(trouble),
    }
}

// Draws the demand of the row of a rank of a table that was counted.
fn plot_counted<W: Write>(
    alloc: Global,
    counted: &Counted,
    rank: usize,
    writer: &mut W,
) -> Result<(), Trouble>
    ensures drawn { OnOk result (IsRank rank counted.now) }
    ensures failed { IfErr result (λ t. is_output t ≡ false →
        TellsRank rank counted.now t × Keeps (W.contents writer.old) (W.contents writer.new)) }
{
    let table = counted.exact().table();
    if rank == 0 || table.len() < rank {
        return Err(Trouble::Rank(table.len()));
    }
    match draw_row(alloc, counted, rank, writer) {
        Ok(()) => Ok(()),
        Err(error) => Err(Trouble::Output(error)),
    }
}

// Draws the demand of the row of a rank, which there is.
fn draw_row<W: Write>(
    alloc: Global,
    counted: &Counted,
    rank: usize,
    writer: &mut W,
) -> io::Result<()>
    requires { IsRank rank counted.now }
{
    let called = names_of(alloc, counted.bounded())?;
    let bounds = bounds_named(alloc, &called)?;
    let above = counted.exact().table().above(rank);
    let drawing = drawing_of(counted, rank, &bounds, &above);
    draw(alloc, &drawing, writer)
}

// A bound with its name in short, as a file is named for it.
#[derive(Drop)]
struct Called {
    bound: Supplied,
    short: String,
}

// The bounds of counts, with their names in short.
fn names_of(alloc: Global, counts: &[Filing]) -> Result<Vec<Called>, AllocError>
    ensures { IfOk result (λ called.
        map (λ b. supplied_plain b.bound) called.items ≡ map (λ f. f.bound) counts.now) }
{
    let mut called = Vec::new(alloc);
    for filing in counts {
        let bound = filing.bound();
        let short = format!(in alloc; "{}", Short(bound))?;
        called.push(Called { bound, short })?;
    }
    Ok(called)
}

// Bounds as a picture names them.
fn bounds_named<'a>(
    alloc: Global,
    called: &'a [Called],
) -> Result<Vec<Named<'a, Supplied>>, AllocError>
    ensures { IfOk result (λ named.
        map (λ n. supplied_plain n.bound.now) named.items ≡ map (λ b. supplied_plain b.bound) called.now) }
{
    let mut bounds = Vec::new(alloc);
    for one in called {
        let (family, _) = one.bound.plain();
        bounds.push(Named {
            bound: &one.bound,
            name: family.name(),
            short: one.short.as_str(),
        })?;
    }
    Ok(bounds)
}

// What is drawn of the row of a rank, below the rows before it, by the bounds that it was counted by.
fn drawing_of<'a>(
    counted: &'a Counted,
    rank: usize,
    bounds: &'a [Named<'a, Supplied>],
    above: &'a Table,
) -> Drawing<'a, Supplied>
    requires rank { IsRank rank counted.now }
    requires bounds { map (λ n. supplied_plain n.bound.now) bounds.now ≡ counted.now.bounds }
    requires above { above.now ≡ book counted.now.frame (take (rank - 1) counted.now.rows) }
    ensures { IsDrawnOf rank counted.now result }
{
    Drawing::of(
        counted.task_table().name(rank),
        rank,
        bounds,
        &counted.exact().rows()[rank - 1],
        above,
    )
    .unwrap()
}

// In what two leaves of different tables differ.
ghost use Rattle.std.specs.Prelude.{◌≡◌, length, map, IfNone, IfSome};
ghost use Rattle.rows.specs.Judging.{plain};
ghost use Rattle.leaves.specs.Contents.{Contents};
ghost use Rattle.reading.specs.Leaves.{Holds};
ghost use Rattle.views.specs.Differences.{Differ};
ghost use Rattle.views.specs.Leaves.{HaveOneTable};

use reading::Leaf;
use rows::Numbers;
use std::fmt;

/// Why two leaves are not of one table (docs/PROGRAMS.md, `yabreznul compare`): their frames differ, or
/// how many rows they have, or the rows of a rank.
#[derive(Clone, Copy)]
pub enum Difference {
    Frames(u32, u32),
    Counts(usize, usize),
    Rows {
        rank: usize,
        first: Numbers,
        second: Numbers,
    },
}

// The first difference between the tables of two leaves, if there is one.
pub(crate) fn first_difference(first: &Leaf<'_>, second: &Leaf<'_>) -> Option<Difference>
    ensures none { IfNone result ((c d : Contents) → Holds first.now c → Holds second.now d →
        HaveOneTable c d) }
    ensures first { IfSome result (λ difference. (c d : Contents) → Holds first.now c → Holds second.now d →
        Differ difference c d) }
{
    let (one, other) = (first.heading().frame.ticks, second.heading().frame.ticks);
    if one != other {
        return Some(Difference::Frames(one, other));
    }
    if first.len() != second.len() {
        return Some(Difference::Counts(first.len(), second.len()));
    }
    first_parted(first, second)
}

// The rows of the first rank at which two leaves of one frame and as many rows differ, if there is one.
fn first_parted(first: &Leaf<'_>, second: &Leaf<'_>) -> Option<Difference>
    ensures none { IfNone result ((c d : Contents) → Holds first.now c → Holds second.now d →
        length c.rows ≡ length d.rows → map plain c.rows ≡ map plain d.rows) }
    ensures first { IfSome result (λ difference. (c d : Contents) → Holds first.now c → Holds second.now d →
        c.heading.frame ≡ d.heading.frame → length c.rows ≡ length d.rows → Differ difference c d) }
{
    let pairs = first.rows_with_findings().zip(second.rows_with_findings());
    for (i, ((one, _), (other, _))) in pairs.enumerate() {
        let (one, other) = (one.numbers(), other.numbers());
        if one != other {
            return Some(Difference::Rows {
                rank: i + 1,
                first: one,
                second: other,
            });
        }
    }
    None
}

impl fmt::Display for Difference {
    fn fmt<W: fmt::Write>(&self, f: &mut fmt::Formatter<W>) -> fmt::Result {
        match self {
            Difference::Frames(first, second) => {
                write!(f, "the frames differ, {first} and {second}")
            }
            Difference::Counts(first, second) => write!(f, "{first} rows and {second}"),
            Difference::Rows {
                rank,
                first,
                second,
            } => {
                write!(f, "rank {rank} is ")?;
                write_numbers(f, first)?;
                f.write_str(" and ")?;
                write_numbers(f, second)
            }
        }
    }
}

// The numbers of a row, with blanks between them.
fn write_numbers<W: fmt::Write>(f: &mut fmt::Formatter<W>, n: &Numbers) -> fmt::Result {
    write!(f, "{} {} {} {}", n.work, n.deadline, n.period, n.jitter)
}

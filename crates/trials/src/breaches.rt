// Where a law fails, and by which numbers.
ghost use Rattle.std.specs.Prelude.{◌≡◌, Some};
ghost use Rattle.trials.specs.Shown.{shown_breach, shown_law, shown_numbers};

use rows::Row;
use std::fmt;

/// A law that fails (docs/RULES.md, Bounds), with the numbers by which it does, all in parts.
#[derive(Clone, Copy, PartialEq, Eq, Debug)]
pub enum Broken {
    /// Law 1: the amount is below the exact steps.
    Covers {
        amount: u64,
        exact: u64,
    },
    /// Law 2: it is more than (k + 1) / k times as much, k the accuracy.
    Close {
        accuracy: u32,
        amount: u64,
        exact: u64,
    },
    /// Law 3: it bends upward at an instant that is no corner, from the one before to the next.
    Bends {
        before: u64,
        here: u64,
        next: u64,
    },
}

/// The first question at which a law of a bound fails: the frame in ticks, the row and the instant.
#[derive(Clone, Copy, PartialEq, Eq, Debug)]
pub struct Breach {
    pub frame: u32,
    pub row: Row,
    pub at: u32,
    pub broken: Broken,
}

impl Broken {
    // The law, by its name in `Laws`.
    fn law(&self) -> &'static str
        ensures { result.now ≡ shown_law self.now }
    {
        match self {
            Broken::Covers { .. } => "covers",
            Broken::Close { .. } => "close",
            Broken::Bends { .. } => "bends",
        }
    }
}

// The numbers by which a law fails, as in "1 * 5 > 2 * 2".
impl fmt::Display for Broken {
    ghost output = { λ b. Some (shown_numbers b) };

    fn fmt<W: fmt::Write>(&self, f: &mut fmt::Formatter<W>) -> fmt::Result {
        match *self {
            Broken::Covers { amount, exact } => write!(f, "{amount} < {exact}"),
            Broken::Close {
                accuracy,
                amount,
                exact,
            } => {
                write!(
                    f,
                    "{accuracy} * {amount} > {} * {exact}",
                    u64::from(accuracy) + 1
                )
            }
            Broken::Bends { before, here, next } => write!(f, "{before} + {next} > 2 * {here}"),
        }
    }
}

// A breach as a person reads it: "close fails: frame 1, C 1, T 1, J 0, t 2: 1 * 5 > 2 * 2".
impl fmt::Display for Breach {
    ghost output = { λ b. Some (shown_breach b) };

    fn fmt<W: fmt::Write>(&self, f: &mut fmt::Formatter<W>) -> fmt::Result {
        let Breach {
            frame,
            row,
            at,
            broken,
        } = self;
        let law = broken.law();
        let (work, period, jitter) = (row.work, row.period, row.jitter);
        write!(
            f,
            "{law} fails: frame {frame}, C {work}, T {period}, J {jitter}, t {at}: {broken}"
        )
    }
}

// The supplied bounds as one: what a heading names by a number.
use crate::exact::ExactSteps;
use crate::interface::Bound;
use crate::linear::LinearTail;
use crate::questions::{Asked, OnFrame};
use crate::stairs::Staircase;
use rows::Row;

/// A bound that the toolkit supplies, as a value: by it a program counts with whichever bound its
/// input names (docs/FORMAT.md has the numbers by which a heading names one).
#[derive(Clone, Copy, PartialEq, Eq, Debug)]
pub enum Supplied {
    ExactSteps,
    LinearTail(LinearTail),
    Staircase(Staircase),
}

// The same call of whichever bound it is.
macro_rules! ask {
    ($supplied:expr, $bound:ident => $call:expr) => {
        match $supplied {
            Supplied::ExactSteps => {
                let $bound = &ExactSteps;
                $call
            }
            Supplied::LinearTail($bound) => $call,
            Supplied::Staircase($bound) => $call,
        }
    };
}

impl Bound for Supplied {
    ghost use Rattle.bounds.specs.Values.{meaning_of};
    ghost use Rattle.bounds.specs.Lemmas.SuppliedLaws.{laws_of};

    ghost meaning = { meaning_of };

    ghost lawful = { laws_of };

    fn amount_asked(&self, question: &Asked) -> u64 {
        ask!(self, bound => bound.amount_asked(question))
    }

    fn corner_after(&self, row: &Row, after: u32) -> Option<u32> {
        ask!(self, bound => bound.corner_after(row, after))
    }

    fn mark(&self, row: &Row, after: u32, marks: &mut [bool]) -> Option<u32> {
        ask!(self, bound => bound.mark(row, after, marks))
    }

    fn corner_past(&self, row: &OnFrame, after: u32) -> Option<u32> {
        ask!(self, bound => bound.corner_past(row, after))
    }

    fn accuracy(&self) -> u32 {
        ask!(self, bound => bound.accuracy())
    }

    fn most(&self) -> u32 {
        ask!(self, bound => bound.most())
    }
}

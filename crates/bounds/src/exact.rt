// The exact steps, as a bound.
ghost use Rattle.bounds.specs.Supplied.{exact_steps};
ghost use Rattle.bounds.specs.Lemmas.ExactLaws.{exact_laws};

use crate::interface::{Bound, FINEST};
use crate::questions::{Asked, OnFrame};
use crate::releases::{mark_rises, rise_after};
use rows::{HORIZON, Row};

/// The count in exact steps: no amount is rounded, and every step is a corner.
#[derive(Clone, Copy, PartialEq, Eq, Debug)]
pub struct ExactSteps;

impl Bound for ExactSteps {
    ghost meaning = { λ _. exact_steps };

    ghost lawful = { λ s. exact_laws };

    fn amount_asked(&self, question: &Asked) -> u64 {
        u64::from(question.frame()) * u64::from(question.steps())
    }

    fn corner_after(&self, row: &Row, after: u32) -> Option<u32> {
        rise_after(row, after, HORIZON)
    }

    fn mark(&self, row: &Row, after: u32, marks: &mut [bool]) -> Option<u32> {
        mark_rises(row, after, HORIZON, marks)
    }

    fn corner_past(&self, row: &OnFrame, after: u32) -> Option<u32> {
        row.rise_after(after, HORIZON)
    }

    fn accuracy(&self) -> u32 {
        FINEST
    }

    fn most(&self) -> u32 {
        HORIZON
    }
}

// What the supplied bounds are called: one table for headings, scripts, options and people.
ghost use Rattle.std.specs.Prelude.{◌≡◌, Some};
ghost use Rattle.rows.specs.Answers.{answer, checked};
ghost use Rattle.bounds.specs.declared.families.Family.{Family};
ghost use Rattle.bounds.specs.declared.families.TheConstants.Family.{ALL};
ghost use Rattle.bounds.specs.Families.{
  family_accuracy_checks,
  family_name,
  family_number,
  family_of_number,
  family_word,
  has_accuracies,
  shown_bound,
  shown_short,
  supplied_plain,
};

use crate::interface::Bound;
use crate::linear::LinearTail;
use crate::stairs::Staircase;
use crate::supplied::Supplied;
use rows::{Fault, Refusal};
use std::fmt;

/// A kind of bound that is supplied (docs/RULES.md, Bounds): exact steps, or the linear tail or
/// the staircase of whatever accuracy.
#[derive(Clone, Copy, PartialEq, Eq, Debug)]
pub enum Family {
    ExactSteps = 0,
    LinearTail = 1,
    Staircase = 2,
}

impl Family {
    /// All kinds, in the order of their numbers.
    pub const ALL: [Family; 3] = [Family::ExactSteps, Family::LinearTail, Family::Staircase];

    /// All of them. The number of each names it, and no other.
    #[tactic(auto, using(crate::proofs::Numbered::numbered))]
    pub fn all() -> [Family; 3]
        ensures all { result ≡ ALL }
        ensures each { (f : Family) → family_of_number (family_number f) ≡ Some f }
    {
        Family::ALL
    }

    /// The number by which a heading names bounds of the kind (docs/FORMAT.md, Entries).
    pub fn number(&self) -> u8
        ensures { result ≡ family_number self.now }
    {
        *self as u8
    }
}

impl Family {
    /// The kind that a heading names by a number, where there is one.
    pub fn of_number(number: u8) -> Option<Family>
        ensures { result ≡ family_of_number number }
    {
        match number {
            0 => Some(Family::ExactSteps),
            1 => Some(Family::LinearTail),
            2 => Some(Family::Staircase),
            _ => None,
        }
    }

    /// The word by which scripts and command lines name bounds of the kind.
    pub fn word(&self) -> &'static str
        ensures { result.now ≡ family_word self.now }
    {
        match self {
            Family::ExactSteps => "exact",
            Family::LinearTail => "linear",
            Family::Staircase => "staircase",
        }
    }

    /// What bounds of the kind are called for people.
    pub fn name(&self) -> &'static str
        ensures { result.now ≡ family_name self.now }
    {
        match self {
            Family::ExactSteps => "exact steps",
            Family::LinearTail => "linear tail",
            Family::Staircase => "staircase",
        }
    }

    /// Whether there is one bound of the kind for each accuracy from 1 to 64; else there is but one.
    pub fn has_accuracies(&self) -> bool
        ensures { result ≡ has_accuracies self.now }
    {
        matches!(self, Family::LinearTail | Family::Staircase)
    }

    /// The bound of the kind that an accuracy names: 0 where there is but one.
    ///
    /// Refused with 3, bad accuracy, at 0 for any other, and outside 1 to 64 where there is one for
    /// each (docs/REFUSALS.md).
    pub fn bound(&self, accuracy: u32) -> Result<Supplied, Fault>
        ensures { answer supplied_plain result
            ≡ checked (family_accuracy_checks self.now accuracy) (self.now, accuracy) }
    {
        match self {
            Family::ExactSteps if accuracy == 0 => Ok(Supplied::ExactSteps),
            Family::ExactSteps => Err(Refusal::BadAccuracy.at(0)),
            Family::LinearTail => Ok(Supplied::LinearTail(LinearTail::new(accuracy)?)),
            Family::Staircase => Ok(Supplied::Staircase(Staircase::new(accuracy)?)),
        }
    }
}

impl Supplied {
    ghost use Rattle.std.specs.Prelude.{◌≡◌};
    ghost use Rattle.rows.specs.Answers.{answer, checked};
    ghost use Rattle.bounds.specs.Families.{bound_numbers, family_meaning, named_checks, supplied_plain};
    ghost use Rattle.bounds.specs.Values.{meaning_of};

    /// The bound that the number of its kind and an accuracy name together, as a heading does
    /// (docs/FORMAT.md, Entries): the accuracy is 0 where there is but one bound of the kind.
    ///
    /// Refused, each at 0, with 20, unknown bound, for a number of no kind; then with 3, bad accuracy,
    /// for an accuracy that no bound of the kind has (docs/REFUSALS.md).
    #[tactic(auto, using(crate::proofs::Numbered::number_of_kind))]
    pub fn named(number: u8, accuracy: u8) -> Result<Supplied, Fault>
        ensures { answer bound_numbers result
            ≡ checked (named_checks number accuracy) (number, accuracy) }
    {
        match Family::of_number(number) {
            Some(family) => family.bound(u32::from(accuracy)),
            None => Err(Refusal::UnknownBound.at(0)),
        }
    }

    /// The kind of the bound, and the accuracy that is told with it: 0 where there is but one of the
    /// kind. By both together it is known what the bound means.
    #[tactic(auto, using(crate::proofs::Numbered::means_plain))]
    pub fn plain(&self) -> (Family, u32)
        ensures answered { result ≡ supplied_plain self.now }
        ensures means { meaning_of self.now ≡ family_meaning result.0 result.1 }
    {
        match self {
            Supplied::ExactSteps => (Family::ExactSteps, 0),
            Supplied::LinearTail(tail) => (Family::LinearTail, tail.accuracy()),
            Supplied::Staircase(stairs) => (Family::Staircase, stairs.accuracy()),
        }
    }
}

// A bound as a person reads it: "exact steps", or "linear tail of accuracy 3".
impl fmt::Display for Supplied {
    ghost output = { λ b. Some (shown_bound b) };

    fn fmt<W: fmt::Write>(&self, f: &mut fmt::Formatter<W>) -> fmt::Result {
        let (family, accuracy) = self.plain();
        let name = family.name();
        if family.has_accuracies() {
            write!(f, "{name} of accuracy {accuracy}")
        } else {
            f.write_str(name)
        }
    }
}

/// A bound as a file is named for it: `exact`, or `linear-3`.
#[derive(Clone, Copy, PartialEq, Eq, Debug)]
pub struct Short(pub Supplied);

impl fmt::Display for Short {
    ghost output = { λ s. Some (shown_short s.0) };

    fn fmt<W: fmt::Write>(&self, f: &mut fmt::Formatter<W>) -> fmt::Result {
        let (family, accuracy) = self.0.plain();
        let word = family.word();
        if family.has_accuracies() {
            write!(f, "{word}-{accuracy}")
        } else {
            f.write_str(word)
        }
    }
}

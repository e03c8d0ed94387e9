// What is left of a list of calls that was not played.
ghost use Rattle.std.specs.Prelude.{◌≡◌, Some};
ghost use Rattle.rows.specs.Shown.{shown_fault};

use rows::Fault;
use std::error::Error;
use std::fmt;

/// Calls that were not played: the bound that was handed in, given back, and why. Where a call answers
/// a `Fault`, `?` passes that on and lets the bound go.
#[derive(Drop)]
pub struct NotPlayed<B> {
    pub bound: B,
    pub fault: Fault,
}

impl<B: Drop> From<NotPlayed<B>> for Fault {
    ghost from_gives = { λ not_played fault. fault ≡ not_played.fault };

    fn from(not_played: NotPlayed<B>) -> Fault {
        not_played.fault
    }
}

impl<B> fmt::Debug for NotPlayed<B> {
    fn fmt<W: fmt::Write>(&self, f: &mut fmt::Formatter<W>) -> fmt::Result {
        f.debug_struct("NotPlayed")
            .field("fault", &self.fault)
            .finish_non_exhaustive()
    }
}

// As the fault is read: "refusal 12, short list, at 0".
impl<B> fmt::Display for NotPlayed<B> {
    ghost output = { λ not_played. Some (shown_fault not_played.fault) };

    fn fmt<W: fmt::Write>(&self, f: &mut fmt::Formatter<W>) -> fmt::Result {
        fmt::Display::fmt(&self.fault, f)
    }
}

impl<B: Drop> Error for NotPlayed<B> {}

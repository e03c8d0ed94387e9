// A frame as plain numbers, and as a frame that passed judgement.
ghost use Rattle.std.specs.Prelude.{◌≡◌, OnOk};
ghost use Rattle.rows.specs.Answers.{answer, checked};
ghost use Rattle.rows.specs.Frames.{IsFrame, frame_checks};

use crate::counting::is_frame;
use crate::refusals::{Fault, Refusal};
use std::marker::Model;

/// The plain numbers of a frame to be, which nobody has judged: its length in ticks.
#[derive(Clone, Copy, PartialEq, Eq, Debug)]
pub struct FrameNumbers {
    pub ticks: u32,
}

/// A frame of a table (docs/RULES.md, Frame and parts): numbers that passed judgement.
#[derive(Clone, Copy, PartialEq, Eq, Debug)]
pub struct Frame {
    numbers: FrameNumbers,
}

impl Model for Frame {
    ghost use Rattle.rows.specs.declared.frames.FrameNumbers.{FrameNumbers};
    ghost use Rattle.rows.specs.Frames.{IsFrame};

    ghost Value = { FrameNumbers };

    ghost view = { λ f. f.numbers };

    ghost invariant = { λ f. IsFrame f.numbers };

    ghost inverse = { λ n. record { numbers = n } };
}

impl FrameNumbers {
    /// The frame of these numbers. Refused with 1, bad frame, at 0 for a length of 0 or above the
    /// horizon (docs/REFUSALS.md).
    pub fn judge(&self) -> Result<Frame, Fault>
        ensures answered { answer (λ h. h) result ≡ checked (frame_checks self.now) self.now }
        ensures lawful { OnOk result (IsFrame self.now) }
    {
        if !is_frame(self.ticks) {
            return Err(Refusal::BadFrame.at(0));
        }
        Ok(Frame { numbers: *self })
    }
}

impl Frame {
    /// The length of the frame, in ticks.
    pub fn ticks(&self) -> u32
        ensures answered { result ≡ self.now.ticks }
        ensures lawful { IsFrame self.now }
    {
        self.numbers.ticks
    }

    /// The numbers of the frame.
    pub fn numbers(&self) -> FrameNumbers
        ensures answered { result ≡ self.now }
        ensures lawful { IsFrame self.now }
    {
        self.numbers
    }
}

// What is written of calls and of what is answered to lines.
ghost use Rattle.std.specs.Prelude.{Some};
ghost use Rattle.admission.specs.Replies.{answer_of};
ghost use Rattle.scripts.specs.Texts.{answer_text, call_text, no_call_text};

use crate::expecting::ExpectedWords;
use admission::{Call, Reply, tells_rank};
use rows::Verdict;
use std::fmt;

/// A call, written as the line of a script that makes it: "dismiss 1".
#[derive(Clone, Copy, PartialEq, Eq, Debug)]
pub struct CallLine(pub Call);

/// A bench's reply to a call, written as the line that answers it (docs/PROGRAMS.md, `bench`): "done".
#[derive(Clone, Copy, PartialEq, Eq, Debug)]
pub struct ReplyLine(pub Reply);

/// The answer to a line that is no call, with the line's number, lines being counted from 1: "not a
/// call at line 1: expected exact or linear K" (docs/PROGRAMS.md, `bench`).
#[derive(Clone, Copy, PartialEq, Eq, Debug)]
pub struct NoCallLine {
    pub line: u64,
    pub expected: ExpectedWords,
}

impl fmt::Display for CallLine {
    ghost output = { λ x. Some (call_text x.0) };

    fn fmt<W: fmt::Write>(&self, f: &mut fmt::Formatter<W>) -> fmt::Result {
        match self.0 {
            Call::Frame(frame) => {
                let ticks = frame.ticks;
                write!(f, "frame {ticks}")
            }
            Call::Admit(rank, numbers) => {
                let work = numbers.work;
                let deadline = numbers.deadline;
                let period = numbers.period;
                let jitter = numbers.jitter;
                write!(f, "admit {rank} {work} {deadline} {period} {jitter}")
            }
            Call::Dismiss(rank) => write!(f, "dismiss {rank}"),
            Call::Inquire(rank) => write!(f, "inquire {rank}"),
        }
    }
}

impl fmt::Display for ReplyLine {
    ghost output = { λ x. Some (answer_text (answer_of x.0)) };

    fn fmt<W: fmt::Write>(&self, f: &mut fmt::Formatter<W>) -> fmt::Result {
        match self.0 {
            Reply::Done => write!(f, "done"),
            Reply::Found(row, finding) => {
                let work = row.work;
                let deadline = row.deadline;
                let period = row.period;
                let jitter = row.jitter;
                let points = finding.points;
                match finding.verdict {
                    Verdict::Meets(rest) => {
                        write!(
                            f,
                            "row {work} {deadline} {period} {jitter} meets {rest} points {points}"
                        )
                    }
                    Verdict::Misses => {
                        write!(
                            f,
                            "row {work} {deadline} {period} {jitter} misses points {points}"
                        )
                    }
                }
            }
            Reply::Refused(fault) => {
                let number = fault.refusal.number();
                let words = fault.refusal.words();
                let at = fault.at;
                if tells_rank(fault.refusal) {
                    write!(f, "refused {number} {words} at rank {at}")
                } else {
                    write!(f, "refused {number} {words}")
                }
            }
        }
    }
}

impl fmt::Display for NoCallLine {
    ghost output = { λ x. Some (no_call_text x.line x.expected) };

    fn fmt<W: fmt::Write>(&self, f: &mut fmt::Formatter<W>) -> fmt::Result {
        let line = self.line;
        let expected = self.expected;
        write!(f, "not a call at line {line}: expected {expected}")
    }
}

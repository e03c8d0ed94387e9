// The common frame of a table.
ghost use Rattle.std.specs.Prelude.{IsTrue, ◌≡◌, MatchOption};
ghost use Rattle.rows.specs.Times.{is_frame};
ghost use Rattle.filings.specs.Frames.{common_frame, least_multiple, IsCommonFrame, IsLeastMultiple, HasNoFrame};
ghost use Rattle.filings.specs.Frames.{IsJoined, CannotBeJoined, DividesBoth};

use rows::{Frame, FrameNumbers, HORIZON, Numbers};

/// The common frame of a table (docs/RULES.md, Frame and parts): its length is the least common
/// multiple of the periods in ticks, where that lies from 1 to the horizon; of an empty table 1. A
/// period of 0 has no multiple but 0, so that there is none.
pub fn common_frame(table: &[Numbers]) -> Option<Frame>
    ensures answered { result ≡ common_frame table.now }
    ensures least { MatchOption result (HasNoFrame table.now) (IsCommonFrame table.now) }
{
    let ticks = least_multiple(table)?;
    FrameNumbers { ticks }.judge().ok()
}

// The least common multiple of the periods of a table, where it is a frame.
fn least_multiple(table: &[Numbers]) -> Option<u32>
    ensures answered { result ≡ least_multiple table.now }
    ensures least { MatchOption result (HasNoFrame table.now) (IsLeastMultiple table.now) }
{
    let mut frame = 1;
    for numbers in table {
        frame = common_multiple(frame, numbers.period)?;
    }
    Some(frame)
}

// The least common multiple of a frame and a period, where it is a frame.
fn common_multiple(frame: u32, period: u32) -> Option<u32>
    requires { IsTrue (is_frame frame) }
    ensures { MatchOption result (CannotBeJoined frame period) (IsJoined frame period) }
{
    if period == 0 {
        return None;
    }
    let divisor = common_divisor(frame, period);
    let multiple = u64::from(frame / divisor) * u64::from(period);
    if multiple > u64::from(HORIZON) {
        return None;
    }
    Some(multiple as u32)
}

// The greatest common divisor of two numbers, by Euclid's algorithm.
fn common_divisor(first: u32, second: u32) -> u32
    ensures { DividesBoth first second result }
{
    let mut divisor = first;
    let mut rest = second;
    while rest != 0 {
        let next = divisor % rest;
        divisor = rest;
        rest = next;
    }
    divisor
}

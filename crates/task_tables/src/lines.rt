// The lines of a text: a line feed, a carriage return, or both together end one.
ghost use Rattle.std.specs.Prelude.{◌≡◌, ◌≤◌, false, length};
ghost use Rattle.task_tables.specs.Lines.{ended_lines, ends_line_behind, line_behind, line_of, passed_over, passes};

use crate::forms::ends_line;

// Whether a byte that stands behind another ends a line.
fn ends_line_behind(previous: u8, byte: u8) -> bool
    ensures { result ≡ ends_line_behind previous byte }
{
    byte == b'\r' || (byte == b'\n' && previous != b'\r')
}

// How many lines end in a text.
fn ended_lines(text: &[u8]) -> usize
    ensures count { result ≡ ended_lines text.now }
    ensures few { result ≤ length text.now }
{
    let mut ended = 0;
    let mut previous = 0;
    for byte in text {
        if ends_line_behind(previous, *byte) {
            ended += 1;
        }
        previous = *byte;
    }
    ended
}

// The number of the line behind the last of a text.
pub(crate) fn line_behind(text: &[u8]) -> u64
    ensures { result ≡ line_behind text.now }
{
    let ended = ended_lines(text) as u64;
    match text.last() {
        Some(last) if !ends_line(*last) => ended + 2,
        _ => ended + 1,
    }
}

// Whether the byte behind this one stands in a comment, where this one is passed over before a record;
// nothing, where a record begins with it.
fn passes(in_comment: bool, byte: u8) -> Option<bool>
    ensures { result ≡ passes in_comment byte }
{
    if in_comment {
        Some(byte != b'\n')
    } else if byte == b'#' {
        Some(true)
    } else if ends_line(byte) {
        Some(false)
    } else {
        None
    }
}

// How many bytes of a text are passed over before the record that comes next.
fn passed_over(text: &[u8]) -> usize
    ensures count { result ≡ passed_over false text.now }
    ensures few { result ≤ length text.now }
{
    let mut in_comment = false;
    for (place, byte) in text.iter().enumerate() {
        match passes(in_comment, *byte) {
            Some(next) => in_comment = next,
            None => return place,
        }
    }
    text.len()
}

// The number of the line on which the next record begins, of what is left of a text.
pub(crate) fn line_of(text: &[u8], left: &[u8]) -> u64
    requires { length left.now ≤ length text.now }
    ensures { result ≡ line_of text.now left.now }
{
    let begins = text.len() - left.len() + passed_over(left);
    ended_lines(&text[..begins]) as u64 + 1
}

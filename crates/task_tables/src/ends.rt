// Where the records of a text end.
ghost use Rattle.std.specs.Prelude.{◌≡◌, ◌≤◌, length, true, false, MatchOption};
ghost use Rattle.csv.specs.Machine.{in_field, is_end, step};
ghost use Rattle.task_tables.specs.Ends.{state_of};
ghost use Rattle.task_tables.specs.Forms.{config_of};
ghost use Rattle.task_tables.specs.Lines.{behind_one};

use crate::forms::{FieldsForm, ends_line};

// Where a byte of a text stands.
#[derive(Clone, Copy)]
enum Stand {
    // Before a record.
    Before,
    // In a comment before a record.
    Comment,
    // At the first byte of a field that is not the first of its record.
    Field,
    // Behind a byte of a field, outside quotes.
    Plain,
    // Within quotes.
    Quotes,
    // Behind a quote that may end the quotes, or be the first of two that are one.
    Quote,
}

impl Stand {
    // Where the next byte stands behind this one, which ends no record; nothing, where it ends one.
    fn next(self, form: FieldsForm, byte: u8) -> Option<Stand>
        ensures { MatchOption result
            (is_end (step (config_of form) (state_of self) byte).1 ≡ true)
            (λ next. (is_end (step (config_of form) (state_of self) byte).1 ≡ false)
            × (state_of next ≡ (step (config_of form) (state_of self) byte).0)) }
    {
        match self {
            Stand::Before if ends_line(byte) => Some(Stand::Before),
            Stand::Before if byte == b'#' => Some(Stand::Comment),
            Stand::Comment if byte == b'\n' => Some(Stand::Before),
            Stand::Comment => Some(Stand::Comment),
            Stand::Before | Stand::Field | Stand::Quote if byte == b'"' => Some(Stand::Quotes),
            Stand::Quotes if byte == b'"' => Some(Stand::Quote),
            Stand::Quotes => Some(Stand::Quotes),
            _ => in_field(form, byte),
        }
    }
}

// Where the next byte stands behind one outside quotes, which ends no record; nothing, where it ends one.
fn in_field(form: FieldsForm, byte: u8) -> Option<Stand>
    ensures { MatchOption result
        (is_end (in_field (config_of form) byte).1 ≡ true)
        (λ next. (is_end (in_field (config_of form) byte).1 ≡ false)
        × (state_of next ≡ (in_field (config_of form) byte).0)) }
{
    if byte == form.delimiter() {
        Some(Stand::Field)
    } else if ends_line(byte) {
        None
    } else {
        Some(Stand::Plain)
    }
}

// What is left of a text behind its next record.
pub(crate) fn behind_one(form: FieldsForm, text: &[u8]) -> &[u8]
    ensures left { result.now ≡ behind_one (config_of form) text.now }
    ensures shorter { length result.now ≤ length text.now }
{
    let mut stand = Stand::Before;
    for (place, byte) in text.iter().enumerate() {
        match stand.next(form, *byte) {
            Some(next) => stand = next,
            None => return &text[place + 1..],
        }
    }
    &text[text.len()..]
}

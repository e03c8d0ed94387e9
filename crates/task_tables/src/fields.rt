// Fields: their text without blanks around it, and whether they are text.
ghost use Rattle.std.specs.Prelude.{◌≡◌, ◌≤◌, length};
ghost use Rattle.std.specs.List.{prefix_len, suffix_len};
ghost use Rattle.std.specs.Str.{is_utf8};
ghost use Rattle.numerals.specs.Numerals.{is_blank};
ghost use Rattle.task_tables.specs.Fields.{trimmed, without_end, without_front};

use numerals::is_blank;
use std::str;

// How many blanks and tabs a field begins with.
fn blanks_in_front(field: &[u8]) -> usize
    ensures length { result ≡ prefix_len is_blank field.now }
    ensures within { result ≤ length field.now }
{
    field.iter().take_while(|byte| is_blank(**byte)).count()
}

// How many blanks and tabs a field ends with.
fn blanks_at_end(field: &[u8]) -> usize
    ensures length { result ≡ suffix_len is_blank field.now }
    ensures within { result ≤ length field.now }
{
    let backwards = field.iter().rev();
    backwards.take_while(|byte| is_blank(**byte)).count()
}

// A field without blanks and tabs in front.
fn without_front(field: &[u8]) -> &[u8]
    ensures { result.now ≡ without_front field.now }
{
    let (_, field) = field.split_at(blanks_in_front(field));
    field
}

// A field without blanks and tabs at its end.
fn without_end(field: &[u8]) -> &[u8]
    ensures { result.now ≡ without_end field.now }
{
    let (field, _) = field.split_at(field.len() - blanks_at_end(field));
    field
}

// Whether the bytes of a field are text.
pub(crate) fn is_text(field: &[u8]) -> bool
    ensures { result ≡ is_utf8 field.now }
{
    str::from_utf8(field).is_ok()
}

// A field without blanks and tabs around it.
#[tactic(auto, unfolding(crate::specs::Fields::trimmed))]
pub(crate) fn trimmed(field: &[u8]) -> &[u8]
    ensures { result.now ≡ trimmed field.now }
{
    without_end(without_front(field))
}

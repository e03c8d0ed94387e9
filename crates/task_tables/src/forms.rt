// The forms that a text may have: what parts the fields of a line.
ghost use Rattle.std.specs.Prelude.{◌≡◌, find, map, option_map, IfOk};
ghost use Rattle.std.specs.List.{slice_split};
ghost use Rattle.csv.specs.Reading.{strip_bom};
ghost use Rattle.csv.specs.Records.{fields_of};
ghost use Rattle.task_tables.specs.Forms.{counts, decides, delimiter, fields_in, form_of, form_of_line, has_text};
ghost use Rattle.task_tables.specs.Forms.{is_comment, is_line_end};

use crate::fields::trimmed;
use csv::ByteRecord;
use numerals::is_blank;
use std::alloc::{AllocError, Global};

// What parts the fields of a line.
#[derive(Clone, Copy)]
pub(crate) enum FieldsForm {
    Commas,
    Tabs,
    Blanks,
}

// A text without a byte order mark at its start.
#[tactic(auto, unfolding(csv::specs::Reading::strip_bom))]
pub(crate) fn without_mark(text: &[u8]) -> &[u8]
    ensures { result.now ≡ strip_bom text.now }
{
    match text {
        [0xEF, 0xBB, 0xBF, rest @ ..] => rest,
        _ => text,
    }
}

// Whether a byte ends a line.
pub(crate) fn ends_line(byte: u8) -> bool
    ensures { result ≡ is_line_end byte }
{
    byte == b'\n' || byte == b'\r'
}

// Whether a line is a comment.
fn is_comment(line: &[u8]) -> bool
    ensures { result ≡ is_comment line.now }
{
    line.first() == Some(&b'#')
}

// Whether a line has more than blanks.
fn has_text(line: &[u8]) -> bool
    ensures { result ≡ has_text line.now }
{
    line.iter().any(|byte| !is_blank(*byte))
}

// Whether a line decides the form.
fn decides(line: &[u8]) -> bool
    ensures { result ≡ decides line.now }
{
    !is_comment(line) && has_text(line)
}

// The first line of a text that decides the form.
fn deciding_line(text: &[u8]) -> Option<&[u8]>
    ensures { option_map (λ line. line.now) result
        ≡ find decides (slice_split is_line_end text.now) }
{
    text.split(|byte| ends_line(*byte))
        .find(|line| decides(line))
}

impl FieldsForm {
    // The form of a text, which its first line with fields decides.
    #[tactic(auto, unfolding(crate::specs::Forms::form_of))]
    pub(crate) fn of(text: &[u8]) -> FieldsForm
        ensures { result ≡ form_of text.now }
    {
        match deciding_line(without_mark(text)) {
            Some(line) => FieldsForm::of_line(line),
            None => FieldsForm::Blanks,
        }
    }

    // The form that a line decides.
    fn of_line(line: &[u8]) -> FieldsForm
        ensures { result ≡ form_of_line line.now }
    {
        if line.contains(&b',') {
            FieldsForm::Commas
        } else if line.contains(&b'\t') {
            FieldsForm::Tabs
        } else {
            FieldsForm::Blanks
        }
    }

    // The byte that parts the fields.
    pub(crate) fn delimiter(self) -> u8
        ensures { result ≡ delimiter self }
    {
        match self {
            FieldsForm::Commas => b',',
            FieldsForm::Tabs => b'\t',
            FieldsForm::Blanks => b' ',
        }
    }

    // Whether a field counts: where blanks part the fields, one that is not empty.
    fn counts(self, field: &[u8]) -> bool
        ensures { result ≡ counts self field.now }
    {
        match self {
            FieldsForm::Commas | FieldsForm::Tabs => true,
            FieldsForm::Blanks => !field.is_empty(),
        }
    }

    // The fields of a record that count, without blanks around them.
    pub(crate) fn fields(self, alloc: Global, row: &ByteRecord) -> Result<Vec<&[u8]>, AllocError>
        ensures { IfOk result (λ fields.
            map (λ f. f.now) fields.items ≡ fields_in self (fields_of row.now)) }
    {
        let mut fields = Vec::new(alloc);
        for index in 0..row.len() {
            if let Some(field) = row.get(index) {
                let field = trimmed(field);
                if self.counts(field) {
                    fields.push(field)?;
                }
            }
        }
        Ok(fields)
    }
}

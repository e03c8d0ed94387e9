// What cannot be taken, told.
ghost use Rattle.std.specs.Prelude.{◌≡◌, None, Some, IfOk};
ghost use Rattle.task_tables.specs.Misreads.{expected_for, of_field, of_line, refusal_told, told_by};

use crate::columns::Column;
use crate::fields::is_text;
use crate::misreads::{Expected, Misread, Place, Refused, Spot};
use crate::printing::printable_char;
use rows::Refusal;
use std::alloc::{AllocError, Global};

// How many characters of a field are told.
const MOST_CHARACTERS: usize = 40;

impl Misread {
    // A field that cannot be taken, told by its text.
    pub(crate) fn of_field(
        alloc: Global,
        place: Place,
        column: Option<Column>,
        field: &[u8],
        expected: Expected,
    ) -> Result<Misread, AllocError>
        ensures { IfOk result (λ m. told_by m ≡ Some (of_field place column expected None)) }
    {
        let stood = quoted(alloc, field)?;
        Ok(Misread::at(place, column, stood, expected))
    }

    // A field in the place of which something is expected, told by its text, or that its bytes are none.
    pub(crate) fn of_bytes(
        alloc: Global,
        place: Place,
        column: Option<Column>,
        field: &[u8],
        expected: Expected,
    ) -> Result<Misread, AllocError>
        ensures { IfOk result (λ m.
            told_by m ≡ Some (of_field place column (expected_for expected field.now) None)) }
    {
        if is_text(field) {
            return Misread::of_field(alloc, place, column, field, expected);
        }
        let stood = String::from_str(alloc, "bytes that are no text")?;
        Ok(Misread::at(place, column, stood, Expected::Text))
    }

    // A field that cannot be taken, told by these words.
    pub(crate) fn at(
        place: Place,
        column: Option<Column>,
        stood: String,
        expected: Expected,
    ) -> Misread
        ensures { told_by result ≡ Some (of_field place column expected None) }
    {
        Misread {
            spot: Some(Spot {
                line: place.line,
                field: Some(place.field),
                column,
                stood,
                expected,
            }),
            refused: None,
        }
    }

    // A line that cannot be taken, told by these words.
    pub(crate) fn at_line(line: u64, stood: String, expected: Expected) -> Misread
        ensures { told_by result ≡ Some (of_line line expected None) }
    {
        Misread {
            spot: Some(Spot {
                line,
                field: None,
                column: None,
                stood,
                expected,
            }),
            refused: None,
        }
    }

    // What cannot be taken, told with the refusal whose condition holds, where one does.
    pub(crate) fn refused(self, refusal: Option<Refusal>) -> Misread
        ensures spot { result.spot ≡ self.spot }
        ensures refusal { refusal_told result ≡ refusal }
    {
        Misread {
            spot: self.spot,
            refused: refusal.map(|refusal| Refused {
                refusal,
                rank: None,
            }),
        }
    }
}

// The text of a field between quotation marks: its first characters, and two dots for the others.
fn quoted(alloc: Global, field: &[u8]) -> Result<String, AllocError> {
    let text = String::from_utf8_lossy(alloc, field)?;
    let mut quoted = String::from_str(alloc, "\"")?;
    for character in text.as_str().chars().take(MOST_CHARACTERS) {
        quoted.push(printable_char(character))?;
    }
    if text.as_str().chars().count() > MOST_CHARACTERS {
        quoted.push_str("..")?;
    }
    quoted.push('"')?;
    Ok(quoted)
}

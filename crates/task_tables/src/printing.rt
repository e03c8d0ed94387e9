// Texts as people see them, in one line.
ghost use Rattle.std.specs.Prelude.{◌≡◌, Some};
ghost use Rattle.task_tables.specs.Printables.{printable_char, printable_text};

use std::fmt;

/// A text as people see it: with a question mark for each control character, below U+0020 or U+007F.
#[derive(Clone, Copy)]
pub struct Printable<'a>(pub &'a str);

impl fmt::Display for Printable<'_> {
    ghost output = { λ text. Some (printable_text text.0.now) };

    fn fmt<W: fmt::Write>(&self, f: &mut fmt::Formatter<W>) -> fmt::Result {
        for character in self.0.chars() {
            f.write_char(printable_char(character))?;
        }
        Ok(())
    }
}

// A character as it is seen.
pub(crate) fn printable_char(character: char) -> char
    ensures { result ≡ printable_char character }
{
    if character.is_ascii_control() {
        '?'
    } else {
        character
    }
}

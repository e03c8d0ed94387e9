// Names as text of XML.
ghost use Rattle.std.specs.Prelude.{◌≡◌, ◌↔◌, ◌++◌, IsNone, IfSome, OnOk, string_bytes};
ghost use Rattle.plots.specs.Escaping.{IsPlain, escaped, stand_in};

use std::alloc::{AllocError, Global};

// How many characters of a name are shown.
const LONGEST_NAME: usize = 40;

// What stands for a character in XML: an entity for one that has a meaning there, a question mark for
// one that may not stand there, and none for any other, which stands for itself.
fn stand_in(letter: char) -> Option<&'static str>
    ensures plain { IsNone result ↔ IsPlain letter }
    ensures given { IfSome result (λ text. text.now ≡ stand_in letter) }
{
    match letter {
        '&' => Some("&amp;"),
        '<' => Some("&lt;"),
        '>' => Some("&gt;"),
        '"' => Some("&quot;"),
        '\u{fffe}' | '\u{ffff}' => Some("?"),
        _ if letter.is_control() => Some("?"),
        _ => None,
    }
}

// Puts a character behind a text, or what stands for it.
fn push_escaped(text: &mut String, letter: char) -> Result<(), AllocError>
    ensures { OnOk result (string_bytes text.new ≡ string_bytes text.old ++ escaped letter) }
{
    match stand_in(letter) {
        Some(words) => text.push_str(words),
        None => text.push(letter),
    }
}

// A name as text of XML, cut after 40 characters.
pub(crate) fn escape(alloc: Global, name: &str) -> Result<String, AllocError> {
    let mut text = String::new(alloc);
    for letter in name.chars().take(LONGEST_NAME) {
        push_escaped(&mut text, letter)?;
    }
    Ok(text)
}

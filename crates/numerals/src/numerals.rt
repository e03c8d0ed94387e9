// Blanks, digits and the numbers that words are.
ghost use Rattle.std.specs.Prelude.{◌≡◌};
ghost use Rattle.std.specs.Char.{is_ascii_digit};
ghost use Rattle.std.specs.List.{list_all};
ghost use Rattle.numerals.specs.Numerals.{is_blank, is_digits, number_of};

use std::str;

/// Whether a byte is a blank or a tab (docs/PROGRAMS.md, Task tables and `bench`).
pub fn is_blank(byte: u8) -> bool
    ensures { result ≡ is_blank byte }
{
    byte == b' ' || byte == b'\t'
}

// Whether every byte of a word is a decimal digit.
fn has_only_digits(word: &[u8]) -> bool
    ensures { result ≡ list_all is_ascii_digit word.now }
{
    word.iter().all(|byte| byte.is_ascii_digit())
}

/// Whether a word is one or more decimal digits (docs/PROGRAMS.md, Task tables).
#[tactic(auto, using(crate::proofs::Digits::all_digits_all))]
pub fn is_digits(word: &[u8]) -> bool
    ensures { result ≡ is_digits word.now }
{
    !word.is_empty() && has_only_digits(word)
}

/// The number that a word is: one or more decimal digits, without a sign, that write one below 2^32;
/// none where it is no such word (docs/PROGRAMS.md, Task tables and `bench`).
pub fn number(word: &[u8]) -> Option<u32>
    ensures { result ≡ number_of word.now }
{
    // `parse` would take a sign.
    if word.first() == Some(&b'+') {
        return None;
    }
    str::from_utf8(word).ok()?.parse::<u32>().ok()
}

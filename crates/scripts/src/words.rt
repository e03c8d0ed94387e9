// The words of a line, and the numbers among them.
ghost use Rattle.std.specs.Prelude.{◌≡◌, ◌≤◌, List, ◌∷◌, length, take, MatchOption, MatchResult};
ghost use Rattle.std.specs.List.{position_or_len, prefix_len};
ghost use Rattle.std.specs.Iterator.{YieldsFirstRef, item_count};
ghost use Rattle.scripts.specs.declared.forms.Field.{Field};
ghost use Rattle.numerals.specs.Numerals.{is_blank};
ghost use Rattle.scripts.specs.Words.{words_of};
ghost use Rattle.scripts.specs.Lines.{numbers_of, put_first};

use crate::forms::Field;
use numerals::{is_blank, number};

// How many bytes that part words a line begins with.
fn blank_length(line: &[u8]) -> usize
    ensures length { result ≡ prefix_len is_blank line.now }
    ensures within { result ≤ length line.now }
{
    line.iter().take_while(|byte| is_blank(**byte)).count()
}

// How many bytes stand before the first that parts words: all, where none does.
fn word_length(line: &[u8]) -> usize
    ensures length { result ≡ position_or_len is_blank line.now }
    ensures within { result ≤ length line.now }
{
    line.iter().take_while(|byte| !is_blank(**byte)).count()
}

// The words of a line, from the left.
#[derive(Clone, Copy, Debug)]
pub(crate) struct Words<'a>(pub(crate) &'a [u8]);

impl<'a> Iterator for Words<'a> {
    type Item = &'a [u8];

    ghost next_gives = { YieldsFirstRef (λ s. words_of s.0.now) };

    ghost remaining = { item_count (λ s. words_of s.0.now) };

    fn next(&mut self) -> Option<&'a [u8]> {
        let line = &self.0[blank_length(self.0)..];
        let (word, rest) = line.split_at(word_length(line));
        if word.is_empty() {
            return None;
        }
        self.0 = rest;
        Some(word)
    }
}

impl Words<'_> {
    // Takes the next word as a number.
    #[tactic(auto, using(crate::proofs::Reading::numbers_of_cons, crate::proofs::Reading::numbers_of_none, crate::proofs::Reading::numbers_of_end))]
    fn number(&mut self) -> Option<u32>
        ensures { MatchOption result
            ((field : Field) (fields : List Field)
            → numbers_of (field ∷ fields) (words_of self.old.0.now) ≡ Err field)
            (λ n. (field : Field) (fields : List Field)
            → numbers_of (field ∷ fields) (words_of self.old.0.now)
            ≡ put_first n (numbers_of fields (words_of self.new.0.now))) }
    {
        number(self.next()?)
    }

    // Takes words as numbers, one for each field: up to five, and 0 past them. Where a word is none,
    // answers the field of the leftmost.
    pub(crate) fn numbers(mut self, fields: &[Field]) -> Result<[u32; 5], Field>
        requires { length fields.now ≤ 5 }
        ensures { MatchResult result
            (λ numbers. numbers_of fields.now (words_of self.entry.0.now)
            ≡ Ok (take (length fields.now) numbers))
            (λ field. numbers_of fields.now (words_of self.entry.0.now) ≡ Err field) }
    {
        let mut numbers = [0; 5];
        for (place, field) in fields.iter().enumerate() {
            let Some(number) = self.number() else {
                return Err(*field);
            };
            numbers[place] = number;
        }
        Ok(numbers)
    }
}

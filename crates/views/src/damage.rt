// What is told of bytes that are no leaf.
ghost use Rattle.std.specs.Prelude.{◌≡◌, string_bytes, IfOk, Some};
ghost use Rattle.views.specs.Texts.{damage_text};

use rows::Fault;
use std::alloc::{AllocError, Global};
use std::fmt;
use task_tables::Printable;

// How many bytes are shown before the place of a refusal, and how many after the one that stands there.
const BEFORE: usize = 8;

const AFTER: usize = 7;

/// A damaged leaf: its name, the refusal with its place, and the bytes around the place in hexadecimal,
/// the one at the place in brackets (docs/PROGRAMS.md, `yabreznul show`).
#[derive(Drop)]
pub struct Damage {
    pub(crate) name: String,
    pub(crate) fault: Fault,
    pub(crate) around: String,
}

impl Damage {
    // What is told of some bytes that are refused.
    pub(crate) fn of(
        alloc: Global,
        name: &str,
        bytes: &[u8],
        fault: Fault,
    ) -> Result<Damage, AllocError>
        ensures name { IfOk result (λ damage. string_bytes damage.name ≡ name.now) }
        ensures fault { IfOk result (λ damage. damage.fault ≡ fault) }
    {
        Ok(Damage {
            name: String::from_str(alloc, name)?,
            fault,
            around: around(alloc, bytes, fault.at as usize)?,
        })
    }
}

// The bytes around a place: the place itself in brackets, which are empty where the bytes end there.
fn around(alloc: Global, bytes: &[u8], at: usize) -> Result<String, AllocError> {
    let at = at.min(bytes.len());
    let mut text = String::new(alloc);
    for byte in &bytes[at.saturating_sub(BEFORE)..at] {
        write!(text, "{byte:02x} ")?;
    }
    push_from(&mut text, &bytes[at..])?;
    Ok(text)
}

// The first of some bytes in brackets, and those behind it.
fn push_from(text: &mut String, bytes: &[u8]) -> Result<(), AllocError> {
    let Some((first, behind)) = bytes.split_first() else {
        return text.push_str("[]");
    };
    write!(text, "[{first:02x}]")?;
    for byte in behind.iter().take(AFTER) {
        write!(text, " {byte:02x}")?;
    }
    Ok(())
}

impl fmt::Display for Damage {
    ghost output = { λ d. Some (damage_text (string_bytes d.name) d.fault.refusal d.fault.at (string_bytes d.around)) };

    fn fmt<W: fmt::Write>(&self, f: &mut fmt::Formatter<W>) -> fmt::Result {
        let (name, around, at) = (Printable(&self.name), &self.around, self.fault.at);
        let number = self.fault.refusal.number();
        let words = self.fault.refusal.words();
        write!(
            f,
            "{name}: refused {number} {words} at byte {at}, around it {around}"
        )
    }
}

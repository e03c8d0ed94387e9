// What a picture tells in its description.
ghost use Rattle.std.specs.Prelude.{◌≡◌, IfOk, IfSome, ◌++◌};
ghost use Rattle.viewings.specs.Pictures.{TellsNumbers};

use anyhow::Context;
use std::str;

/// The description of an SVG picture.
pub(crate) fn told(picture: &[u8]) -> anyhow::Result<&str>
    ensures { IfOk result (λ told. TellsNumbers picture.now told.now) }
{
    let text = str::from_utf8(picture)?;
    let (_, described) = around(text, "<desc>").context("no description")?;
    let (told, _) = around(described, "</desc>").context("a description without an end")?;
    Ok(told)
}

// What stands before a mark in a text, and what behind it.
fn around<'a>(text: &'a str, mark: &str) -> Option<(&'a str, &'a str)>
    ensures { IfSome result (λ parts. text.now ≡ parts.0.now ++ (mark.now ++ parts.1.now)) }
{
    text.split_once(mark)
}

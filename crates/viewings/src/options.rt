// The options of a command line.
ghost use Rattle.std.specs.Prelude.{◌≡◌, ◌++◌, ◌∷◌, [], Some, OnOk, codes};
ghost use Rattle.rows.specs.Frames.{frame_of};
ghost use Rattle.bounds.specs.declared.families.Family.TheVariants.{LinearTail};

use anyhow::{Context, bail};
use bounds::Family;
use rows::FrameNumbers;
use std::alloc::{AllocError, Global};
use views::Counting;

/// The numbers that were named; bounds by kind and accuracy.
#[derive(Drop)]
pub(crate) struct Options {
    pub(crate) rank: Option<u32>,
    pub(crate) frame: Option<FrameNumbers>,
    pub(crate) bounds: Vec<(Family, u32)>,
}

impl Options {
    /// The options that words tell, each followed by its number, with the bounds in the order of their
    /// kinds.
    pub(crate) fn parse(alloc: Global, words: &[&str]) -> anyhow::Result<Options> {
        let mut options = Options {
            rank: None,
            frame: None,
            bounds: Vec::new(alloc),
        };
        for pair in words.chunks(2) {
            let [name, number] = pair else {
                bail!("an option without its number");
            };
            options.set(name, number.parse().context("reading a number")?)?;
        }
        let bounds = in_order(alloc, &options.bounds)?;
        Ok(Options { bounds, ..options })
    }

    // Takes the number of an option.
    fn set(&mut self, name: &str, number: u32) -> anyhow::Result<()>
        ensures rank { name.now ≡ codes "--rank"
            → self.new ≡ record self.old { rank = Some number } }
        ensures linear { name.now ≡ codes "--linear"
            → OnOk result (self.new.bounds.items ≡ self.old.bounds.items ++ (LinearTail, number) ∷ []) }
        ensures frame { name.now ≡ codes "--frame"
            → self.new ≡ record self.old { frame = Some (frame_of number) } }
    {
        match name {
            "--rank" => self.rank = Some(number),
            "--frame" => self.frame = Some(FrameNumbers { ticks: number }),
            _ => {
                let Some(family) = family_of(name) else {
                    bail!("no option: {name:?}");
                };
                self.bounds.push((family, number))?;
            }
        }
        Ok(())
    }

    /// How a table is counted: on the frame, and by the bounds.
    pub(crate) fn counting(&self) -> Counting<'_>
        ensures frame { result.frame ≡ self.now.frame }
        ensures bounds { result.bounds.now ≡ self.now.bounds.items }
    {
        Counting {
            frame: self.frame,
            bounds: self.bounds.as_slice(),
        }
    }
}

// The kind of bounds with accuracies whose option is called so.
fn family_of(name: &str) -> Option<Family>
    ensures { name.now ≡ codes "--linear" → result ≡ Some LinearTail }
{
    let word = name.strip_prefix("--")?;
    Family::all()
        .into_iter()
        .find(|family| family.has_accuracies() && family.word() == word)
}

// Bounds in the order of their kinds, of each kind the last.
fn in_order(alloc: Global, named: &[(Family, u32)]) -> Result<Vec<(Family, u32)>, AllocError> {
    let mut bounds = Vec::new(alloc);
    for family in Family::all() {
        if let Some(bound) = named.iter().rev().find(|bound| bound.0 == family) {
            bounds.push(*bound)?;
        }
    }
    Ok(bounds)
}

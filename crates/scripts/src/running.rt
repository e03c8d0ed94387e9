// What a reader holds, played as a script into a writer.
ghost use Rattle.std.specs.Prelude.{◌≡◌, false, OnOk, IfOk, IfErr};
ghost use Rattle.std.specs.Io.KnownBytes.{Appends, IsAtEnd};
ghost use Rattle.scripts.specs.PlayState.{progress_of, written_last};
ghost use Rattle.scripts.specs.Runs.{Plays, HasPlayed, BeginsToPlay, CallsAreAnswered};
ghost use Rattle.scripts.specs.Blocks.{PlayedOn, FailsBlock, FailsEnd};

use crate::player::Player;
use std::io;
use std::io::{ErrorKind, Read, Write};
use streams::{Failure, NamedFailure, read_again};

// How many bytes are read at a time.
const BLOCK: usize = 4096;

/// A failure of `run` with the names of what it read and wrote, as people are told it.
pub fn name_failure(failure: Failure) -> NamedFailure
    ensures { result.failure ≡ failure }
{
    failure.named("the script", "the answers")
}

/// Plays the script that a reader holds on a new bench, and writes the answers to a writer
/// (docs/PROGRAMS.md, `bench`). It reads to the end of the input, up to 4096 bytes at a time, and
/// answers the lines that end there before it reads on. It allocates nothing.
///
/// An interrupted read or write is made again; any other error ends the run. Where reading fails, every
/// line that had ended is answered; where writing fails, a beginning of the answers is written.
pub fn run<R: Read, W: Write>(reader: &mut R, writer: &mut W) -> Result<(), Failure>
    ensures played { OnOk result (Plays (R.remaining reader.old) (R.remaining reader.new)
        (W.contents writer.old) (W.contents writer.new)) }
    ensures failed { IfErr result (λ f. HasPlayed f (R.remaining reader.old) (R.remaining reader.new)
        (W.contents writer.old) (W.contents writer.new)) }
    ensures begun { BeginsToPlay (R.remaining reader.old)
        (W.contents writer.old) (W.contents writer.new) }
    ensures calls { CallsAreAnswered }
{
    let mut player = Player::new();
    for _ in 0..u64::MAX {
        if !play_block(&mut player, reader, writer)? {
            return end(&mut player, writer);
        }
    }
    Err(Failure::Reading(io::Error::from(ErrorKind::TimedOut)))
}

// Reads a block of bytes and plays them. Answers whether there were any.
fn play_block<R: Read, W: Write>(
    player: &mut Player,
    reader: &mut R,
    writer: &mut W,
) -> Result<bool, Failure>
    ensures played { OnOk result (PlayedOn (progress_of player.old) (progress_of player.new)
        (R.remaining reader.old) (R.remaining reader.new)
        (W.contents writer.old) (W.contents writer.new)) }
    ensures end { IfOk result (λ more. more ≡ false → IsAtEnd (R.remaining reader.new)) }
    ensures failed { IfErr result (λ f. FailsBlock f (progress_of player.old)
        (R.remaining reader.old) (R.remaining reader.new)
        (W.contents writer.old) (W.contents writer.new)) }
{
    let mut block = [0; BLOCK];
    let count = read_again(reader, &mut block).map_err(Failure::Reading)?;
    player
        .play(&block[..count], writer)
        .map_err(Failure::Writing)?;
    Ok(count > 0)
}

// Plays the end of the input.
fn end<W: Write>(player: &mut Player, writer: &mut W) -> Result<(), Failure>
    ensures played { OnOk result (Appends (W.contents writer.old) (W.contents writer.new)
        (written_last (progress_of player.old))) }
    ensures failed { IfErr result (λ f. FailsEnd f (progress_of player.old)
        (W.contents writer.old) (W.contents writer.new)) }
{
    player.end(writer).map_err(Failure::Writing)
}

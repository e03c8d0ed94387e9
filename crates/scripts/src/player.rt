// A script played byte by byte.
ghost use Rattle.std.specs.Prelude.{◌≡◌, IfOk, OnOk, OnErr};
ghost use Rattle.std.specs.Io.KnownBytes.{Appends};
ghost use Rattle.scripts.specs.Written.{Begun};
ghost use Rattle.scripts.specs.Scripts.{without_return as line_without_return};
ghost use Rattle.scripts.specs.Sessions.{reaction_of, reaction_text};

use crate::buffer::Buffer;
use crate::lines::parse;
use crate::session::{Remark, Session};
use crate::shown::{NoCallLine, ReplyLine};
use std::io;
use std::io::Write;
use streams::write_whole;

// How far a script has been played: the number of lines that have ended, what they have come to, and
// the line that has begun.
#[derive(Debug, Drop)]
pub(crate) struct Player {
    session: Session,
    number: u64,
    line: Buffer,
}

impl Player {
    ghost use Rattle.scripts.specs.PlayState.{progress_of, first_progress, once_ended, written_at_end, after_byte};
    ghost use Rattle.scripts.specs.PlayState.{written_for_byte, after_bytes, written_for_bytes, written_last};

    // Before the first byte of a script.
    pub(crate) fn new() -> Player
        ensures { progress_of result ≡ first_progress }
    {
        Player {
            session: Session::Unnamed,
            number: 0,
            line: Buffer::new(),
        }
    }

    // Plays some bytes more, and writes the answers to the lines that they end.
    pub(crate) fn play<W: Write>(&mut self, bytes: &[u8], writer: &mut W) -> io::Result<()>
        ensures played { OnOk result (progress_of self.new
            ≡ after_bytes (progress_of self.old) bytes.now) }
        ensures written { OnOk result (Appends (W.contents writer.old) (W.contents writer.new)
            (written_for_bytes (progress_of self.old) bytes.now)) }
        ensures begun { OnErr result (Begun (W.contents writer.old) (W.contents writer.new)
            (written_for_bytes (progress_of self.old) bytes.now)) }
    {
        self.take_all(bytes, writer)?;
        writer.flush()
    }

    // Ends the script: the input may end a line too.
    pub(crate) fn end<W: Write>(&mut self, writer: &mut W) -> io::Result<()>
        ensures written { OnOk result (Appends (W.contents writer.old) (W.contents writer.new)
            (written_last (progress_of self.old))) }
        ensures begun { OnErr result (Begun (W.contents writer.old) (W.contents writer.new)
            (written_last (progress_of self.old))) }
    {
        self.end_last(writer)?;
        writer.flush()
    }

    // Ends the line that has begun, if one has.
    fn end_last<W: Write>(&mut self, writer: &mut W) -> io::Result<()>
        ensures written { OnOk result (Appends (W.contents writer.old) (W.contents writer.new)
            (written_last (progress_of self.old))) }
        ensures begun { OnErr result (Begun (W.contents writer.old) (W.contents writer.new)
            (written_last (progress_of self.old))) }
    {
        if self.line.bytes().is_empty() {
            return Ok(());
        }
        self.end_line(writer)
    }

    // Takes some bytes.
    fn take_all<W: Write>(&mut self, bytes: &[u8], writer: &mut W) -> io::Result<()>
        ensures taken { OnOk result (progress_of self.new
            ≡ after_bytes (progress_of self.old) bytes.now) }
        ensures written { OnOk result (Appends (W.contents writer.old) (W.contents writer.new)
            (written_for_bytes (progress_of self.old) bytes.now)) }
        ensures begun { OnErr result (Begun (W.contents writer.old) (W.contents writer.new)
            (written_for_bytes (progress_of self.old) bytes.now)) }
    {
        for byte in bytes {
            self.take(*byte, writer)?;
        }
        Ok(())
    }

    // Takes one byte.
    fn take<W: Write>(&mut self, byte: u8, writer: &mut W) -> io::Result<()>
        ensures taken { OnOk result (progress_of self.new ≡ after_byte (progress_of self.old) byte) }
        ensures written { OnOk result (Appends (W.contents writer.old) (W.contents writer.new)
            (written_for_byte (progress_of self.old) byte)) }
        ensures begun { OnErr result (Begun (W.contents writer.old) (W.contents writer.new)
            (written_for_byte (progress_of self.old) byte)) }
    {
        if byte == b'\n' {
            return self.end_line(writer);
        }
        self.line.push(byte);
        Ok(())
    }

    // Ends the line that has begun, and answers it.
    fn end_line<W: Write>(&mut self, writer: &mut W) -> io::Result<()>
        ensures ended { OnOk result (progress_of self.new ≡ once_ended (progress_of self.old)) }
        ensures written { OnOk result (Appends (W.contents writer.old) (W.contents writer.new)
            (written_at_end (progress_of self.old))) }
        ensures begun { OnErr result (Begun (W.contents writer.old) (W.contents writer.new)
            (written_at_end (progress_of self.old))) }
    {
        let line = parse(without_return(self.line.bytes()), self.session.is_named());
        let remark = self.session.hear(line);
        self.number = self.number.saturating_add(1);
        self.line.clear();
        let text = remark_text(self.number, remark)?;
        write_whole(writer, text.bytes())
    }
}

// A line without one carriage return at its end.
#[tactic(auto, unfolding(crate::specs::Scripts::without_return))]
fn without_return(line: &[u8]) -> &[u8]
    ensures { result.now ≡ line_without_return line.now }
{
    match line {
        [front @ .., b'\r'] => front,
        _ => line,
    }
}

// What is written for a line of some number.
fn remark_text(number: u64, remark: Remark) -> io::Result<Buffer>
    ensures { IfOk result (λ text. text ≡ reaction_text number (reaction_of remark)) }
{
    let mut text = Buffer::new();
    match remark {
        Remark::Silence => {}
        Remark::Answer(reply) => writeln!(text, "{}", ReplyLine(reply))?,
        Remark::NoCall(expected) => writeln!(
            text,
            "{}",
            NoCallLine {
                line: number,
                expected
            }
        )?,
    }
    Ok(text)
}

//! Applies what the command `yabreznul` does to the files of the folder that it runs in, and prints what
//! is told of each.
//!
//! A line of standard input is a command line, in words parted by blanks: `file TABLE --linear K
//! [--frame H]`, `show [--csv or --json] LEAF ..`, `compare A B`, `plot TABLE --rank R --linear K
//! [--frame H]`, `sheet TABLE [--linear K] [--frame H]`, `respond TABLE` or `bench SCRIPT`. For `--linear`
//! there may stand the option of any kind of bounds that has accuracies, and for `file` and `plot` those of
//! several. It is printed behind `=== `, and below it what it gives: of `file` the table and the leaf of each
//! count in hexadecimal, of `plot` the picture's description, of `sheet` its bytes in hexadecimal, and of the
//! others what is printed.
#![tactic(auto)]

mod answers;
mod lines;
mod options;
mod pictures;

use answers::answer;
use anyhow::Context;
use lines::Line;
use std::io;
use std::io::{BufRead, BufReader, BufWriter, Write};

// Answers each command line.
fn run<W: Write + Drop>(rt: &HostRuntime, writer: &mut W) -> anyhow::Result<()> {
    let alloc = rt.alloc();
    let lines = BufReader::new(alloc, rt.reader())?.lines(alloc);
    for (i, text) in lines.enumerate() {
        let text = text?;
        let number = i.saturating_add(1);
        let line = Line::parse(alloc, &text).context(format_args!("line {number}"))?;
        writeln!(writer, "=== {text}")?;
        writer.write_all(&answer(rt, &line)?)?;
    }
    Ok(())
}

fn main(rt: HostRuntime) -> anyhow::Result<()> {
    let mut writer = BufWriter::new(rt.alloc(), io::writer(&rt))?;
    run(&rt, &mut writer)?;
    writer.flush()?;
    Ok(())
}

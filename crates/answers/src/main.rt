//! Asks the library stored questions from standard input, and prints its answers (docs/PROGRAMS.md).
//!
//! A line `=== KIND` stands before the questions of a kind, and is printed before their answers:
//! `=== leaves`, `=== leaves cut`, `=== leaves changed`, `=== leaves backwards`, `=== last numbers`,
//! `=== sheets`, `=== rows`, `=== rows batches` or `=== rows staircase` before lines that are a question
//! each, and `=== script N` before the lines of one script. `reference/` makes the questions, and the
//! answers that are wanted, by docs/ alone. Nothing is compared here.
#![tactic(auto)]

mod filing;
mod last_answers;
mod leaf_answers;
mod puts;
mod row_answers;
mod row_questions;
mod sections;
mod sheet_answers;
mod told;

use anyhow::Context;
use sections::Section;
use std::alloc::Global;
use std::io;
use std::io::{BufWriter, Read, Write};

// Answers the questions in some bytes, line after line.
fn answer_all<W: Write + Drop>(alloc: Global, bytes: &[u8], writer: &mut W) -> anyhow::Result<()> {
    let mut section = None;
    for (i, line) in bytes.split_inclusive(|byte| *byte == b'\n').enumerate() {
        let number = i.saturating_add(1);
        answer_line(alloc, &mut section, line, writer).context(format_args!("line {number}"))?;
    }
    match section {
        Some(section) => section.end(writer),
        None => Ok(()),
    }
}

// Answers a line of a section, or begins the next section with it.
fn answer_line<W: Write + Drop>(
    alloc: Global,
    section: &mut Option<Section>,
    line: &[u8],
    writer: &mut W,
) -> anyhow::Result<()> {
    if !line.starts_with(b"=== ") {
        let section = section
            .as_mut()
            .context("no kind of questions is named yet")?;
        return section.answer(alloc, line, writer);
    }
    if let Some(ended) = section.replace(Section::parse(alloc, line)?) {
        ended.end(writer)?;
    }
    writer.write_all(line)?;
    Ok(())
}

fn main(rt: HostRuntime) -> anyhow::Result<()> {
    let alloc = rt.alloc();
    let mut bytes = Vec::new(alloc);
    rt.reader().read_to_end(&mut bytes)?;
    let mut writer = BufWriter::new(alloc, io::writer(&rt))?;
    answer_all(alloc, &bytes, &mut writer)?;
    writer.flush()?;
    Ok(())
}

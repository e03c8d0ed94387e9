// Sections: stored questions of one kind.
use crate::last_answers::{answer_backwards, answer_last};
use crate::leaf_answers::{answer_changes, answer_cuts, answer_leaf};
use crate::row_answers::{answer_by, answer_by_tail};
use crate::row_questions::{with_batches, with_staircase, with_tail};
use crate::sheet_answers::answer_in_buffers;
use anyhow::{bail, ensure};
use scripts::run;
use std::alloc::Global;
use std::io::Write;
use std::str;

/// A section, by what is asked in it: about strings of bytes as leaves, each as it stands there, cut
/// at every length, with each byte changed to every value, or from the last field of each finding back;
/// about the numbers that strings of bytes end in; about strings of bytes as sheets; about rows, by
/// linear tails, by batches or by staircases; or about one script, with its lines as far as they have
/// come.
#[derive(Drop)]
pub(crate) enum Section {
    Leaves,
    LeavesCut,
    LeavesChanged,
    LeavesBackwards,
    LastNumbers,
    Sheets,
    Rows,
    RowsInBatches,
    RowsByStaircase,
    Script(Vec<u8>),
}

impl Section {
    /// The section that a line begins.
    pub(crate) fn parse(alloc: Global, line: &[u8]) -> anyhow::Result<Section> {
        let words: Vec<&str> = str::from_utf8(line)?
            .split_ascii_whitespace()
            .collect(alloc)?;
        match words.as_slice() {
            ["===", "leaves"] => Ok(Section::Leaves),
            ["===", "leaves", "cut"] => Ok(Section::LeavesCut),
            ["===", "leaves", "changed"] => Ok(Section::LeavesChanged),
            ["===", "leaves", "backwards"] => Ok(Section::LeavesBackwards),
            ["===", "last", "numbers"] => Ok(Section::LastNumbers),
            ["===", "sheets"] => Ok(Section::Sheets),
            ["===", "rows"] => Ok(Section::Rows),
            ["===", "rows", "batches"] => Ok(Section::RowsInBatches),
            ["===", "rows", "staircase"] => Ok(Section::RowsByStaircase),
            ["===", "script", _] => Ok(Section::Script(Vec::new(alloc))),
            _ => bail!("no kind of questions"),
        }
    }

    /// Answers a line of the section. That of a script is kept until its end.
    pub(crate) fn answer<W: Write + Drop>(
        &mut self,
        alloc: Global,
        line: &[u8],
        writer: &mut W,
    ) -> anyhow::Result<()> {
        match self {
            Section::Leaves => answer_leaf(alloc, &decoded(alloc, line)?, writer),
            Section::LeavesCut => answer_cuts(alloc, &decoded(alloc, line)?, writer),
            Section::LeavesChanged => answer_changes(alloc, &decoded(alloc, line)?, writer),
            Section::LeavesBackwards => answer_backwards(&decoded(alloc, line)?, writer),
            Section::LastNumbers => answer_last(&decoded(alloc, line)?, writer),
            Section::Sheets => answer_in_buffers(alloc, &decoded(alloc, line)?, writer),
            Section::Rows => {
                let (tail, question) = with_tail(alloc, line)?;
                answer_by_tail(&tail, &question, writer)
            }
            Section::RowsInBatches => {
                let (batches, question) = with_batches(alloc, line)?;
                answer_by(&batches, &question, writer)
            }
            Section::RowsByStaircase => {
                let (staircase, question) = with_staircase(alloc, line)?;
                answer_by(&staircase, &question, writer)
            }
            Section::Script(script) => Ok(script.extend_from_slice(line)?),
        }
    }

    /// Answers what the lines of the section ask together.
    pub(crate) fn end<W: Write + Drop>(self, writer: &mut W) -> anyhow::Result<()> {
        if let Section::Script(script) = self {
            run(&mut script.as_slice(), writer)?;
        }
        Ok(())
    }
}

// The bytes that a line tells in hexadecimal, or by `-` where there is none.
fn decoded(alloc: Global, line: &[u8]) -> anyhow::Result<Vec<u8>> {
    let digits = str::from_utf8(line)?.trim_end();
    if digits == "-" {
        return Ok(Vec::new(alloc));
    }
    ensure!(!digits.is_empty(), "no bytes");
    Ok(hex::decode(alloc, digits)?)
}

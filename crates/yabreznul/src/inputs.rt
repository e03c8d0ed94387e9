// Files and standard input, opened to be read.
ghost use Rattle.std.specs.Prelude.{◌≡◌, ◌≢◌, codes};

use crate::complaints::{Failed, MISUSED, complain, or_complain, out_of_memory};
use std::alloc::Global;
use std::env::Args;
use std::fs::File;
use std::io::{ErrorKind, Read, Stdin};
use std::{env, io};

/// What a word of the command line names: `-` the standard stream, any other word a file.
#[derive(Clone, Copy)]
pub(crate) enum Source<'a> {
    Standard,
    File(&'a str),
}

impl<'a> Source<'a> {
    /// What a word names.
    pub(crate) fn named(word: &'a str) -> Source<'a>
        ensures standard { word.entry.now ≡ codes "-" → result ≡ Source.Standard }
        ensures file { word.entry.now ≢ codes "-" → result ≡ Source.File word.entry }
    {
        if word == "-" {
            Source::Standard
        } else {
            Source::File(word)
        }
    }

    /// What a source is called where it is read.
    pub(crate) fn name(&self) -> &'a str
        ensures standard { self.now ≡ Source.Standard → result.now ≡ codes "standard input" }
        ensures file { (word : _) → self.now ≡ Source.File word → result ≡ word }
    {
        match self {
            Source::Standard => "standard input",
            Source::File(name) => name,
        }
    }
}

/// An opened input.
#[derive(Drop)]
pub(crate) enum Input {
    Standard(Stdin),
    File(File),
}

impl Read for Input {
    fn read(&mut self, buffer: &mut [u8]) -> io::Result<usize> {
        match self {
            Input::Standard(stdin) => stdin.read(buffer),
            Input::File(file) => file.read(buffer),
        }
    }
}

/// The words of the command line, of which the first names the program.
pub(crate) fn arguments(rt: &HostRuntime) -> Result<Vec<String>, Failed> {
    match env::args(rt) {
        Ok(words) => collected(rt, words),
        Err(error) => {
            let failed = complain(rt, "command line", &error);
            Err(if error.kind() == ErrorKind::OutOfMemory {
                failed
            } else {
                MISUSED
            })
        }
    }
}

// Words in a list.
fn collected(rt: &HostRuntime, words: Args<Global>) -> Result<Vec<String>, Failed> {
    match words.collect(rt.alloc()) {
        Ok(words) => Ok(words),
        Err(_) => Err(out_of_memory(rt, "command line")),
    }
}

/// Opens an input.
pub(crate) fn open(rt: &HostRuntime, source: Source<'_>) -> io::Result<Input> {
    match source {
        Source::Standard => Ok(Input::Standard(rt.stdin())),
        Source::File(name) => Ok(Input::File(File::open(rt, name)?)),
    }
}

/// Opens an input, and complains where that fails.
pub(crate) fn open_or_complain(rt: &HostRuntime, source: Source<'_>) -> Result<Input, Failed> {
    or_complain(rt, source.name(), open(rt, source))
}

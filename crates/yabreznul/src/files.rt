// Files written whole: first beside the place where they are to stand, and then put there.
use crate::complaints::{Failed, complain, or_complain};
use std::alloc::Global;
use std::fs::{File, OpenOptions};
use std::io::{ErrorKind, Write};
use std::{fs, io};
use views::Trouble;

/// A file that is to stand under a name, and the name of the file beside it that is written first.
#[derive(Drop)]
pub(crate) struct Draft {
    name: String,
    part: String,
    bytes: Vec<u8>,
}

impl Draft {
    /// Bytes that are to stand under a name.
    pub(crate) fn new(alloc: Global, name: String, bytes: Vec<u8>) -> Result<Draft, Trouble> {
        let part = format!(in alloc; "{name}.part")?;
        Ok(Draft { name, part, bytes })
    }

    pub(crate) fn name(&self) -> &str {
        &self.name
    }

    /// The number of bytes.
    pub(crate) fn length(&self) -> usize {
        self.bytes.len()
    }
}

/// Writes files and puts each where it is to stand: all of them, or none. A file that stands there already
/// is overwritten only by force. Where by force one is put and the next cannot be, the first stays there
/// in the place of what it overwrote.
pub(crate) fn write_files(rt: &HostRuntime, drafts: &[Draft], force: bool) -> Result<(), Failed> {
    for draft in drafts {
        or_tell(rt, draft, look(rt, draft, force))?;
    }
    let written = write_and_put(rt, drafts, force);
    remove_parts(rt, drafts);
    written
}

// Passes a result on; where it says that a file could not be put into its place, tells so.
fn or_tell(rt: &HostRuntime, draft: &Draft, done: io::Result<()>) -> Result<(), Failed> {
    match done {
        Ok(()) => Ok(()),
        Err(error) => Err(tell(rt, draft, &error)),
    }
}

// Tells why a file could not be put into its place.
fn tell(rt: &HostRuntime, draft: &Draft, error: &io::Error) -> Failed {
    if error.kind() == ErrorKind::AlreadyExists {
        complain(
            rt,
            &draft.name,
            &"it is there already; --force overwrites it",
        )
    } else {
        complain(rt, &draft.name, error)
    }
}

// Looks whether a file may be put where it is to stand.
fn look(rt: &HostRuntime, draft: &Draft, force: bool) -> io::Result<()> {
    match fs::symlink_metadata(rt, &draft.name) {
        Ok(_) if !force => Err(io::Error::from(ErrorKind::AlreadyExists)),
        Ok(there) if there.is_dir() => Err(io::Error::from(ErrorKind::IsADirectory)),
        _ => Ok(()),
    }
}

// Writes all files beside their places, and then puts them there.
fn write_and_put(rt: &HostRuntime, drafts: &[Draft], force: bool) -> Result<(), Failed> {
    for draft in drafts {
        or_complain(rt, &draft.name, write_part(rt, draft))?;
    }
    if force {
        replace_all(rt, drafts)
    } else {
        link_all(rt, drafts)
    }
}

// Writes a file beside its place, up to the disk.
fn write_part(rt: &HostRuntime, draft: &Draft) -> io::Result<()> {
    let mut file = new_part(rt, &draft.part)?;
    file.write_all(&draft.bytes)?;
    file.sync_all()
}

// Makes a new file in the place of one that an earlier run left, which may be the same as a file that was
// put into its place, and so is not written again.
fn new_part(rt: &HostRuntime, part: &str) -> io::Result<File> {
    let _ = fs::remove_file(rt, part);
    let mut options = OpenOptions::new();
    options.write(true);
    options.create_new(true);
    options.open(rt, part)
}

// Puts all files into their places, whatever stands there.
fn replace_all(rt: &HostRuntime, drafts: &[Draft]) -> Result<(), Failed> {
    for draft in drafts {
        or_complain(rt, &draft.name, fs::rename(rt, &draft.part, &draft.name))?;
    }
    Ok(())
}

// Puts all files into their places, where nothing stands there; where one fails, none is left there.
fn link_all(rt: &HostRuntime, drafts: &[Draft]) -> Result<(), Failed> {
    for (i, draft) in drafts.iter().enumerate() {
        if let Err(error) = link(rt, draft) {
            take_back(rt, &drafts[..i]);
            return Err(tell(rt, draft, &error));
        }
    }
    Ok(())
}

// Takes files out of their places.
fn take_back(rt: &HostRuntime, drafts: &[Draft]) {
    for draft in drafts {
        let _ = fs::remove_file(rt, &draft.name);
    }
}

// Gives a file the name of its place too, where nothing stands there. On a disk whose files have one name
// each it is renamed, after a last look.
fn link(rt: &HostRuntime, draft: &Draft) -> io::Result<()> {
    match fs::hard_link(rt, &draft.part, &draft.name) {
        Err(error) if error.kind() != ErrorKind::AlreadyExists => rename_new(rt, draft),
        result => result,
    }
}

// Renames a file, where nothing stands in its place.
fn rename_new(rt: &HostRuntime, draft: &Draft) -> io::Result<()> {
    look(rt, draft, false)?;
    fs::rename(rt, &draft.part, &draft.name)
}

// Removes what was written beside the places of files, where it is still there.
fn remove_parts(rt: &HostRuntime, drafts: &[Draft]) {
    for draft in drafts {
        let _ = fs::remove_file(rt, &draft.part);
    }
}

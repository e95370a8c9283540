//! Writing a file in place, if no new file can take its name.

use crate::save_fault::{SaveFault, fault_of};
use crate::folder::{Failed, Folder};
use crate::former::Former;
use crate::read::{ReadFault, read_file};
use crate::system::{Role, SystemFolder};
use std::fs::{Metadata, OpenFile, OpenOptions};
use std::io::{Seek, SeekFrom, Write};
use std::rt::Files;
use std::{fs, io};

/// Writes to a device, or to a file that is made so.
pub(crate) fn write_device<F: Files>(files: &F, path: &str, text: &[u8]) -> Result<(), SaveFault> {
    let mut file = match fs::create(files, path) {
        Ok(file) => file,
        Err(error) => return Err(fault_of(&error)),
    };
    if file.write_all(text).is_err() {
        return Err(SaveFault::NotWritten);
    }
    // A device or a pipe cannot be flushed.
    let _ = file.sync_all();
    Ok(())
}

/// Gives an open file a text, and flushes it.
fn fill<W: Write + Seek + OpenFile>(file: &mut W, text: &[u8]) -> io::Result<()> {
    file.seek(SeekFrom::Start(0))?;
    file.write_all(text)?;
    file.set_len(text.len() as u64)?;
    file.sync_all()
}

/// Puts at the end of an open file what the new text is longer by, and flushes it: this is what a full disk refuses.
fn make_room<W: Write + Seek + OpenFile>(file: &mut W, old: &[u8], text: &[u8]) -> io::Result<()> {
    let Some(more) = text.get(old.len()..) else {
        return Ok(());
    };
    file.seek(SeekFrom::Start(old.len() as u64))?;
    file.write_all(more)?;
    file.sync_all()
}

/// Gives an open file a new text in the place of the old one. After a failure the file gets its old text back.
fn overwrite<W: Write + Seek + OpenFile>(
    file: &mut W,
    old: &[u8],
    text: &[u8],
) -> Result<(), SaveFault> {
    if make_room(file, old, text).is_err() {
        return match file.set_len(old.len() as u64) {
            Ok(()) => Err(SaveFault::NotWritten),
            Err(_) => Err(SaveFault::Torn),
        };
    }
    if fill(file, text).is_ok() {
        return Ok(());
    }
    match fill(file, old) {
        Ok(()) => Err(SaveFault::NotWritten),
        Err(_) => Err(SaveFault::Torn),
    }
}

/// Makes a copy of a text beside a file, flushed.
fn keep<D: Folder>(folder: &mut D, text: &[u8]) -> Result<(), Failed> {
    folder.create()?;
    folder.write(text)?;
    folder.flush()?;
    folder.flush_names()
}

/// Writes a text to a file in place. A file beside it keeps the old text until that is done, if it can be made.
pub(crate) fn write_in_place<'x, F: Files + AllocGlobal>(
    files: &'x F,
    target: &'x str,
    like: Option<Metadata>,
    text: &[u8],
    former: Former<'x>,
) -> Result<(), SaveFault> {
    let old = match read_file(files, target) {
        Ok(old) => old,
        Err(ReadFault::OutOfMemory) => return Err(SaveFault::OutOfMemory),
        Err(ReadFault::Unreadable) => return Err(SaveFault::NotWritten),
    };
    if !former.has(&old) {
        return Err(SaveFault::Changed);
    }
    let mut file = match OpenOptions::new().write(true).open(files, target) {
        Ok(file) => file,
        Err(error) => return Err(fault_of(&error)),
    };
    let mut copy = SystemFolder::new(files, target, Former::Any, Role::Old, like)?;
    let is_kept = keep(&mut copy, &old).is_ok();
    let written = overwrite(&mut file, &old, text);
    if !is_kept || written != Err(SaveFault::Torn) {
        let _ = copy.remove();
    }
    written
}

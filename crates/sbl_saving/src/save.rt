//! Writing a text to a file of the system: by a new file beside it, or in place if that cannot be.

use crate::save_fault::{SaveFault, fault_of};
use crate::former::Former;
use crate::in_place::{write_device, write_in_place};
use crate::read::is_one;
use crate::replace::{ReplaceFault, replace_file};
use crate::system::{Role, SystemFolder};
use std::fs::{Metadata, OpenOptions};
use std::io::ErrorKind;
use std::os::unix::fs::MetadataExt;
use std::path::PathBuf;
use std::rt::Files;
use std::fs;

/// What a path names.
#[derive(Drop)]
enum Place {
    /// A file, by a path without a link at its end.
    File(PathBuf, Metadata),
    /// An ordinary file that has no path, as one that was removed and is still open.
    Nameless,
    /// Nothing yet.
    New,
    /// A device, a pipe, or a link to a file that is not there.
    Device,
}

/// Returns what a path names.
fn place_of<F: Files + AllocGlobal>(files: &F, path: &str) -> Result<Place, SaveFault> {
    let found = match fs::metadata(files, path) {
        Ok(found) => found,
        Err(error) if error.kind() == ErrorKind::NotFound => {
            return match fs::symlink_metadata(files, path) {
                Ok(_) => Ok(Place::Device),
                Err(_) => Ok(Place::New),
            };
        }
        Err(error) => return Err(fault_of(&error)),
    };
    if !found.is_file() {
        return Ok(Place::Device);
    }
    let real = match fs::canonicalize(files, path) {
        Ok(real) => real,
        Err(error) if error.kind() == ErrorKind::OutOfMemory => return Err(SaveFault::OutOfMemory),
        Err(_) => return Ok(Place::Nameless),
    };
    match fs::metadata(files, real.as_str()) {
        Ok(other) if is_one(&found, &other) => Ok(Place::File(real, found)),
        _ => Ok(Place::Nameless),
    }
}

/// Returns whether a file may be written.
fn may_write<F: Files>(files: &F, path: &str) -> Result<(), SaveFault> {
    match OpenOptions::new().write(true).open(files, path) {
        Ok(_) => Ok(()),
        Err(error) => Err(fault_of(&error)),
    }
}

/// Writes a text to a file that is there. One that has several names is written in place, since the others would keep the old text.
fn save_over<'x, F: Files + AllocGlobal>(
    files: &'x F,
    target: &'x str,
    like: Metadata,
    text: &[u8],
    former: Former<'x>,
) -> Result<(), SaveFault> {
    may_write(files, target)?;
    if like.nlink() > 1 {
        return write_in_place(files, target, Some(like), text, former);
    }
    let mut folder = SystemFolder::new(files, target, former, Role::New, Some(like))?;
    match replace_file(&mut folder, text) {
        Ok(()) => Ok(()),
        Err(ReplaceFault::NotWritten) => Err(SaveFault::NotWritten),
        Err(ReplaceFault::NotSettled) => Err(SaveFault::NotSettled),
        Err(_) => {
            folder.refusal()?;
            write_in_place(files, target, None, text, former)
        }
    }
}

/// Writes a text to a file that is not there yet.
fn save_new<'x, F: Files + AllocGlobal>(
    files: &'x F,
    path: &'x str,
    text: &[u8],
    former: Former<'x>,
) -> Result<(), SaveFault> {
    let mut folder = SystemFolder::new(files, path, former, Role::New, None)?;
    match replace_file(&mut folder, text) {
        Ok(()) => Ok(()),
        Err(ReplaceFault::NotSettled) => Err(SaveFault::NotSettled),
        Err(_) => {
            folder.refusal()?;
            Err(SaveFault::NotWritten)
        }
    }
}

/// Writes a text to a file, which has to have what `former` says. A file that is there gets the text by a new file beside it,
/// which takes its name and has its owner and its permissions; if the path is a link, the file that it points to. If no new file can be
/// made or it cannot take the name, or if the file has several names, it is written in place, and its old text is kept until that is
/// done. A device is only written.
///
/// # Errors
///
/// Returns `Changed` if the file does not have what `former` says, `NotWritten` if it cannot be written, and `OutOfMemory` if memory is
/// refused: then it has its old text. Returns `NotSettled` if it has the new text, but the names of its folder cannot be flushed.
/// Returns `Torn` if it was written in place, that failed, and its old text could not be put back.
pub fn save_file<'x, F: Files + AllocGlobal>(
    files: &'x F,
    path: &'x str,
    text: &[u8],
    former: Former<'x>,
) -> Result<(), SaveFault> {
    if path.is_empty() {
        return Err(SaveFault::NotWritten);
    }
    former.check(files, path)?;
    match place_of(files, path)? {
        Place::File(target, like) => save_over(files, target.as_str(), like, text, former),
        Place::Nameless => write_in_place(files, path, None, text, former),
        Place::New => save_new(files, path, text, former),
        Place::Device => write_device(files, path, text),
    }
}

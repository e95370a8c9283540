//! A folder of the system. Contracts do not know what it has.
ghost use Rattle.std.specs.Prelude.{None};

use crate::folder::{Failed, Folder};
use crate::former::Former;
use crate::save_fault::SaveFault;
use std::alloc::AllocError;
use std::fs::{Metadata, OpenFile, OpenOptions, Permissions};
use std::io::{ErrorKind, Write};
use std::os::unix::fs::{MetadataExt, OpenOptionsExt, PermissionsExt, chown};
use std::rt::Files;
use std::{fs, io};

/// How many names are tried for a file beside another one (our own choice).
const MOST_NAMES: u32 = 10_000;

/// How many bytes of a file's name are in the name of a file beside it (our own choice). The system allows 255 in all.
const MOST_OF_NAME: usize = 200;

/// How many bytes are more in the path of a file beside another one: a slash, its role and its number.
const MOST_OF_END: usize = 16;

/// The permissions that a file has, but for its kind.
const PERMISSIONS: u32 = 0o7777;

/// The last word of the name of a file beside another one, but for its number.
#[derive(Clone, Copy)]
pub(crate) enum Role {
    /// It gets the new text.
    New,
    /// It keeps the old text.
    Old,
}

/// Returns the folder of a path, and the name in it.
pub(crate) fn split(path: &str) -> (&str, &str) {
    match path.rsplit_once('/') {
        Some(("", name)) => ("/", name),
        Some((folder, name)) => (folder, name),
        None => (".", path),
    }
}

/// Returns the first bytes of a name, up to the end of a character.
fn first_of(name: &str) -> &str {
    let mut end = name.len().min(MOST_OF_NAME);
    while end > 0 && !name.is_char_boundary(end) {
        end -= 1;
    }
    name.get(..end).unwrap_or(name)
}

/// Appends a number in decimal digits. Returns `AllocError` if an allocation fails.
fn push_number(text: &mut String, number: u32) -> Result<(), AllocError> {
    for unit in [10_000, 1_000, 100, 10, 1] {
        if number >= unit || unit == 1 {
            text.push(digit_of(number / unit))?;
        }
    }
    Ok(())
}

/// Returns the last decimal digit of a number.
fn digit_of(number: u32) -> char {
    char::from_digit(number % 10, 10).unwrap_or('0')
}

/// A file of the system, and another one beside it.
#[derive(Drop)]
pub(crate) struct SystemFolder<'a, F: Files> {
    files: &'a F,
    target: &'a str,
    former: Former<'a>,
    role: Role,
    like: Option<Metadata>,
    path: String,
    file: Option<F::File>,
    /// Why the new file did not get the name, if the target did not have what it has to have.
    refusal: Result<(), SaveFault>,
}

impl<'a, F: Files + AllocGlobal> SystemFolder<'a, F> {
    /// Returns the folder of a file, which is the target, before the file beside it is made. That one gets the owner and the
    /// permissions of `like`. It takes the name only of a target that has what `former` says.
    /// Returns `AllocError` if an allocation for the name of that file fails.
    pub(crate) fn new(
        files: &'a F,
        target: &'a str,
        former: Former<'a>,
        role: Role,
        like: Option<Metadata>,
    ) -> Result<SystemFolder<'a, F>, AllocError> {
        let (folder, name) = split(target);
        let length = folder
            .len()
            .saturating_add(name.len())
            .saturating_add(MOST_OF_END);
        Ok(SystemFolder {
            files,
            target,
            former,
            role,
            like,
            path: String::with_capacity(files.alloc(), length)?,
            file: None,
            refusal: Ok(()),
        })
    }

    /// Sets the path of the file beside the target, as in `my.sbl.new-1`. There is room for it.
    fn name(&mut self, number: u32) -> Result<(), AllocError> {
        let (folder, name) = split(self.target);
        let role = match self.role {
            Role::New => ".new-",
            Role::Old => ".old-",
        };
        self.path.clear();
        self.path.push_str(folder)?;
        self.path.push_str("/")?;
        self.path.push_str(first_of(name))?;
        self.path.push_str(role)?;
        push_number(&mut self.path, number)
    }

    /// Returns why the new file did not get the name, if the target did not have what it has to have.
    pub(crate) fn refusal(&self) -> Result<(), SaveFault> {
        self.refusal
    }

    /// Makes a file beside the target under a name that no file has. Only its owner may read a copy of the old text, and a file that
    /// is to get the permissions of another one.
    fn open_new(&mut self) -> io::Result<F::File> {
        let mut options = OpenOptions::new();
        options.write(true).create_new(true);
        if self.like.is_some() || matches!(self.role, Role::Old) {
            options.mode(0o600);
        }
        for number in 1..MOST_NAMES {
            self.name(number)?;
            match options.open(self.files, self.path.as_str()) {
                Err(error) if error.kind() == ErrorKind::AlreadyExists => {}
                opened => return opened,
            }
        }
        Err(io::Error::from(ErrorKind::AlreadyExists))
    }

    /// Gives the file beside the target the owner and the permissions of the target.
    fn make_alike(&self, file: &F::File) -> io::Result<()> {
        let Some(like) = &self.like else {
            return Ok(());
        };
        let made = file.metadata()?;
        if made.uid() != like.uid() || made.gid() != like.gid() {
            chown(
                self.files,
                self.path.as_str(),
                Some(like.uid()),
                Some(like.gid()),
            )?;
        }
        file.set_permissions(Permissions::from_mode(like.mode() & PERMISSIONS))
    }
}

/// Returns the result of a step without its reason.
fn step(done: io::Result<()>) -> Result<(), Failed> {
    match done {
        Ok(()) => Ok(()),
        Err(_) => Err(Failed),
    }
}

/// Flushes the names of a folder, if the system can do so.
fn flush_folder<F: Files>(files: &F, folder: &str) -> io::Result<()> {
    let opened = match fs::open(files, folder) {
        Ok(opened) => opened,
        Err(error) if error.kind() == ErrorKind::PermissionDenied => return Ok(()),
        Err(error) => return Err(error),
    };
    match opened.sync_all() {
        Err(error)
            if error.kind() == ErrorKind::InvalidInput || error.kind() == ErrorKind::Unsupported =>
            Ok(()),
        flushed => flushed,
    }
}

impl<F: Files + AllocGlobal> Folder for SystemFolder<'_, F> {
    ghost view = { λ f. None };

    fn create(&mut self) -> Result<(), Failed> {
        let Ok(file) = self.open_new() else {
            return Err(Failed);
        };
        if self.make_alike(&file).is_err() {
            let _ = fs::remove_file(self.files, self.path.as_str());
            return Err(Failed);
        }
        self.file = Some(file);
        Ok(())
    }

    fn write(&mut self, bytes: &[u8]) -> Result<(), Failed> {
        match &mut self.file {
            Some(file) => step(file.write_all(bytes)),
            None => Err(Failed),
        }
    }

    fn flush(&mut self) -> Result<(), Failed> {
        match &self.file {
            Some(file) => step(file.sync_all()),
            None => Err(Failed),
        }
    }

    fn rename(&mut self) -> Result<(), Failed> {
        self.refusal = self.former.check(self.files, self.target);
        if self.refusal.is_err() {
            return Err(Failed);
        }
        step(fs::rename(self.files, self.path.as_str(), self.target))
    }

    fn flush_names(&mut self) -> Result<(), Failed> {
        let (folder, _) = split(self.target);
        step(flush_folder(self.files, folder))
    }

    fn remove(&mut self) -> Result<(), Failed> {
        if self.file.is_none() {
            // The file of that name is not ours.
            return Err(Failed);
        }
        step(fs::remove_file(self.files, self.path.as_str()))
    }
}

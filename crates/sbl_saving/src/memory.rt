//! A folder in memory, for tests: one of its steps fails. It knows what it has, so its contracts say it.
ghost use Rattle.std.specs.Prelude.{◌≡◌, [], ◌∷◌, Err, IfOk, OnErr, OnOk, Some};
ghost use Rattle.sbl_saving.specs.Folders.{after_failed, after_no_draft, after_no_remove, folder_with, found_of};
ghost use Rattle.sbl_saving.specs.Memory.{view_file, view_find, view_memory};

use crate::folder::{Failed, Folder, SaveStep};
use std::alloc::{AllocError, Global};

/// What may be found at the target after a stop.
#[derive(Debug, PartialEq, Eq, Drop)]
pub enum Find {
    /// These bytes, or no file.
    Exactly(Option<Vec<u8>>),
    /// Anything, since the bytes were not flushed.
    Anything,
}

/// A folder in memory. The step with a given number, counted from 0, fails.
#[derive(Drop)]
pub struct MemoryFolder {
    alloc: Global,
    /// The bytes of the target.
    pub target: Option<Vec<u8>>,
    /// The bytes of the new file.
    pub draft: Option<Vec<u8>>,
    /// Whether the bytes of the new file are on the disk.
    pub is_flushed: bool,
    /// What may be found at the target if the machine stops now.
    pub finds_now: Vec<Find>,
    /// What might have been found there until now.
    pub finds_ever: Vec<Find>,
    /// The step that failed first, since the new file was last to be made.
    pub failed: Option<SaveStep>,
    /// Whether the new file could not be removed, since then.
    pub is_left: bool,
    fails_at: u32,
    steps: u32,
}

/// Returns a copy of the bytes of a file. Returns `AllocError` if an allocation fails.
fn copy_of(alloc: Global, file: &Option<Vec<u8>>) -> Result<Option<Vec<u8>>, AllocError>
    ensures { IfOk result (λ copy. view_file copy ≡ view_file file.now) }
{
    match file {
        Some(bytes) => Ok(Some(bytes.to_vec(alloc)?)),
        None => Ok(None),
    }
}

/// Returns a list of one. Returns `AllocError` if an allocation fails.
fn only(alloc: Global, find: Find) -> Result<Vec<Find>, AllocError>
    ensures { IfOk result (λ list. list.items ≡ find ∷ []) }
{
    let mut list = Vec::new(alloc);
    list.push(find)?;
    Ok(list)
}

impl MemoryFolder {
    /// Returns a folder whose target has these bytes, on the disk, and without a new file. Returns `AllocError` if an allocation fails.
    pub fn new(
        alloc: Global,
        target: Option<Vec<u8>>,
        fails_at: u32,
    ) -> Result<MemoryFolder, AllocError>
        ensures { IfOk result (λ m. view_memory m ≡ folder_with (view_file target)) }
    {
        let now = only(alloc, Find::Exactly(copy_of(alloc, &target)?))?;
        let ever = only(alloc, Find::Exactly(copy_of(alloc, &target)?))?;
        Ok(MemoryFolder {
            alloc,
            target,
            draft: None,
            is_flushed: false,
            finds_now: now,
            finds_ever: ever,
            failed: None,
            is_left: false,
            fails_at,
            steps: 0,
        })
    }

    /// Counts a step. Returns whether it is the one that is to fail.
    fn is_failing(&mut self) -> bool
        ensures { view_memory self.new ≡ view_memory self.old }
    {
        let is_failing = self.steps == self.fails_at;
        self.steps = self.steps.saturating_add(1);
        is_failing
    }

    /// Keeps that a step failed.
    fn fail(&mut self, step: SaveStep) -> Failed
        ensures { view_memory self.new ≡ after_failed step (view_memory self.old) }
    {
        if self.failed.is_none() {
            self.failed = Some(step);
        }
        Failed
    }

    /// Returns what may be found at the name of the new file.
    fn outcome(&self) -> Result<Find, AllocError>
        ensures { IfOk result (λ find. view_find find ≡ found_of (view_memory self.now)) }
    {
        if self.is_flushed {
            Ok(Find::Exactly(copy_of(self.alloc, &self.draft)?))
        } else {
            Ok(Find::Anything)
        }
    }
}

impl Folder for MemoryFolder {
    ghost view = { λ m. Some (view_memory m) };

    fn create(&mut self) -> Result<(), Failed> {
        self.is_left = false;
        if self.is_failing() {
            self.failed = Some(SaveStep::Create);
            return Err(Failed);
        }
        self.failed = None;
        self.draft = Some(Vec::new(self.alloc));
        self.is_flushed = false;
        Ok(())
    }

    fn write(&mut self, bytes: &[u8]) -> Result<(), Failed> {
        let is_failing = self.is_failing();
        self.is_flushed = false;
        let Some(draft) = &mut self.draft else {
            return Err(self.fail(SaveStep::Write));
        };
        if is_failing {
            let _ = draft.extend_from_slice(&bytes[..bytes.len() / 2]);
            return Err(self.fail(SaveStep::Write));
        }
        match draft.extend_from_slice(bytes) {
            Ok(()) => Ok(()),
            Err(_) => Err(self.fail(SaveStep::Write)),
        }
    }

    fn flush(&mut self) -> Result<(), Failed> {
        if self.is_failing() {
            return Err(self.fail(SaveStep::Flush));
        }
        self.is_flushed = true;
        Ok(())
    }

    fn rename(&mut self) -> Result<(), Failed> {
        if self.is_failing() {
            return Err(self.fail(SaveStep::Rename));
        }
        let Ok(now) = self.outcome() else {
            return Err(self.fail(SaveStep::Rename));
        };
        let Ok(ever) = self.outcome() else {
            return Err(self.fail(SaveStep::Rename));
        };
        if self.finds_now.reserve(1).is_err() || self.finds_ever.push(ever).is_err() {
            return Err(self.fail(SaveStep::Rename));
        }
        let _ = self.finds_now.push(now);
        self.target = self.draft.take();
        Ok(())
    }

    fn flush_names(&mut self) -> Result<(), Failed> {
        if self.is_failing() {
            return Err(self.fail(SaveStep::FlushNames));
        }
        let Ok(target) = copy_of(self.alloc, &self.target) else {
            return Err(self.fail(SaveStep::FlushNames));
        };
        let Ok(now) = only(self.alloc, Find::Exactly(target)) else {
            return Err(self.fail(SaveStep::FlushNames));
        };
        self.finds_now = now;
        Ok(())
    }

    fn remove(&mut self) -> Result<(), Failed> {
        if self.is_failing() {
            self.is_left = true;
            return Err(Failed);
        }
        self.draft = None;
        Ok(())
    }
}

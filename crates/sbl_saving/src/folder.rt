//! A folder, as a file in it is replaced: one step after another, each of which may fail.
ghost use Rattle.std.specs.Prelude.{◌≡◌, Option, OnErr, OnOk};
ghost use Rattle.std.specs.Option.{option_map};
ghost use Rattle.sbl_saving.specs.Folders as spec;
ghost use Rattle.sbl_saving.specs.Folders.{after_failed, after_flush, after_flush_of_names, after_no_draft, after_no_remove, after_rename};
ghost use Rattle.sbl_saving.specs.Folders.{with_bytes, with_draft, without_draft};
ghost use Rattle.sbl_saving.specs.Replacing.{HasPart};
ghost use Rattle.sbl_saving.specs.declared.folder.SaveStep.TheVariants as step;

/// A step was not done.
#[derive(Clone, Copy, Debug, PartialEq, Eq)]
pub struct Failed;

/// A step before the new file is in the place of the target for good.
#[derive(Clone, Copy, Debug, PartialEq, Eq)]
pub enum SaveStep {
    /// The new file is made.
    Create,
    /// Bytes are put into it.
    Write,
    /// Its bytes are flushed to the disk.
    Flush,
    /// It takes the name of the target.
    Rename,
    /// The names of the folder are flushed to the disk.
    FlushNames,
}

/// A folder with a file that is to be replaced, the target, and a new file beside it.
pub trait Folder {
    /// What is in the folder, and what may be found there after a stop; `None` if that is not known.
    ghost view: { Self → Option spec.Folder };

    /// Makes the new file.
    fn create(&mut self) -> Result<(), Failed>
        ensures made { OnOk result (view self.new ≡ option_map with_draft (view self.old)) }
        ensures not_made { OnErr result (view self.new ≡ option_map after_no_draft (view self.old)) };

    /// Puts bytes at the end of the new file. After a failure it has some bytes.
    fn write(&mut self, bytes: &[u8]) -> Result<(), Failed>
        ensures written { OnOk result (view self.new ≡ option_map (with_bytes bytes.now) (view self.old)) }
        ensures part { OnErr result (HasPart step.Write (view self.old) (view self.new)) };

    /// Flushes the bytes of the new file to the disk.
    fn flush(&mut self) -> Result<(), Failed>
        ensures flushed { OnOk result (view self.new ≡ option_map after_flush (view self.old)) }
        ensures not_flushed { OnErr result (view self.new ≡ option_map (after_failed step.Flush) (view self.old)) };

    /// Gives the new file the name of the target, whose bytes are gone then.
    fn rename(&mut self) -> Result<(), Failed>
        ensures renamed { OnOk result (view self.new ≡ option_map after_rename (view self.old)) }
        ensures not_renamed { OnErr result (view self.new ≡ option_map (after_failed step.Rename) (view self.old)) };

    /// Flushes the names of the folder to the disk.
    fn flush_names(&mut self) -> Result<(), Failed>
        ensures settled { OnOk result (view self.new ≡ option_map after_flush_of_names (view self.old)) }
        ensures not_settled { OnErr result (view self.new ≡ option_map (after_failed step.FlushNames) (view self.old)) };

    /// Removes the new file.
    fn remove(&mut self) -> Result<(), Failed>
        ensures removed { OnOk result (view self.new ≡ option_map without_draft (view self.old)) }
        ensures not_removed { OnErr result (view self.new ≡ option_map after_no_remove (view self.old)) };
}

//! A file gets a new text: all of it, or it keeps the old one.
ghost use Rattle.std.specs.Prelude.{◌≡◌, ◌⊎◌, OnErr, OnOk};
ghost use Rattle.std.specs.Option.{option_map};
ghost use Rattle.sbl_saving.specs.Folders.{after_flush, with_bytes};
ghost use Rattle.sbl_saving.specs.Replacing.{HasPart, IsReplaced};
ghost use Rattle.sbl_saving.specs.declared.folder.SaveStep.TheVariants as step;

use crate::folder::{Failed, Folder};

/// Why a file was not replaced.
#[derive(Clone, Copy, Debug, PartialEq, Eq)]
pub enum ReplaceFault {
    /// No new file could be made beside it.
    NotMade,
    /// The new text could not be written or flushed.
    NotWritten,
    /// The new file could not take the name.
    NotNamed,
    /// The file has the new text, but the names of the folder could not be flushed.
    NotSettled,
}

/// Writes the text into the new file, and flushes it.
fn fill<D: Folder>(folder: &mut D, text: &[u8]) -> Result<(), Failed>
    ensures filled { OnOk result (D.view folder.new ≡ option_map (λ f. after_flush (with_bytes text.now f)) (D.view folder.old)) }
    ensures part { OnErr result (HasPart step.Write (D.view folder.old) (D.view folder.new) ⊎ HasPart step.Flush (D.view folder.old) (D.view folder.new)) }
{
    folder.write(text)?;
    folder.flush()
}

/// Replaces the target by a text: a new file gets all of it, is flushed, and takes the name of the target, and then the names are
/// flushed. So at each moment the target has its old text or the new one, also if the program or the machine stops there.
///
/// # Errors
///
/// Returns `NotMade`, `NotWritten` or `NotNamed` if that step fails: then the target has its old text, and the new file is removed
/// if that can be done. Returns `NotSettled` if the names cannot be flushed: then the target has the new text, but after a stop of
/// the machine it may have the old one again.
pub fn replace_file<D: Folder>(folder: &mut D, text: &[u8]) -> Result<(), ReplaceFault>
    ensures { IsReplaced text.now result (D.view folder.old) (D.view folder.new) }
{
    if folder.create().is_err() {
        return Err(ReplaceFault::NotMade);
    }
    if fill(folder, text).is_err() {
        let _ = folder.remove();
        return Err(ReplaceFault::NotWritten);
    }
    if folder.rename().is_err() {
        let _ = folder.remove();
        return Err(ReplaceFault::NotNamed);
    }
    if folder.flush_names().is_err() {
        return Err(ReplaceFault::NotSettled);
    }
    Ok(())
}

//! A file that replaces the whole script.
ghost use Rattle.std.specs.Prelude.{ℕ, List, Option, Some};
ghost use Rattle.sbl_bench.specs.KeptRuns.{contents_of};
ghost use Rattle.sbl_history.specs.Desks.{state_of};
ghost use Rattle.sbl_work.specs.Commands as spec;
ghost use Rattle.sbl_work.specs.ReplyViews.{IsWorkAnswer};

use crate::answers::{reload, replace_by_bytes};
use crate::folder::Folder;
use crate::observing::{Attempt, Origin};
use crate::replies::edit_reply;
use crate::stopping::StopFile;
use sbl_bench::{Bench, BreakOff, EditFault};
use sbl_history::Desk;
use sbl_saving::{ReadFault, is_same_file, read_file};
use sbl_sessions::Reply;
use std::rt::Files;

/// Replaces the whole script by the bytes of a file, and returns the reply.
fn replace_by_text<B: BreakOff>(
    attempt: Attempt<'_>,
    desk: &mut Desk,
    bench: &mut Bench,
    bytes: &[u8],
    break_off: &mut B,
) -> Reply
    ensures { IsWorkAnswer (contents_of bench.old) (state_of desk.old) (spec.with_file spec.EditWhole (Some bytes.now)) result (contents_of bench.new) (state_of desk.new) }
{
    let answer = replace_by_bytes(attempt.alloc, desk, bench, bytes, break_off);
    attempt.note(bytes, answer);
    edit_reply(answer)
}

/// Reads a file that replaces the whole script, and returns the reply. If it is the file of the script, by whatever name, `folder.seen`
/// has its bytes then.
pub(crate) fn replace_by_file<F: Files + AllocGlobal>(
    folder: &mut Folder<'_, F>,
    desk: &mut Desk,
    bench: &mut Bench,
    path: &str,
) -> Reply
    ensures { (file : Option (List ℕ)) × IsWorkAnswer (contents_of bench.old) (state_of desk.old) (spec.with_file spec.EditWhole file) result (contents_of bench.new) (state_of desk.new) }
{
    let files = folder.files;
    let paths = folder.paths;
    let mut stop = StopFile::new(files, paths);
    match read_file(files, path) {
        Ok(bytes) => {
            let attempt = Attempt {
                alloc: files.alloc(),
                origin: Origin::File(path),
                refused: &mut folder.refused,
            };
            let reply = replace_by_text(attempt, desk, bench, &bytes, &mut stop);
            if is_same_file(files, path, paths.script.as_str()) {
                folder.seen = bytes;
            }
            reply
        }
        Err(ReadFault::Unreadable) => reload(files.alloc(), desk, bench, None, &mut stop),
        Err(ReadFault::OutOfMemory) => edit_reply(Err(EditFault::OutOfMemory)),
    }
}

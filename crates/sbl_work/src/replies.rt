//! The replies of work that a session does not have.
ghost use Rattle.std.specs.Prelude.{None, OnErr, OnOk, Some};
ghost use Rattle.sbl_sessions.specs.Answers.{edit_text};
ghost use Rattle.sbl_sessions.specs.CommandViews.{IsReply};
ghost use Rattle.sbl_sessions.specs.EditFaults.{fault_in};
ghost use Rattle.sbl_work.specs.Replies as spec;

use sbl_bench::EditFault;
use sbl_history::HistoryFault;
use sbl_sessions::{Reply, edit_text};
use std::alloc::AllocError;

/// The reply to `undo` if there is no edit to undo.
const NOTHING_TO_UNDO: &str = "no 54 NothingToUndo\n";

/// The reply to `redo` if there is no edit to redo.
const NOTHING_TO_REDO: &str = "no 55 NothingToRedo\n";

/// The reply to `largest` if its argument is not a number above 0.
pub(crate) const BAD_NUMBER: &str = "no 56 BadNumber\n";

/// The reply if a file cannot be read or written.
pub(crate) const NO_FILE: &str = "no 57 NoFile\n";

/// The reply to `uses` if the among has no such string.
pub(crate) const NO_STRING: &str = "no 58 NoString\n";

/// The reply to `stem` if no word has the stem.
pub(crate) const NO_CLASS: &str = "no 59 NoClass\n";

/// The reply to `approve` if a run is refused, or a stem is not one line.
pub(crate) const REFUSED: &str = "no 67 Refused\n";

/// The reply to `append` if the file has each word that was added.
pub(crate) const NOTHING_TO_APPEND: &str = "no 69 NothingToAppend\n";

/// The reply to `mark` if the file has not one line for each word.
pub(crate) const LENGTHS_DIFFER: &str = "no 74 LengthsDiffer\n";

/// The reply if the bytes of families, or of stems, are not UTF-8.
pub(crate) const NOT_TEXT: &str = "no 75 NotText\n";

/// Returns the reply to an edit.
pub(crate) fn edit_reply(answer: Result<(), EditFault>) -> Reply
    ensures { IsReply result (edit_text (fault_in answer)) }
{
    Reply::Fixed(edit_text(answer))
}

/// Returns the reply to a command that fails only if an allocation does.
pub(crate) fn memory_reply(answer: Result<(), AllocError>) -> Reply
    ensures done { OnOk answer (IsReply result (edit_text None)) }
    ensures refused { OnErr answer (IsReply result (edit_text (Some EditFault.OutOfMemory))) }
{
    match answer {
        Ok(()) => edit_reply(Ok(())),
        Err(_) => edit_reply(Err(EditFault::OutOfMemory)),
    }
}

/// Returns the reply to what undoes or redoes an edit; the text is that for no such edit.
fn turn_reply(answer: Result<(), HistoryFault>, nothing: &'static str) -> Reply
    ensures { IsReply result (spec.turn_text nothing.now answer) }
{
    match answer {
        Ok(()) => edit_reply(Ok(())),
        Err(HistoryFault::Nothing) => Reply::Fixed(nothing),
        Err(HistoryFault::Edit(fault)) => edit_reply(Err(fault)),
    }
}

/// Returns the reply to `undo`.
pub(crate) fn undo_reply(answer: Result<(), HistoryFault>) -> Reply
    ensures { IsReply result (spec.undo_text answer) }
{
    turn_reply(answer, NOTHING_TO_UNDO)
}

/// Returns the reply to `redo`.
pub(crate) fn redo_reply(answer: Result<(), HistoryFault>) -> Reply
    ensures { IsReply result (spec.redo_text answer) }
{
    turn_reply(answer, NOTHING_TO_REDO)
}

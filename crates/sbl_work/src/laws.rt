//! The law that no edit is broken off unless `--stop` names a file.

ghost use Rattle.sbl_work.specs.BreakLaws.{MayBreakStays, PartsAreEdited, RedoingIsEditing, SessionsReply, UndoingIsEditing, WholeScriptsAreEdited, WordsAreEdited, WorkBeginsUnbroken};

/// If `--stop` names no file, edits cannot be broken off at the start, no request changes that, and each edit has the reply of an edit of
/// the bench.
pub fn nothing_breaks_without_stop()
    ensures stays { MayBreakStays }
    ensures whole { WholeScriptsAreEdited }
    ensures part { PartsAreEdited }
    ensures undo { UndoingIsEditing }
    ensures redo { RedoingIsEditing }
    ensures words { WordsAreEdited }
    ensures session { SessionsReply }
    ensures start { WorkBeginsUnbroken }
{}

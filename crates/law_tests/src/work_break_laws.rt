//! Laws of sbl_work (specs/BreakLaws.antt), written out.

ghost use Rattle.law_tests.specs.WorkBreaks.{BeginsUnbroken, PartIsEdited, RedoIsAnEdit, SessionReplies, StaysAllowed, UndoIsAnEdit, WholeIsEdited, WordsAreAnEdit};

use sbl_work::laws::nothing_breaks_without_stop;

/// Needs the whole of the law `nothing_breaks_without_stop`.
pub fn needs_nothing_breaks_without_stop()
    ensures stays { StaysAllowed }
    ensures whole { WholeIsEdited }
    ensures part { PartIsEdited }
    ensures undo { UndoIsAnEdit }
    ensures redo { RedoIsAnEdit }
    ensures words { WordsAreAnEdit }
    ensures session { SessionReplies }
    ensures start { BeginsUnbroken }
{
    nothing_breaks_without_stop();
}

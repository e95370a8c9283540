//! Laws of the edits and the words.

ghost use Rattle.std.specs.Prelude.{All};
ghost use Rattle.sbl_bench.specs.BreakLaws.{BrokenEditShowsTheOld, OnlyGoodEditsBreak, PlainEditsEnd};
ghost use Rattle.sbl_bench.specs.KeptRuns.{IsWord};
ghost use Rattle.sbl_bench.specs.EqualScripts.{EqualScriptRunsNothing};
ghost use Rattle.sbl_bench.specs.OneVerdict.{VerdictIsOne};
ghost use Rattle.sbl_bench.specs.Undo.{UndoOfLimit, UndoOfScript};

use crate::bench::Bench;
use sbl_machine::laws::only_items_differ;
use sbl_script::laws::{one_edit, one_reading};

/// Each edit has one verdict, and one bench after it: unless an allocation fails, the result of an edit is a function of the
/// bench and the edit.
pub fn one_verdict()
    ensures { VerdictIsOne }
{
    one_edit();
    one_reading();
}

/// If a whole script is the one in force, whatever its layout and comments, it runs no word and changes nothing.
pub fn equal_scripts_run_nothing()
    ensures { EqualScriptRunsNothing }
{
    only_items_differ();
}

/// If bytes that are read as the script before an edit replace the whole script, or the limit before is set again, the rows, classes and traces are those of
/// that script and limit over the current words, however many words were added and removed in between.
pub fn undo_restores()
    ensures script { UndoOfScript }
    ensures limit { UndoOfLimit }
{}

/// An edit that nobody can break off is not broken off. An edit that was broken off is one that would have been accepted, and after
/// it the bench shows what it showed before.
pub fn broken_off_changes_nothing()
    ensures plain { PlainEditsEnd }
    ensures good { OnlyGoodEditsBreak }
    ensures shows { BrokenEditShowsTheOld }
{
    one_edit();
    one_reading();
}

/// Each word of a vocabulary has 1 to 255 characters. So the first 256 characters of a text determine whether it is one of the
/// words.
pub fn words_fit(bench: &Bench)
    ensures { All IsWord bench.now.words }
{
    let _words = &bench.traces;
}

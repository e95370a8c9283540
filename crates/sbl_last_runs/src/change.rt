//! The runs that an edit exchanges. No allocation is made.

ghost use Rattle.std.specs.Prelude.{◌≡◌, IsSome, Some, All, false, map, if◌then◌else◌};
ghost use Rattle.std.specs.Str.{bytes_eq};
ghost use Rattle.sbl_rows.specs.Setting.{Setting};
ghost use Rattle.sbl_last_runs.specs.RunChanges.{AreAnew, is_changed};
ghost use Rattle.sbl_last_runs.specs.KeptEntries.{AreFresh, words_in};
ghost use Rattle.sbl_last_runs.specs.Last.{last_changes, rows_between, word_found, word_run, AreApart, AreThere, Follows};
ghost use Rattle.sbl_last_runs.specs.Pairs.{IsUnique, Text, find, keys, same_text};

use crate::last_run::LastRun;
use crate::traces::Traces;
use std::mem::swap;

/// A word that an edit affects, and its new run.
#[derive(Drop)]
pub struct RunChange {
    pub word: Vec<char>,
    pub traced: LastRun,
}

/// Exchanges the run of a word of the vocabulary and the run of its change. Does not allocate.
fn commit_one(traces: &mut Traces, change: &mut RunChange)
    requires { IsSome (find change.old.word.items traces.old.entries) }
    ensures finds { (w : Text) → find w.items traces.new.entries ≡ (if bytes_eq change.old.word.items w.items then Some change.old.traced else find w.items traces.old.entries) }
    ensures before { word_run change.new ≡ word_found traces.old.entries change.old }
    ensures keys { keys traces.new ≡ keys traces.old }
{
    if let Some(slot) = traces.get_mut(change.word.as_slice()) {
        swap(slot, &mut change.traced);
    }
}

/// Exchanges the run of each word of the changes and the run of its change. Does not allocate.
fn commit(traces: &mut Traces, changes: &mut [RunChange])
    requires there { AreThere traces.old.entries changes.old }
    requires apart { AreApart changes.old }
    ensures run { All (λ c. find c.word.items traces.new.entries ≡ Some c.traced) changes.old }
    ensures others { (w : Text) → is_changed changes.old w.items ≡ false → find w.items traces.new.entries ≡ find w.items traces.old.entries }
    ensures before { map word_run changes.new ≡ map (word_found traces.old.entries) changes.old }
    ensures keys { keys traces.new ≡ keys traces.old }
{
    for change in changes.iter_mut() {
        commit_one(traces, change);
    }
}

/// Applies the changes of an edit, and returns them with the runs before. Does not allocate.
pub fn make_changes(traces: &mut Traces, changes: Vec<RunChange>) -> Vec<RunChange>
    requires changes { (t : Setting) × AreAnew t traces.old.entries changes.items }
    requires apart { AreApart changes.items }
    requires unique { IsUnique same_text traces.old }
    ensures fresh { (t : Setting) → AreAnew t traces.old.entries changes.items → AreFresh t traces.new.entries }
    ensures words { words_in traces.new.entries ≡ words_in traces.old.entries }
    ensures follows { Follows traces.old.entries result.items traces.new.entries }
    ensures last { (s t : Setting) → AreFresh s traces.old.entries → AreAnew t traces.old.entries changes.items → last_changes traces.new.entries result.items ≡ rows_between s t changes.items }
{
    let mut changes = changes;
    commit(traces, changes.as_mut_slice());
    changes
}

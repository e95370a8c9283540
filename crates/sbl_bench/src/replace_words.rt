//! Replacing the vocabulary by a list of words.

ghost use Rattle.std.specs.Prelude.{◌≡◌, ◌≤◌, ◌<◌, ◌+◌, ◌-◌, ◌^◌, ◌++◌, ◌∷◌, ◌&&◌, ◌||◌, ℕ, List, [], false, if◌then◌else◌, length, map, not, None, All, OnOk, OnErr, IfOk, IfErr};
ghost use Rattle.std.specs.List.{IsDistinct, filter};
ghost use Rattle.std.specs.Str.{bytes_eq};
ghost use Rattle.sbl_ast.specs.Source.{Source};
ghost use Rattle.sbl_machine.specs.MachineOf.{IsLinkedMachineOf};
ghost use Rattle.sbl_bench.specs.BreakingOff.{BreaksIfTold};
ghost use Rattle.sbl_bench.specs.Contents.{IsFaultOrMemory, max_runs, opening_fault, word_fault};
ghost use Rattle.sbl_bench.specs.KeptRuns.{IsWord};
ghost use Rattle.sbl_last_runs.specs.KeptEntries.{AreFresh, IsFresh, words_in};
ghost use Rattle.sbl_bench.specs.Vocabulary.{is_word, vocabulary, with_word};
ghost use Rattle.sbl_bench.specs.inside.ProofNames.{is_full};
ghost use Rattle.sbl_bench.specs.inside.Stops.{IsCut, IsStopOf};
ghost use Rattle.sbl_bench.specs.inside.WordLists.{new_words, runs_of_word};
ghost use Rattle.sbl_rows.specs.Classes.{texts_of};
ghost use Rattle.sbl_rows.specs.KnownOutcomes.{has_text};
ghost use Rattle.sbl_rows.specs.Setting.{Setting, under};

use crate::bench::{Bench, MAX_WORDS};
use crate::break_off::{BreakOff, NeverBreak};
use crate::fault::EditFault;
use crate::fresh_run::run_or_break;
use crate::refusal::word_fault;
use crate::traces::has_word;
use indexmap::IndexMap;
use sbl_last_runs::{LastRun, SharedLists, Traces};
use sbl_machine::{Machine, Meter, Table};
use std::alloc::{AllocError, Global};
use std::collections::BTreeSet;

impl Bench {
    ghost use Rattle.sbl_bench.specs.BreakingOff.{EditsOrBreaks};
    ghost use Rattle.sbl_bench.specs.KeptRuns.{contents_of};
    ghost use Rattle.sbl_bench.specs.Edits.{Edits, Words};
    ghost use Rattle.sbl_bench.specs.LeavesChanges.{LeavesChanges};

    /// Replaces the vocabulary by that of a list of words: the words are taken in order, and empty words and repeats are skipped. A word
    /// that is in both keeps its run, and each new one is run once.
    ///
    /// # Errors
    ///
    /// Returns `WordTooLong` at a word of more than 255 characters, even if it is a repeat, and `Full` at a new word after 100,000
    /// others, whichever comes first. Then returns `MeterFull` if fewer counts of runs are left than there are new words. If an
    /// allocation fails, may return `OutOfMemory` instead of any result. After an error, the script, limit, vocabulary, rows and
    /// classes are unchanged. The count of runs is unchanged too, except that after `OutOfMemory` it may be higher by at most the
    /// number of new words, if the edit would have been accepted. (Our own choice.)
    pub fn replace_words(&mut self, words: &[Vec<char>]) -> Result<(), EditFault>
        ensures edits { Edits result (contents_of self.old) (Words (map (λ w. w.items) words.now)) (contents_of self.new) }
        ensures changes { LeavesChanges result self.old self.new }
    {
        self.replace_words_or_break(words, &mut NeverBreak {})
    }

    /// Does what `replace_words` does, or is broken off.
    ///
    /// # Errors
    ///
    /// As `replace_words`, and returns `BrokenOff` if `break_off` says so before a run. Then all is as before but for the count of
    /// runs, which has risen by the runs that were made.
    pub fn replace_words_or_break<B: BreakOff>(
        &mut self,
        words: &[Vec<char>],
        break_off: &mut B,
    ) -> Result<(), EditFault>
        ensures edits { EditsOrBreaks result (contents_of self.old) (Words (map (λ w. w.items) words.now)) (contents_of self.new) }
        ensures changes { LeavesChanges result self.old self.new }
        ensures untold { OnOk result (B.said break_off.new ≡ B.said break_off.old) }
        ensures told { IfErr result (λ f. BreaksIfTold (B.said break_off.old) (B.said break_off.new) f) }
    {
        let list = vocabulary_of(self.alloc, words)?;
        let traces = runs_of(
            self.alloc,
            &self.machine,
            self.limit,
            &mut self.meter,
            &self.traces,
            &list,
            break_off,
        )?;
        self.traces = traces;
        self.last = Vec::new(self.alloc);
        self.pairs = None;
        Ok(())
    }
}

/// Returns whether the list is full and the word is new to it.
fn has_no_room(list: &[&[char]], is_new: bool) -> bool
    ensures { result ≡ (is_full (texts_of list.now) && is_new) }
{
    list.len() >= MAX_WORDS && is_new
}

/// Appends a new word. Returns `AllocError` if an allocation fails.
fn put_listed<'a>(
    seen: &mut BTreeSet<&'a [char]>,
    list: &mut Vec<&'a [char]>,
    word: &'a [char],
) -> Result<(), AllocError>
    ensures seen { OnOk result ((q : List ℕ) → has_text seen.new q ≡ (bytes_eq word.now q || has_text seen.old q)) }
    ensures words { OnOk result (texts_of list.new.items ≡ texts_of list.old.items ++ word.now ∷ []) }
{
    seen.insert(word)?;
    list.push(word)?;
    Ok(())
}

/// Takes one word of a list, after the vocabulary of those before it; `seen` has the words of that. Skips the word if it is empty or a
/// repeat. Returns `WordTooLong`, `Full` or `OutOfMemory` as `Bench::replace_words` does.
fn take_listed<'a>(
    seen: &mut BTreeSet<&'a [char]>,
    list: &mut Vec<&'a [char]>,
    word: &'a [char],
) -> Result<(), EditFault>
    requires { (q : List ℕ) → has_text seen.old q ≡ is_word q (texts_of list.old.items) }
    ensures seen { OnOk result ((q : List ℕ) → has_text seen.new q ≡ is_word q (texts_of list.new.items)) }
    ensures words { OnOk result (texts_of list.new.items ≡ with_word (texts_of list.old.items) word.now) }
    ensures ok { OnOk result (word_fault (texts_of list.old.items) word.now ≡ None) }
    ensures fault { IfErr result (λ f. IsFaultOrMemory (word_fault (texts_of list.old.items) word.now) f) }
{
    let is_new = !seen.contains(word);
    if let Some(fault) = word_fault(word, has_no_room(list.as_slice(), is_new)) {
        return Err(fault);
    }
    if word.is_empty() || !is_new {
        return Ok(());
    }
    put_listed(seen, list, word)?;
    Ok(())
}

/// Returns the vocabulary of a list of words, or the fault of the first word that has one. Returns `OutOfMemory` if an allocation fails.
fn vocabulary_of<'a>(alloc: Global, words: &'a [Vec<char>]) -> Result<Vec<&'a [char]>, EditFault>
    ensures words { IfOk result (λ list. texts_of list.items ≡ vocabulary (map (λ w. w.items) words.now)) }
    ensures ok { OnOk result (opening_fault [] (map (λ w. w.items) words.now) ≡ None) }
    ensures fault { IfErr result (λ f. IsFaultOrMemory (opening_fault [] (map (λ w. w.items) words.now)) f) }
{
    let mut seen = BTreeSet::new(alloc);
    let mut list = Vec::new(alloc);
    for word in words {
        take_listed(&mut seen, &mut list, word.as_slice())?;
    }
    Ok(list)
}

/// Returns how many of the words are not in the vocabulary. Does not allocate.
fn count_new(traces: &Traces, words: &[&[char]]) -> usize
    ensures { result ≡ length (new_words (words_in traces.now.entries) (texts_of words.now)) }
{
    let mut count = 0;
    for word in words {
        if !has_word(traces, word) {
            count += 1;
        }
    }
    count
}

/// Returns the run of a word: a copy of that which it has in the vocabulary before or, if it has none, a new one.
///
/// # Errors
///
/// Returns `OutOfMemory` if an allocation fails, and `BrokenOff` if `break_off` says so before the run.
fn run_of<B: BreakOff>(
    alloc: Global,
    machine: &Machine<Table>,
    limit: u32,
    meter: &mut Meter,
    lists: &mut SharedLists,
    before: &Traces,
    word: &[char],
    break_off: &mut B,
) -> Result<LastRun, EditFault>
    requires sound { IsWord word.now }
    requires room { meter.old + runs_of_word (words_in before.now.entries) word.now ≤ max_runs }
    ensures fresh { (s : Source) → IsLinkedMachineOf machine.now s → AreFresh (under s limit) before.now.entries → IfOk result (λ run. IsFresh (under s limit) word.now run) }
    ensures counted { OnOk result (meter.new ≡ meter.old + runs_of_word (words_in before.now.entries) word.now) }
    ensures cut { IfErr result (λ f. IsCut (runs_of_word (words_in before.now.entries) word.now) f meter.old meter.new) }
    ensures untold { OnOk result (B.said break_off.new ≡ B.said break_off.old) }
    ensures told { IfErr result (λ f. BreaksIfTold (B.said break_off.old) (B.said break_off.new) f) }
{
    match before.get(word) {
        Some(last) => match last.copy(alloc) {
            Ok(copy) => Ok(copy),
            Err(_) => Err(EditFault::OutOfMemory),
        },
        None => run_or_break(alloc, machine, limit, meter, lists, word, break_off),
    }
}

/// Appends a new word with its run. Returns `AllocError` if an allocation fails.
fn put(alloc: Global, traces: &mut Traces, word: &[char], last: LastRun) -> Result<(), AllocError>
    requires { is_word word.now (words_in traces.old.entries) ≡ false }
    ensures words { OnOk result (words_in traces.new.entries ≡ words_in traces.old.entries ++ word.now ∷ []) }
    ensures kept { OnOk result ((s : Setting) → AreFresh s traces.old.entries → IsFresh s word.now last → AreFresh s traces.new.entries) }
{
    let key = Vec::from_slice(alloc, word)?;
    traces.insert(key, last)?;
    Ok(())
}

/// Returns the words with their runs, each word that is in the vocabulary before with a copy of its run.
///
/// # Errors
///
/// Returns `MeterFull` if fewer counts of runs are left than there are new words; nothing is run then. Returns `OutOfMemory` if an
/// allocation fails, and `BrokenOff` if `break_off` says so before a run.
fn runs_of<B: BreakOff>(
    alloc: Global,
    machine: &Machine<Table>,
    limit: u32,
    meter: &mut Meter,
    before: &Traces,
    words: &[&[char]],
    break_off: &mut B,
) -> Result<Traces, EditFault>
    requires sound { All IsWord (texts_of words.now) }
    requires distinct { IsDistinct bytes_eq (texts_of words.now) }
    ensures words { IfOk result (λ traces. words_in traces.entries ≡ texts_of words.now) }
    ensures fresh { (s : Source) → IsLinkedMachineOf machine.now s → AreFresh (under s limit) before.now.entries → IfOk result (λ traces. AreFresh (under s limit) traces.entries) }
    ensures counted { OnOk result (meter.new ≡ meter.old + length (new_words (words_in before.now.entries) (texts_of words.now))) }
    ensures room { OnOk result (length (new_words (words_in before.now.entries) (texts_of words.now)) ≤ max_runs - meter.old) }
    ensures stop { IfErr result (λ f. IsStopOf (length (new_words (words_in before.now.entries) (texts_of words.now))) f meter.old meter.new) }
    ensures untold { OnOk result (B.said break_off.new ≡ B.said break_off.old) }
    ensures told { IfErr result (λ f. BreaksIfTold (B.said break_off.old) (B.said break_off.new) f) }
{
    let left = u64::MAX - meter.count();
    let needed = count_new(before, words) as u64;
    if left < needed {
        return Err(EditFault::MeterFull);
    }
    let mut traces = IndexMap::with_hasher(alloc, *before.hasher());
    traces.reserve(words.len())?;
    let mut lists = SharedLists::new(alloc);
    for word in words {
        let last = run_of(
            alloc, machine, limit, meter, &mut lists, before, word, break_off,
        )?;
        put(alloc, &mut traces, word, last)?;
    }
    Ok(traces)
}

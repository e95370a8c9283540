//! Opening a bench.

ghost use Rattle.std.specs.Prelude.{◌≡◌, ◌≤◌, ◌<◌, ◌+◌, ◌^◌, ◌&&◌, not, map, length, [], None, OnOk, IfOk, IfErr};
ghost use Rattle.sbl_ast.specs.Source.{Source};
ghost use Rattle.sbl_machine.specs.MachineOf.{IsLinkedMachineOf};
ghost use Rattle.indexmap.specs.declared.map.entry.Entry.TheVariants.{Occupied};
ghost use Rattle.indexmap.specs.Entry.{entry_map};
ghost use Rattle.sbl_bench.specs.Vocabulary.{is_word, vocabulary, with_word};
ghost use Rattle.sbl_bench.specs.Contents.{opening_fault, word_fault, IsFaultOrMemory};
ghost use Rattle.sbl_bench.specs.inside.ProofNames.{is_full};
ghost use Rattle.sbl_last_runs.specs.KeptEntries.{words_in};
ghost use Rattle.sbl_bench.specs.inside.KeptEntries.{IsKept};
ghost use Rattle.sbl_semantics.specs.Limit.{default_limit};
ghost use Rattle.sbl_rows.specs.Setting.{under};

use crate::bench::{Bench, MAX_WORDS};
use crate::fault::EditFault;
use crate::fresh_run::keep;
use crate::progress::{NoProgress, Progress};
use crate::refusal::word_fault;
use crate::traces::has_word;
use indexmap::IndexMap;
use indexmap::map::{Entry, OccupiedEntry};
use sbl_last_runs::{LastRun, SharedLists, Traces, WordKeys};
use sbl_machine::{DEFAULT_LIMIT, Machine, Meter, Table};
use sbl_script::Script;
use std::alloc::Global;

impl Bench {
    ghost use Rattle.sbl_bench.specs.KeptRuns.{contents_of};
    ghost use Rattle.sbl_bench.specs.Contents.{Opens};
    ghost use Rattle.sbl_script.specs.ParsedScript.{source_of};

    /// Returns the bench of a script and a list of words. The words are taken in order. Empty words and repeats are skipped, so
    /// a word keeps its first position. Each word of the vocabulary is run once.
    ///
    /// Words are found by a hash whose keys are no secret (`WordKeys::constant`). So anybody can choose words that collide:
    /// each of them takes as long as all before it. If the words come from others, call `open_with_keys`.
    ///
    /// Returns `WordTooLong` at a word of more than 255 characters, even if it is a repeat, and `Full` at a new word after
    /// 100,000 others, whichever comes first. Returns `OutOfMemory` if an allocation fails. (Our own choice.)
    pub fn open(alloc: Global, script: Script, words: Vec<Vec<char>>) -> Result<Bench, EditFault>
        ensures opens { Opens (source_of script) (map (λ w. w.items) words.items) (λ b. contents_of b) result }
        ensures changes { IfOk result (λ b. b.changes ≡ []) }
    {
        Bench::open_with_keys(alloc, WordKeys::constant(), script, words)
    }

    /// Returns the same bench as `open`, or the same fault. Words are found by a hash with these keys; the bench is the same
    /// with any keys. If they are made of keys that come from the system (`WordKeys::new`), they are secret, and we know no way
    /// to choose words that collide without them.
    pub fn open_with_keys(
        alloc: Global,
        keys: WordKeys,
        script: Script,
        words: Vec<Vec<char>>,
    ) -> Result<Bench, EditFault>
        ensures opens { Opens (source_of script) (map (λ w. w.items) words.items) (λ b. contents_of b) result }
        ensures changes { IfOk result (λ b. b.changes ≡ []) }
    {
        Bench::open_observed(alloc, keys, script, words, &mut NoProgress {})
    }

    /// Returns the same bench as `open_with_keys`, or the same fault. `progress` sees how many words were run.
    pub fn open_observed<P: Progress>(
        alloc: Global,
        keys: WordKeys,
        script: Script,
        words: Vec<Vec<char>>,
        progress: &mut P,
    ) -> Result<Bench, EditFault>
        ensures opens { Opens (source_of script) (map (λ w. w.items) words.items) (λ b. contents_of b) result }
        ensures changes { IfOk result (λ b. b.changes ≡ []) }
    {
        let machine = match Machine::new(alloc, &script) {
            Ok(machine) => machine,
            Err(refused) => {
                drop(words);
                script.discard();
                return Err(refused.into());
            }
        };
        match first_runs(alloc, keys, &machine, words, progress) {
            Ok((traces, meter)) => Ok(Bench {
                alloc,
                script,
                machine,
                limit: DEFAULT_LIMIT,
                traces,
                meter,
                last: Vec::new(alloc),
                pairs: None,
            }),
            Err(fault) => {
                drop(machine);
                script.discard();
                Err(fault)
            }
        }
    }
}

/// Runs each word of a list once, as `Bench::open` does. Returns the words of the vocabulary with their runs, and the count of
/// these; or a fault as `Bench::open` does.
fn first_runs<P: Progress>(
    alloc: Global,
    keys: WordKeys,
    machine: &Machine<Table>,
    words: Vec<Vec<char>>,
    progress: &mut P,
) -> Result<(Traces, Meter), EditFault>
    requires linked { (s : Source) × IsLinkedMachineOf machine.now s }
    ensures words { IfOk result (λ runs. words_in runs.0.entries ≡ vocabulary (map (λ w. w.items) words.items)) }
    ensures kept { (s : Source) → IsLinkedMachineOf machine.now s → IfOk result (λ runs. IsKept (under s default_limit) runs.0.entries) }
    ensures counted { IfOk result (λ runs. runs.1 ≡ length runs.0.entries) }
    ensures ok { OnOk result (opening_fault [] (map (λ w. w.items) words.items) ≡ None) }
    ensures fault { IfErr result (λ f. IsFaultOrMemory (opening_fault [] (map (λ w. w.items) words.items)) f) }
{
    let mut meter = Meter::new();
    let mut traces = IndexMap::with_hasher(alloc, keys);
    traces.reserve(words.len().min(MAX_WORDS))?;
    let mut lists = SharedLists::new(alloc);
    let mut taken: u64 = 0;
    for word in words {
        take_word(alloc, machine, &mut meter, &mut lists, &mut traces, word)?;
        taken = taken.saturating_add(1);
        progress.see_words(taken);
    }
    progress.see_end();
    Ok((traces, meter))
}

// Whether the vocabulary is full and the word is not in it.
fn has_no_room(traces: &Traces, word: &[char]) -> bool
    ensures { result ≡ (is_full (words_in traces.now.entries) && not (is_word word.now (words_in traces.now.entries))) }
{
    traces.len() >= MAX_WORDS && !has_word(traces, word)
}

/// Takes one word of the list; its run shares a list of touches if one of them is equal. Skips the word if it is empty or in the vocabulary; otherwise runs it and appends it. Returns
/// `WordTooLong`, `Full` or `OutOfMemory` as `Bench::open` does.
fn take_word(
    alloc: Global,
    machine: &Machine<Table>,
    meter: &mut Meter,
    lists: &mut SharedLists,
    traces: &mut Traces,
    word: Vec<char>,
) -> Result<(), EditFault>
    requires counted { meter.old ≡ length traces.old.entries }
    requires room { length traces.old.entries ≤ 100000 }
    ensures words { OnOk result (words_in traces.new.entries ≡ with_word (words_in traces.old.entries) word.items) }
    ensures kept { OnOk result ((s : Source) → IsLinkedMachineOf machine.now s → IsKept (under s default_limit) traces.old.entries → IsKept (under s default_limit) traces.new.entries) }
    ensures counted { OnOk result (meter.new ≡ length traces.new.entries) }
    ensures ok { OnOk result (word_fault (words_in traces.old.entries) word.items ≡ None) }
    ensures fault { IfErr result (λ f. IsFaultOrMemory (word_fault (words_in traces.old.entries) word.items) f) }
{
    let text = word.as_slice();
    if let Some(fault) = word_fault(text, has_no_room(traces, text)) {
        return Err(fault);
    }
    if word.is_empty() {
        return Ok(());
    }
    let Ok(entry) = traces.entry(word) else {
        return Err(EditFault::OutOfMemory);
    };
    match entry {
        Entry::Occupied(entry) => leave(entry),
        Entry::Vacant(entry) => {
            let traced = machine.trace(alloc, meter, entry.key().as_slice(), DEFAULT_LIMIT)?;
            let last = keep(lists, alloc, meter, traced)?;
            entry.insert(last);
        }
    }
    Ok(())
}

// Leaves the entry of a word, and the others, unchanged. (The map promises this for an entry that is swapped with itself, but
// promises nothing for an entry that is dropped.)
fn leave(entry: OccupiedEntry<'_, Vec<char>, LastRun, WordKeys>)
    ensures { entry.exit.0.now.entries ≡ (entry_map (Occupied entry.entry)).entries }
{
    let index = entry.index();
    entry.swap_indices(index);
}

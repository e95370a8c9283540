//! The bench and its queries.

ghost use Rattle.std.specs.Prelude.{◌≡◌, ◌≤◌, ◌+◌, ◌^◌, ◌↔◌, IsTrue, false, length, map, None, Some, Ok, Err, IfOk, IfErr, slice_get};

use crate::fault::EditFault;
use sbl_last_runs::{RunChange, Traces};
use sbl_machine::{Item, ItemRef, Machine, Meter, Table, Why};
use sbl_rows::{Pairs, Row};
use sbl_run_state::MAX_WORD_LENGTH;
use sbl_script::Script;
use std::alloc::{AllocError, Global};
use std::collections::BTreeSet;
use std::marker::Model;
use std::mem::forget;

/// The maximum number of words of a vocabulary (our own choice).
pub const MAX_WORDS: usize = 100_000;

/// The highest limit of steps that you can set (our own choice).
pub const MAX_LIMIT: u64 = 10_000_000;

/// A script, a vocabulary, and the run of the script on each word.
#[derive(Drop)]
pub struct Bench {
    pub(crate) alloc: Global,
    pub(crate) script: Script,
    pub(crate) machine: Machine<Table>,
    // the maximum number of steps of a run
    pub(crate) limit: u32,
    // the last run of each word; a fresh run would be equal
    pub(crate) traces: Traces,
    pub(crate) meter: Meter,
    // the words that the last edit ran again, each with its run before
    pub(crate) last: Vec<RunChange>,
    // the pairs of stems and words, once the classes were asked for
    pub(crate) pairs: Option<Pairs>,
}

impl Model for Bench {
    ghost use Rattle.std.specs.Coded.{codes};
    ghost use Rattle.sbl_ast.specs.contracts.tree.ScriptItem as e;
    ghost use Rattle.sbl_script.specs.ParsedScript.{source_of};
    ghost use Rattle.sbl_machine.specs.MachineOf.{IsLinkedMachineOf};
    ghost use Rattle.sbl_bench.specs.KeptRuns.{KeptRuns};
    ghost use Rattle.sbl_last_runs.specs.KeptEntries.{words_in};
    ghost use Rattle.sbl_bench.specs.inside.KeptEntries.{IsKept};
    ghost use Rattle.sbl_last_runs.specs.Last.{last_changes};
    ghost use Rattle.sbl_last_runs.specs.Pairs.{IsIndexed};
    ghost use Rattle.sbl_rows.specs.Setting.{under};

    ghost Value = { KeptRuns };

    ghost coded = { Prim.hlevel (codes, e.the_row.coded) };

    ghost view = { λ b. record { script = b.script; limit = b.limit; words = words_in b.traces.entries; count = b.meter; changes = last_changes b.traces.entries b.last.items } };

    ghost invariant = { λ b. IsLinkedMachineOf b.machine (source_of b.script) × IsKept (under (source_of b.script) b.limit) b.traces.entries × IsIndexed b.traces.entries b.pairs };
}

impl Bench {
    ghost use Rattle.std.specs.List.{find};
    ghost use Rattle.std.specs.Option.{option_map};
    ghost use Rattle.std.specs.Str.{bytes_eq};
    ghost use Rattle.sbl_bench.specs.KeptRuns.{setting_of};
    ghost use Rattle.sbl_semantics.specs.TouchedItems.{items_in};
    ghost use Rattle.sbl_machine.specs.ItemRefs.{items_of_refs};
    ghost use Rattle.sbl_bench.specs.Vocabulary.{is_word};
    ghost use Rattle.sbl_rows.specs.Rows.{rows_of, view_row};
    ghost use Rattle.sbl_bench.specs.Traces.{trace_of};
    ghost use Rattle.sbl_bench.specs.Whys.{IsWhy, refusal_of_why, routine_name};

    /// Returns the number of words of the vocabulary. Does not allocate.
    pub fn len(&self) -> usize
        ensures { result ≡ length self.now.words }
    {
        self.traces.len()
    }

    /// Returns whether the vocabulary has no word. Does not allocate.
    pub fn is_empty(&self) -> bool
        ensures { IsTrue result ↔ (length self.now.words ≡ 0) }
    {
        self.traces.is_empty()
    }

    /// Returns the row of the word at index `i`, counted from 0 in vocabulary order; `None` exactly if `i` is not below the
    /// number of words. Does not allocate.
    pub fn row(&self, i: usize) -> Option<Row<'_>>
        ensures { option_map view_row result ≡ slice_get (rows_of (setting_of self.now) self.now.words) i }
    {
        let (word, last) = self.traces.get_index(i)?;
        Some(Row {
            word: word.as_slice(),
            outcome: last.outcome(),
        })
    }

    /// Returns the row of a word, found by its hash; `None` exactly if the word is not in the vocabulary. Does not allocate.
    pub fn row_of(&self, word: &[char]) -> Option<Row<'_>>
        ensures { option_map view_row result ≡ find (λ row. bytes_eq word.now row.word) (rows_of (setting_of self.now) self.now.words) }
    {
        match self.traces.get_key_value(word) {
            Some((word, last)) => Some(Row {
                word: word.as_slice(),
                outcome: last.outcome(),
            }),
            None => None,
        }
    }

    /// Returns the rows, in vocabulary order. Returns `AllocError` if an allocation fails.
    pub fn rows(&self) -> Result<Vec<Row<'_>>, AllocError>
        ensures { IfOk result (λ rows. map view_row rows.items ≡ rows_of (setting_of self.now) self.now.words) }
    {
        let mut rows = Vec::with_capacity(self.alloc, self.len())?;
        for (word, last) in self.traces.iter() {
            let row = Row {
                word: word.as_slice(),
                outcome: last.outcome(),
            };
            rows.push(row).map_err(|_| AllocError)?;
        }
        Ok(rows)
    }

    /// Returns the items that the run of a word touches, each once: the routines whose bodies it enters, by name in code point
    /// order, then the amongs whose searches it pays for, by name and number, then the groupings whose tests it pays for, by
    /// name. Returns `None` exactly if the word is not in the vocabulary; this does not allocate. Returns `AllocError` if an
    /// allocation fails.
    pub fn touched(&self, word: &[char]) -> Result<Option<BTreeSet<Item>>, AllocError>
        ensures touched { IfOk result (λ items. option_map items_in items ≡ trace_of (setting_of self.now) self.now.words word.now) }
        ensures absent { is_word word.now self.now.words ≡ false → result ≡ Ok None }
    {
        match self.traces.get(word) {
            Some(last) => {
                let items = self.machine.items(self.alloc, last.touches())?;
                Ok(Some(items))
            }
            None => Ok(None),
        }
    }

    /// The same as `touched`, but the items borrow their names from the bench.
    pub fn touched_refs(&self, word: &[char]) -> Result<Option<BTreeSet<ItemRef<'_>>>, AllocError>
        ensures touched { IfOk result (λ items. option_map items_of_refs items ≡ trace_of (setting_of self.now) self.now.words word.now) }
        ensures absent { is_word word.now self.now.words ≡ false → result ≡ Ok None }
    {
        let Some(last) = self.traces.get(word) else {
            return Ok(None);
        };
        match self.machine.item_refs(self.alloc, last.touches()) {
            Ok(items) => Ok(Some(items)),
            Err(refused) => Err(refused),
        }
    }

    /// Runs the script on a word under the limit, whether the word is in the vocabulary or not, and returns the outcome, the
    /// events and the number of steps of the run, and the values of the integer variables at its end. Routines and amongs have
    /// numbers in the events; `routine_name` has the names. Integers are in the order of their declarations.
    /// The run does not count among the runs of the bench.
    ///
    /// Returns `EmptyWord` if the word has no character, and `WordTooLong` if it has more than 255, both without an allocation,
    /// and `OutOfMemory` if an allocation fails.
    pub fn why(&self, word: &[char]) -> Result<Why, EditFault>
        ensures why { IfOk result (IsWhy (setting_of self.now) word.now) }
        ensures refused { (f : EditFault) → refusal_of_why word.now ≡ Some f → result ≡ Err f }
        ensures memory { refusal_of_why word.now ≡ None → IfErr result (λ f. f ≡ EditFault.OutOfMemory) }
    {
        if word.is_empty() {
            return Err(EditFault::EmptyWord);
        }
        if word.len() > MAX_WORD_LENGTH {
            return Err(EditFault::WordTooLong);
        }
        Ok(self.machine.why(self.alloc, word, self.limit)?)
    }

    /// Returns the name of the routine with this number, or an empty name if there is none. Routines count from 0, in the order
    /// of their definitions. Does not allocate.
    pub fn routine_name(&self, number: usize) -> &str
        ensures { result.now ≡ routine_name (setting_of self.now) number }
    {
        self.machine.routine_name(number)
    }

    /// Returns the number of runs that the bench has made, including those when it was opened. Does not allocate.
    pub fn runs(&self) -> u64
        ensures { result ≡ self.now.count }
    {
        self.meter.count()
    }

    /// Returns the maximum number of steps of a run. Does not allocate.
    pub fn limit(&self) -> u32
        ensures { result ≡ self.now.limit }
    {
        self.limit
    }

    /// Ends the use of the bench without freeing its memory. The system takes the memory back when the program ends, so call
    /// this for a bench that is used until then. A bench that is dropped is freed. A crate that calls this need not prove the
    /// destructors of a bench. Does not allocate.
    pub fn leak(self) {
        forget(self);
    }

    /// Returns the script. Does not allocate.
    pub fn script(&self) -> &Script
        ensures { result.now ≡ self.now.script }
    {
        &self.script
    }
}

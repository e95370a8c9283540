//! Edits of a bench.

ghost use Rattle.std.specs.Prelude.{◌≡◌, ◌≤◌, ◌<◌, ◌+◌, ◌^◌, ℕ, List, MatchOption, IfErr, IfOk, OnOk, true, false};
ghost use Rattle.sbl_bench.specs.Edits.{is_limit};
ghost use Rattle.sbl_script.specs.Parts.{view_part};
ghost use Rattle.sbl_semantics.specs.TouchedItems.{item_of};

use crate::affected_words::{
    AffectedWords, above_smaller, affected_by_exchange, affected_by_items,
};
use crate::bench::{Bench, MAX_LIMIT, MAX_WORDS};
use crate::break_off::{BreakOff, NeverBreak};
use crate::change::rerun;
use crate::fault::EditFault;
use crate::traces::{has_word, put_last};
use sbl_last_runs::{follow, follow_new, follow_old, make_changes, words_are_unique};
use sbl_machine::laws::{
    differing_stay, edits_agree, one_item_alone, untouched_stay, used_steps_suffice,
};
use sbl_machine::{Item, Machine};
use sbl_run_state::MAX_WORD_LENGTH;
use sbl_script::laws::is_well_declared;
use sbl_script::{Part, Script};
use std::alloc::{AllocError, Global};
use std::mem::swap;
use std::slice::from_ref;

impl Bench {
    ghost use Rattle.sbl_bench.specs.BreakingOff.{BreaksIfTold, EditsOrBreaks};
    ghost use Rattle.sbl_bench.specs.KeptRuns.{contents_of as contents};
    ghost use Rattle.sbl_bench.specs.inside.Changes.{Brings, IsExchange, IsTaken, affected_of};
    ghost use Rattle.sbl_bench.specs.Edits.{Edit, Edits, Add, Limit, Remove, Replace, Whole};
    ghost use Rattle.sbl_bench.specs.LeavesChanges.{LeavesChanges};
    ghost use Rattle.sbl_rows.specs.Setting.{under};
    ghost use Rattle.sbl_semantics.specs.TouchedItems.{item_of};
    ghost use Rattle.sbl_ast.specs.NamedParts.{Among, Grouping, Part', Routine};
    ghost use Rattle.sbl_script.specs.ParsedScript.{source_of};
    ghost use Rattle.sbl_script.specs.Parts.{view_part};

    /// Appends a word to the vocabulary and runs it once.
    ///
    /// Returns `EmptyWord` if the word has no character, `WordTooLong` if it has more than 255, `Present` if it is in the
    /// vocabulary, and `Full` if the vocabulary has 100,000 words, checked in this order and without an allocation. Then
    /// returns `MeterFull` if the count of runs is at its maximum, and `OutOfMemory` if an allocation fails. After an error,
    /// the script, vocabulary, rows and classes are unchanged. The count of runs is unchanged too, except that it may be higher
    /// by one after `OutOfMemory`. (Our own choice.)
    pub fn add(&mut self, word: &[char]) -> Result<(), EditFault>
        ensures edits { Edits result (contents self.old) (Add word.now) (contents self.new) }
        ensures changes { LeavesChanges result self.old self.new }
    {
        if word.is_empty() {
            return Err(EditFault::EmptyWord);
        }
        if word.len() > MAX_WORD_LENGTH {
            return Err(EditFault::WordTooLong);
        }
        if has_word(&self.traces, word) {
            return Err(EditFault::Present);
        }
        if self.traces.len() >= MAX_WORDS {
            return Err(EditFault::Full);
        }
        if self.meter.is_full() {
            return Err(EditFault::MeterFull);
        }
        let alloc = self.alloc;
        let copy = Vec::from_slice(alloc, word)?;
        put_last(
            alloc,
            &self.machine,
            self.limit,
            &mut self.meter,
            &mut self.traces,
            copy,
        )?;
        self.last = Vec::new(alloc);
        self.pairs = follow_new(alloc, self.pairs.take(), &self.traces, word);
        Ok(())
    }

    /// Removes a word from the vocabulary; the words after it move up. Returns `Absent` if the word is not in the vocabulary,
    /// and then changes nothing. Does not allocate.
    pub fn remove(&mut self, word: &[char]) -> Result<(), EditFault>
        ensures edits { Edits result (contents self.old) (Remove word.now) (contents self.new) }
        ensures changes { LeavesChanges result self.old self.new }
    {
        words_are_unique(&self.traces);
        let Some((key, last)) = self.traces.shift_remove_entry(word) else {
            return Err(EditFault::Absent);
        };
        self.last = Vec::new(self.alloc);
        self.pairs = follow_old(self.pairs.take(), key, last);
        Ok(())
    }

    /// Replaces a part of the script by the text, and runs each word once whose run before used the part: entered the routine,
    /// searched the among, or tested the grouping or one that is built from it, directly or through others. The text is as for
    /// `Script::with`: one row of the grammar, one whole `among ( .. )`, or what follows the name in the definition of a
    /// grouping. It is read in the mode, with the escapes and at the depth of the part that it replaces.
    ///
    /// # Errors
    ///
    /// Returns `NoRoutine` or `NoGrouping` if the script has no such definition, and `NoAmong` if the routine has no among of
    /// this number, counted from 1; these do not allocate. Then returns `Script` with the fault of the text or of the script
    /// with it, `AmongCount` if the text and the among that it replaces have different numbers of amongs, including those
    /// inside, and `MeterFull` if fewer counts of runs are left than there are words to run. If an allocation fails, may return
    /// `OutOfMemory` instead of any result but the first three. After an error, the script, limit, vocabulary, rows and classes
    /// are unchanged. The count of runs is unchanged too, except that after `OutOfMemory` it may be higher by at most the number
    /// of words to run, if the edit would have been accepted. (Our own choice.)
    pub fn replace(&mut self, part: Part<'_>, text: &str) -> Result<(), EditFault>
        ensures edits { Edits result (contents self.old) (Replace (view_part part.entry) text.now) (contents self.new) }
        ensures changes { LeavesChanges result self.old self.new }
    {
        self.replace_or_break(part, text, &mut NeverBreak {})
    }

    /// Does what `replace` does, or is broken off.
    ///
    /// # Errors
    ///
    /// As `replace`, and returns `BrokenOff` if `break_off` says so before a run. Then all is as before but for the count of runs,
    /// which has risen by the runs that were made.
    pub fn replace_or_break<B: BreakOff>(
        &mut self,
        part: Part<'_>,
        text: &str,
        break_off: &mut B,
    ) -> Result<(), EditFault>
        ensures edits { EditsOrBreaks result (contents self.old) (Replace (view_part part.entry) text.now) (contents self.new) }
        ensures changes { LeavesChanges result self.old self.new }
        ensures untold { OnOk result (B.said break_off.new ≡ B.said break_off.old) }
        ensures told { IfErr result (λ f. BreaksIfTold (B.said break_off.old) (B.said break_off.new) f) }
    {
        let script = self.script.with(self.alloc, part, text)?;
        let item = item_at(self.alloc, part)?;
        self.take_edited(script, &item, break_off)
    }

    /// Replaces the body of the routine or external of this name, as `replace` does.
    pub fn replace_routine(&mut self, name: &str, text: &str) -> Result<(), EditFault>
        ensures edits { Edits result (contents self.old) (Replace (Routine name.now) text.now) (contents self.new) }
        ensures changes { LeavesChanges result self.old self.new }
    {
        self.replace(Part::Routine(name), text)
    }

    /// Replaces the `k`-th among of the routine or external of this name, as `replace` does. Amongs are counted from 1 in the
    /// order of the words `among`.
    pub fn replace_among(&mut self, name: &str, k: u64, text: &str) -> Result<(), EditFault>
        ensures edits { Edits result (contents self.old) (Replace (Among name.now k) text.now) (contents self.new) }
        ensures changes { LeavesChanges result self.old self.new }
    {
        self.replace(Part::Among(name, k), text)
    }

    /// Replaces the terms of the grouping of this name, as `replace` does.
    pub fn replace_grouping(&mut self, name: &str, text: &str) -> Result<(), EditFault>
        ensures edits { Edits result (contents self.old) (Replace (Grouping name.now) text.now) (contents self.new) }
        ensures changes { LeavesChanges result self.old self.new }
    {
        self.replace(Part::Grouping(name), text)
    }

    /// Sets the maximum number of steps of a run, and runs each word once whose run used more steps than the smaller of the old
    /// limit and the new one. A run that was refused for its steps has used one step more than its limit.
    ///
    /// Returns `BadLimit` if the limit is 0 or above 10,000,000, without an allocation. Then returns `MeterFull` if fewer
    /// counts of runs are left than there are words to run. If an allocation fails, may return `OutOfMemory` instead of any
    /// result but `BadLimit`. After an error, the script, limit, vocabulary, rows and classes are unchanged. The count of runs
    /// is unchanged too, except that after `OutOfMemory` it may be higher by at most the number of words to run. (Our own
    /// choice.)
    pub fn set_limit(&mut self, number: u64) -> Result<(), EditFault>
        ensures edits { Edits result (contents self.old) (Limit number) (contents self.new) }
        ensures changes { LeavesChanges result self.old self.new }
    {
        self.set_limit_or_break(number, &mut NeverBreak {})
    }

    /// Does what `set_limit` does, or is broken off.
    ///
    /// # Errors
    ///
    /// As `set_limit`, and returns `BrokenOff` if `break_off` says so before a run. Then all is as before but for the count of
    /// runs, which has risen by the runs that were made.
    pub fn set_limit_or_break<B: BreakOff>(
        &mut self,
        number: u64,
        break_off: &mut B,
    ) -> Result<(), EditFault>
        ensures edits { EditsOrBreaks result (contents self.old) (Limit number) (contents self.new) }
        ensures changes { LeavesChanges result self.old self.new }
        ensures untold { OnOk result (B.said break_off.new ≡ B.said break_off.old) }
        ensures told { IfErr result (λ f. BreaksIfTold (B.said break_off.old) (B.said break_off.new) f) }
    {
        let Some(limit) = limit_of(number) else {
            return Err(EditFault::BadLimit);
        };
        used_steps_suffice();
        let affected = above_smaller(self.limit, limit);
        let changes = rerun(
            self.alloc,
            &self.machine,
            limit,
            &affected,
            &mut self.meter,
            &self.traces,
            break_off,
        )?;
        let before = make_changes(&mut self.traces, changes);
        self.pairs = follow(
            self.alloc,
            self.pairs.take(),
            &self.traces,
            before.as_slice(),
        );
        self.last = before;
        self.limit = limit;
        Ok(())
    }

    /// Replaces the whole script by the script that the bytes are read as, with the external of the script in force, and runs
    /// each word once whose run before touched an item in which the two scripts differ. These items are routines, amongs and
    /// groupings; for a grouping, a word runs too if its run tested one that is built from it. If the scripts differ in more
    /// than such items, runs all words once. If they are equal, runs none.
    ///
    /// # Errors
    ///
    /// Returns `Script` with the fault of the bytes, as `Script::parse` does, and then `MeterFull` if fewer counts of runs are
    /// left than there are words to run. If an allocation fails, may return `OutOfMemory` instead of any result. After an
    /// error, the script, limit, vocabulary, rows and classes are unchanged. The count of runs is unchanged too, except that
    /// after `OutOfMemory` it may be higher by at most the number of words to run, if the edit would have been accepted. (Our
    /// own choice.)
    pub fn replace_script(&mut self, text: &[u8]) -> Result<(), EditFault>
        ensures edits { Edits result (contents self.old) (Whole text.now) (contents self.new) }
        ensures changes { LeavesChanges result self.old self.new }
    {
        self.replace_script_or_break(text, &mut NeverBreak {})
    }

    /// Does what `replace_script` does, or is broken off.
    ///
    /// # Errors
    ///
    /// As `replace_script`, and returns `BrokenOff` if `break_off` says so before a run. Then all is as before but for the count of
    /// runs, which has risen by the runs that were made.
    pub fn replace_script_or_break<B: BreakOff>(
        &mut self,
        text: &[u8],
        break_off: &mut B,
    ) -> Result<(), EditFault>
        ensures edits { EditsOrBreaks result (contents self.old) (Whole text.now) (contents self.new) }
        ensures changes { LeavesChanges result self.old self.new }
        ensures untold { OnOk result (B.said break_off.new ≡ B.said break_off.old) }
        ensures told { IfErr result (λ f. BreaksIfTold (B.said break_off.old) (B.said break_off.new) f) }
    {
        let mut script = Script::parse(self.alloc, text, self.script.external())?;
        self.exchange(&mut script, break_off)
    }

    // Takes the script that was made by replacing an item.
    fn take_edited<B: BreakOff>(
        &mut self,
        script: Script,
        item: &Item,
        break_off: &mut B,
    ) -> Result<(), EditFault>
        requires { (e : Part') × (t : List ℕ) × IsTaken (contents self.old) e t (source_of script) (item_of item.now) }
        ensures edits { (e : Part') (t : List ℕ) → IsTaken (contents self.old) e t (source_of script) (item_of item.now) → EditsOrBreaks result (contents self.old) (Replace e t) (contents self.new) }
        ensures changes { LeavesChanges result self.old self.new }
        ensures untold { OnOk result (B.said break_off.new ≡ B.said break_off.old) }
        ensures told { IfErr result (λ f. BreaksIfTold (B.said break_off.old) (B.said break_off.new) f) }
    {
        edits_agree();
        untouched_stay();
        one_item_alone();
        is_well_declared(&self.script);
        let items = from_ref(item);
        let affected = affected_by_items(self.alloc, &self.machine, &self.script, items)?;
        let mut script = script;
        self.take_script(&mut script, &affected, break_off)
    }

    // Exchanges the script in force for another one, however much they differ.
    fn exchange<B: BreakOff>(
        &mut self,
        script: &mut Script,
        break_off: &mut B,
    ) -> Result<(), EditFault>
        requires { (e : Edit) × IsExchange (contents self.old) e (source_of script.old) }
        ensures edits { (e : Edit) → IsExchange (contents self.old) e (source_of script.old) → EditsOrBreaks result (contents self.old) e (contents self.new) }
        ensures changes { LeavesChanges result self.old self.new }
        ensures untold { OnOk result (B.said break_off.new ≡ B.said break_off.old) }
        ensures told { IfErr result (λ f. BreaksIfTold (B.said break_off.old) (B.said break_off.new) f) }
    {
        differing_stay();
        is_well_declared(&self.script);
        let affected = affected_by_exchange(self.alloc, &self.machine, &self.script, script)?;
        self.take_script(script, &affected, break_off)
    }

    /// Exchanges the script in force for another one, and runs each word once that this affects.
    ///
    /// # Errors
    ///
    /// Returns `MeterFull` if fewer counts of runs are left than there are words to run, and `OutOfMemory` if an allocation
    /// fails, and `BrokenOff` if `break_off` says so before a run. Then both scripts, the vocabulary, rows and classes are
    /// unchanged. The count of runs is unchanged too, except that after `OutOfMemory` and `BrokenOff` it may be higher by at most
    /// the number of words to run.
    fn take_script<B: BreakOff>(
        &mut self,
        script: &mut Script,
        affected: &AffectedWords,
        break_off: &mut B,
    ) -> Result<(), EditFault>
        requires { (e : Edit) × Brings (contents self.old) e (under (source_of script.old) self.old.limit) (affected_of affected.now) }
        ensures edits { (e : Edit) → Brings (contents self.old) e (under (source_of script.old) self.old.limit) (affected_of affected.now) → EditsOrBreaks result (contents self.old) e (contents self.new) }
        ensures changes { LeavesChanges result self.old self.new }
        ensures untold { OnOk result (B.said break_off.new ≡ B.said break_off.old) }
        ensures told { IfErr result (λ f. BreaksIfTold (B.said break_off.old) (B.said break_off.new) f) }
    {
        let after = Machine::new(self.alloc, script)?;
        let changes = rerun(
            self.alloc,
            &after,
            self.limit,
            affected,
            &mut self.meter,
            &self.traces,
            break_off,
        )?;
        let last = make_changes(&mut self.traces, changes);
        self.pairs = follow(self.alloc, self.pairs.take(), &self.traces, last.as_slice());
        self.machine = after;
        self.last = last;
        swap(&mut self.script, script);
        Ok(())
    }
}

/// Returns the number as a limit; `None` if it is 0 or above 10,000,000.
fn limit_of(number: u64) -> Option<u32>
    ensures { MatchOption result (is_limit number ≡ false) (λ n. (n ≡ number) × (is_limit number ≡ true)) }
{
    if number == 0 || MAX_LIMIT < number {
        return None;
    }
    u32::try_from(number).ok()
}

/// Returns the item that a part is. Returns `AllocError` if an allocation fails.
fn item_at(alloc: Global, part: Part<'_>) -> Result<Item, AllocError>
    ensures { IfOk result (λ item. item_of item ≡ view_part part.entry) }
{
    match part {
        Part::Routine(name) => Ok(Item::Routine(String::from_str(alloc, name)?)),
        Part::Among(name, k) => Ok(Item::Among(String::from_str(alloc, name)?, k)),
        Part::Grouping(name) => Ok(Item::Grouping(String::from_str(alloc, name)?)),
    }
}

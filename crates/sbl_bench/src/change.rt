//! The changes that an edit of the script or of the limit makes. They are computed first, and then applied without an
//! allocation (`make_changes` of sbl_last_runs).

ghost use Rattle.std.specs.Prelude.{◌≡◌, ◌≤◌, ◌+◌, ◌-◌, ◌++◌, ◌∷◌, [], length, map, OnOk, IfOk, IfErr, All};
ghost use Rattle.sbl_ast.specs.Source.{Source};
ghost use Rattle.sbl_machine.specs.MachineOf.{IsLinkedMachineOf};
ghost use Rattle.sbl_bench.specs.inside.Changes as spec;
ghost use Rattle.sbl_last_runs.specs.RunChanges.{view_change, view_run};
ghost use Rattle.sbl_bench.specs.inside.Changes.{affected_of, reruns};
ghost use Rattle.sbl_bench.specs.KeptRuns.{IsWord};
ghost use Rattle.sbl_last_runs.specs.KeptEntries.{words_in};
ghost use Rattle.sbl_last_runs.specs.Pairs.{IsUnique, same_text};
ghost use Rattle.sbl_bench.specs.BreakingOff.{BreaksIfTold};
ghost use Rattle.sbl_bench.specs.Contents.{max_runs};
ghost use Rattle.sbl_rows.specs.Setting.{under};
ghost use Rattle.sbl_bench.specs.inside.Stops.{IsStopOf};

use crate::affected_words::{AffectedWords, is_affected};
use crate::break_off::BreakOff;
use crate::fault::EditFault;
use crate::fresh_run::run_or_break;
use sbl_last_runs::{LastRun, RunChange, SharedLists, Traces, words_are_unique};
use sbl_machine::{Machine, Meter, Table};
use std::alloc::{AllocError, Global};

/// Appends the change of a word. Returns `AllocError` if an allocation fails.
fn push_change(
    alloc: Global,
    changes: &mut Vec<RunChange>,
    word: &[char],
    traced: LastRun,
) -> Result<(), AllocError>
    ensures { OnOk result (map view_change changes.new.items ≡ map view_change changes.old.items ++ view_run word.now traced ∷ []) }
{
    let word = Vec::from_slice(alloc, word)?;
    changes
        .push(RunChange { word, traced })
        .map_err(|_| AllocError)
}

/// Returns the words that are affected, judged by their last runs, in vocabulary order. Returns `AllocError` if an allocation
/// fails. Does not allocate if no word is affected.
fn met_words<'a>(
    alloc: Global,
    affected: &AffectedWords,
    traces: &'a Traces,
) -> Result<Vec<&'a [char]>, AllocError>
    ensures words { IfOk result (λ words. map (λ w. w.now) words.items ≡ spec.met_words (affected_of affected.now) traces.now.entries) }
    ensures unique { IsUnique same_text traces.now }
{
    words_are_unique(traces);
    let mut words = Vec::new(alloc);
    for (word, last) in traces.iter() {
        if is_affected(affected, last) {
            words.push(word.as_slice()).map_err(|_| AllocError)?;
        }
    }
    Ok(words)
}

/// Runs each of the words, and returns the changes.
///
/// # Errors
///
/// Returns `OutOfMemory` if an allocation fails, and `BrokenOff` if `break_off` says so before a run.
fn run_words<B: BreakOff>(
    alloc: Global,
    machine: &Machine<Table>,
    limit: u32,
    words: &[&[char]],
    meter: &mut Meter,
    break_off: &mut B,
) -> Result<Vec<RunChange>, EditFault>
    requires sound { All IsWord (map (λ w. w.now) words.now) }
    requires room { meter.old + length words.now ≤ max_runs }
    ensures changes { (s : Source) → IsLinkedMachineOf machine.now s → IfOk result (λ c. map view_change c.items ≡ reruns (under s limit) (map (λ w. w.now) words.now)) }
    ensures counted { OnOk result (meter.new ≡ meter.old + length words.now) }
    ensures stop { IfErr result (λ f. IsStopOf (length words.now) f meter.old meter.new) }
    ensures untold { OnOk result (B.said break_off.new ≡ B.said break_off.old) }
    ensures told { IfErr result (λ f. BreaksIfTold (B.said break_off.old) (B.said break_off.new) f) }
{
    let mut changes = Vec::new(alloc);
    let mut lists = SharedLists::new(alloc);
    for word in words {
        let last = run_or_break(alloc, machine, limit, meter, &mut lists, word, break_off)?;
        push_change(alloc, &mut changes, word, last)?;
    }
    Ok(changes)
}

/// Runs each affected word once, and returns the changes. Runs no other word.
///
/// # Errors
///
/// Returns `MeterFull` if fewer counts of runs are left than there are words to run; nothing is run then. Returns `OutOfMemory`
/// if an allocation fails, and `BrokenOff` if `break_off` says so before a run.
pub(crate) fn rerun<B: BreakOff>(
    alloc: Global,
    machine: &Machine<Table>,
    limit: u32,
    affected: &AffectedWords,
    meter: &mut Meter,
    traces: &Traces,
    break_off: &mut B,
) -> Result<Vec<RunChange>, EditFault>
    requires sound { All IsWord (words_in traces.now.entries) }
    ensures changes { (s : Source) → IsLinkedMachineOf machine.now s → IfOk result (λ c. map view_change c.items ≡ reruns (under s limit) (spec.met_words (affected_of affected.now) traces.now.entries)) }
    ensures counted { OnOk result (meter.new ≡ meter.old + length (spec.met_words (affected_of affected.now) traces.now.entries)) }
    ensures room { OnOk result (length (spec.met_words (affected_of affected.now) traces.now.entries) ≤ max_runs - meter.old) }
    ensures stop { IfErr result (λ f. IsStopOf (length (spec.met_words (affected_of affected.now) traces.now.entries)) f meter.old meter.new) }
    ensures unique { IsUnique same_text traces.now }
    ensures untold { OnOk result (B.said break_off.new ≡ B.said break_off.old) }
    ensures told { IfErr result (λ f. BreaksIfTold (B.said break_off.old) (B.said break_off.new) f) }
{
    let words = met_words(alloc, affected, traces)?;
    if u64::MAX - meter.count() < words.len() as u64 {
        return Err(EditFault::MeterFull);
    }
    let changes = run_words(alloc, machine, limit, &words, meter, break_off)?;
    Ok(changes)
}

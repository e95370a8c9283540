//! A new run of a word.

ghost use Rattle.std.specs.Prelude.{◌≡◌, ◌≤◌, ◌<◌, ◌+◌, ◌^◌, ℕ, OnOk, OnErr, IfOk, IfErr};
ghost use Rattle.sbl_ast.specs.Source.{Source};
ghost use Rattle.sbl_machine.specs.MachineOf.{IsLinkedMachineOf};
ghost use Rattle.sbl_bench.specs.BreakingOff.{BreaksIfTold};
ghost use Rattle.sbl_bench.specs.Contents.{max_runs};
ghost use Rattle.sbl_bench.specs.KeptRuns.{IsWord};
ghost use Rattle.sbl_last_runs.specs.KeptEntries.{IsFresh};
ghost use Rattle.sbl_bench.specs.inside.Stops.{IsCut};
ghost use Rattle.sbl_rows.specs.Setting.{under};

use crate::break_off::BreakOff;
use crate::fault::EditFault;
use sbl_last_runs::{LastRun, RunTrace, SharedLists};
use sbl_machine::{Machine, Meter, Table};
use std::alloc::{AllocError, Global};

/// Returns a run whose touches share one of the lists, if that is equal; otherwise keeps its own among the lists. Gives the list of
/// the run back to the meter. Returns `AllocError` if an allocation fails.
pub(crate) fn keep(
    lists: &mut SharedLists,
    alloc: Global,
    meter: &mut Meter,
    traced: RunTrace,
) -> Result<LastRun, AllocError>
    ensures outcome { IfOk result (λ run. run.outcome ≡ traced.outcome) }
    ensures touches { IfOk result (λ run. run.touches.items ≡ traced.touches.items) }
    ensures used { IfOk result (λ run. run.used ≡ traced.used) }
    ensures meter { meter.new ≡ meter.old }
{
    let last = lists.run_with(
        alloc,
        traced.outcome,
        traced.touches.as_slice(),
        traced.used,
    )?;
    meter.reuse(traced.touches);
    Ok(last)
}

/// Returns a new run of a word, which shares a list of touches if one of them is equal. Returns `AllocError` if an allocation fails.
fn run_new(
    lists: &mut SharedLists,
    alloc: Global,
    machine: &Machine<Table>,
    limit: u32,
    meter: &mut Meter,
    word: &[char],
) -> Result<LastRun, AllocError>
    requires sound { IsWord word.now }
    requires room { meter.old < max_runs }
    ensures fresh { (s : Source) → IsLinkedMachineOf machine.now s → IfOk result (λ run. IsFresh (under s limit) word.now run) }
    ensures counted { OnOk result (meter.new ≡ meter.old + 1) }
    ensures some { OnErr result ((n : ℕ) × (n ≤ 1) × (meter.new ≡ meter.old + n)) }
{
    match machine.trace(alloc, meter, word, limit) {
        Ok(traced) => keep(lists, alloc, meter, traced),
        Err(_) => Err(AllocError),
    }
}

/// Returns a new run of a word, as `run_new` does.
///
/// # Errors
///
/// Returns `OutOfMemory` if an allocation fails, and `BrokenOff` if `break_off` says so before the run.
pub(crate) fn run_or_break<B: BreakOff>(
    alloc: Global,
    machine: &Machine<Table>,
    limit: u32,
    meter: &mut Meter,
    lists: &mut SharedLists,
    word: &[char],
    break_off: &mut B,
) -> Result<LastRun, EditFault>
    requires sound { IsWord word.now }
    requires room { meter.old < max_runs }
    ensures fresh { (s : Source) → IsLinkedMachineOf machine.now s → IfOk result (λ run. IsFresh (under s limit) word.now run) }
    ensures counted { OnOk result (meter.new ≡ meter.old + 1) }
    ensures cut { IfErr result (λ f. IsCut 1 f meter.old meter.new) }
    ensures untold { OnOk result (B.said break_off.new ≡ B.said break_off.old) }
    ensures told { IfErr result (λ f. BreaksIfTold (B.said break_off.old) (B.said break_off.new) f) }
{
    if break_off.is_wanted() {
        return Err(EditFault::BrokenOff);
    }
    match run_new(lists, alloc, machine, limit, meter, word) {
        Ok(last) => Ok(last),
        Err(_) => Err(EditFault::OutOfMemory),
    }
}

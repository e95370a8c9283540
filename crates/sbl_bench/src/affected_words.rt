//! The words that a change of the script or of the limit affects.

ghost use Rattle.std.specs.Prelude.{◌≡◌, IfOk};
ghost use Rattle.sbl_bench.specs.inside.AffectedWords as spec;
ghost use Rattle.sbl_bench.specs.inside.AffectedWords.{AreMet, Defines, IsLinkedMachineOf, differs, item_list, source_of};
ghost use Rattle.sbl_bench.specs.inside.Changes.{affected_of};

use crate::script_diff::differences;
use sbl_last_runs::LastRun;
use sbl_machine::laws::differing_agree;
use sbl_machine::{Item, Machine, Table, Touch, TouchLog};
use sbl_script::Script;
use std::alloc::{AllocError, Global};

/// Which words a change of the script or of the limit can affect.
#[derive(Drop)]
pub(crate) enum AffectedWords {
    /// The words whose run touched one of these.
    Touching(TouchLog),
    /// The words whose run used more than this number of steps.
    Above(u64),
    /// All words.
    Every,
}

/// Returns the words whose run meets one of these items of the script, under its machine. The script has to define the
/// routines and groupings of the items. Returns `AllocError` if an allocation fails.
pub(crate) fn affected_by_items(
    alloc: Global,
    machine: &Machine<Table>,
    script: &Script,
    items: &[Item],
) -> Result<AffectedWords, AllocError>
    ensures { IsLinkedMachineOf machine.now (source_of script.now) → Defines (source_of script.now) items.now → IfOk result (λ a. AreMet (source_of script.now) (item_list items.now) (affected_of a)) }
{
    let marks = machine.affected_touches(alloc, script, items)?;
    Ok(AffectedWords::Touching(marks))
}

/// Returns the words whose run meets an item in which another script differs from this one, under its machine; all words if
/// the scripts differ in more than such items. Returns `AllocError` if an allocation fails.
pub(crate) fn affected_by_exchange(
    alloc: Global,
    machine: &Machine<Table>,
    script: &Script,
    other: &Script,
) -> Result<AffectedWords, AllocError>
    ensures { IsLinkedMachineOf machine.now (source_of script.now) → IfOk result (λ a. AreMet (source_of script.now) (differs (source_of script.now) (source_of other.now)) (affected_of a)) }
{
    differing_agree();
    let differing = differences(alloc, script, other)?;
    match differing {
        Some(items) => affected_by_items(alloc, machine, script, items.as_slice()),
        None => Ok(AffectedWords::Every),
    }
}

/// Returns the words whose run used more steps than the smaller of two limits.
pub(crate) fn above_smaller(one: u32, other: u32) -> AffectedWords
    ensures { affected_of result ≡ spec.Above (spec.smaller one other) }
{
    AffectedWords::Above(u64::from(if one <= other { one } else { other }))
}

// Whether one of the touches is one of the marks.
fn has_one(marks: &TouchLog, touches: &[Touch]) -> bool
    ensures { result ≡ spec.touches_one marks.now touches.now }
{
    for touch in touches {
        if marks.has(*touch) {
            return true;
        }
    }
    false
}

/// Returns whether the last run of a word is affected. Does not allocate.
pub(crate) fn is_affected(affected: &AffectedWords, last: &LastRun) -> bool
    ensures { result ≡ spec.is_affected_run (affected_of affected.now) last.now.touches.items last.now.used }
{
    match affected {
        AffectedWords::Touching(marks) => has_one(marks, last.touches()),
        AffectedWords::Above(steps) => *steps < last.steps(),
        AffectedWords::Every => true,
    }
}

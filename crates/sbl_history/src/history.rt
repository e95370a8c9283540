//! The edits that can be undone and redone.
ghost use Rattle.std.specs.Prelude.{◌≡◌, ◌≤◌, ◌<◌, ◌+◌, ◌-◌, ◌++◌, ◌∷◌, [], Some, drop, length, map, IfErr, IfOk, OnOk, OnErr, vec_len, vec_capacity};
ghost use Rattle.sbl_bench.specs.BreakingOff.{BreaksIfTold};
ghost use Rattle.sbl_bench.specs.KeptRuns.{contents_of as contents};
ghost use Rattle.sbl_history.specs.Desks.{TurnBreaksIfTold, back, past_of, text_after, text_in, view_edit, view_step as turn_of, view_text};
ghost use Rattle.sbl_history.specs.inside.HeldTurns.{TurnsHeld};
ghost use Rattle.sbl_history.specs.MayBreak.{EditsOrBreaksIf};
ghost use Rattle.sbl_history.specs.History.{ToLimit, ToText, edit_of, latest, remember_edit};

use crate::breaking::{replace_script, set_limit};
use crate::steps::{HeldEdit, History, Step};
use sbl_bench::{Bench, BreakOff, EditFault};
use std::alloc::{AllocError, Global};
use std::mem::replace;

/// The maximum number of edits that can be undone or redone.
const MAX_EDITS: usize = 100;

/// Why nothing was undone or redone.
#[derive(Clone, Copy, Debug, PartialEq, Eq)]
pub enum HistoryFault {
    /// There is no such edit.
    Nothing,
    /// The bench refuses the edit.
    Edit(EditFault),
}

impl History {
    /// Returns an empty history. Returns `AllocError` if an allocation fails; later calls allocate nothing for the history.
    pub(crate) fn new(alloc: Global) -> Result<History, AllocError>
        ensures { IfOk result (λ h. past_of h ≡ record { earlier = []; later = [] }) }
    {
        let earlier = Vec::with_capacity(alloc, MAX_EDITS)?;
        let later = Vec::with_capacity(alloc, MAX_EDITS)?;
        Ok(History { earlier, later })
    }

    /// Remembers an edit. Forgets the edits that were undone, and the oldest one if there are 100.
    pub(crate) fn remember(&mut self, edit: HeldEdit)
        ensures { past_of self.new ≡ remember_edit (past_of self.old) (view_edit edit) }
    {
        self.later.clear();
        push_latest(&mut self.earlier, edit);
    }
}

/// Drops the first edit if there are 100.
fn make_room(edits: &mut Vec<HeldEdit>)
    requires { vec_len edits.old ≤ 100 }
    ensures items { edits.new.items ≡ drop (length edits.old.items - 99) edits.old.items }
    ensures few { vec_len edits.new < 100 }
    ensures room { vec_capacity edits.new ≡ vec_capacity edits.old }
{
    if edits.len() >= MAX_EDITS {
        let _oldest = edits.remove(0);
    }
}

/// Appends an edit, and forgets the oldest one if there are 100.
#[tactic(auto, using(crate::proofs::Latest::one_more))]
fn push_latest(edits: &mut Vec<HeldEdit>, edit: HeldEdit)
    requires few { vec_len edits.old ≤ 100 }
    requires room { 100 ≤ vec_capacity edits.old }
    ensures edits { map view_edit edits.new.items ≡ latest (map view_edit edits.old.items ++ view_edit edit ∷ []) }
    ensures few { vec_len edits.new ≤ 100 }
    ensures room { vec_capacity edits.new ≡ vec_capacity edits.old }
{
    make_room(edits);
    edits.push_reserved(edit);
}

/// Undoes or redoes the last of the edits `from`, and appends it to `to` with the step that takes that back.
///
/// # Errors
///
/// Returns `Nothing` if there is none, and `Edit` with the fault of the bench. Then nothing changes but, maybe, the count
/// of runs.
pub(crate) fn turn<B: BreakOff>(
    alloc: Global,
    bench: &mut Bench,
    text: &mut Option<Vec<u8>>,
    from: &mut Vec<HeldEdit>,
    to: &mut Vec<HeldEdit>,
    may_break: bool,
    break_off: &mut B,
) -> Result<(), HistoryFault>
    requires few { vec_len from.old + vec_len to.old ≤ 100 }
    requires room { 100 ≤ vec_capacity from.old }
    requires to_room { 100 ≤ vec_capacity to.old }
    ensures turns { TurnsHeld may_break result bench.old bench.new text.old text.new from.old to.old from.new to.new }
    ensures few { vec_len from.new + vec_len to.new ≡ vec_len from.old + vec_len to.old }
    ensures room { vec_capacity from.new ≡ vec_capacity from.old }
    ensures to_room { vec_capacity to.new ≡ vec_capacity to.old }
    ensures untold { OnOk result (B.said break_off.new ≡ B.said break_off.old) }
    ensures told { IfErr result (λ f. TurnBreaksIfTold (B.said break_off.old) (B.said break_off.new) f) }
{
    let Some(mut edit) = from.pop() else {
        return Err(HistoryFault::Nothing);
    };
    match exchange(alloc, bench, text, &mut edit.step, may_break, break_off) {
        Ok(()) => {
            to.push_reserved(edit);
            Ok(())
        }
        Err(fault) => {
            from.push_reserved(edit);
            Err(HistoryFault::Edit(fault))
        }
    }
}

/// Makes what a step has current. Then the step has what was current before.
fn exchange<B: BreakOff>(
    alloc: Global,
    bench: &mut Bench,
    text: &mut Option<Vec<u8>>,
    step: &mut Step,
    may_break: bool,
    break_off: &mut B,
) -> Result<(), EditFault>
    ensures edits { EditsOrBreaksIf may_break result (contents bench.old) (edit_of (turn_of step.old)) (contents bench.new) }
    ensures exchanged { OnOk result ((turn_of step.new ≡ back (contents bench.old) (view_text text.old) (turn_of step.old)) × (view_text text.new ≡ text_after (view_text text.old) (turn_of step.old))) }
    ensures kept { OnErr result ((step.new ≡ step.old) × (text.new ≡ text.old)) }
    ensures untold { OnOk result (B.said break_off.new ≡ B.said break_off.old) }
    ensures told { IfErr result (λ f. BreaksIfTold (B.said break_off.old) (B.said break_off.new) f) }
{
    match step {
        Step::Text(other) => exchange_text(alloc, bench, text, other, may_break, break_off),
        Step::Limit(limit) => exchange_limit(bench, limit, may_break, break_off),
    }
}

/// Replaces the whole script by a text. Then `other` has the text that was current before.
#[tactic(auto, using(crate::proofs::Refusing::nothing_tried))]
fn exchange_text<B: BreakOff>(
    alloc: Global,
    bench: &mut Bench,
    text: &mut Option<Vec<u8>>,
    other: &mut Vec<u8>,
    may_break: bool,
    break_off: &mut B,
) -> Result<(), EditFault>
    ensures edits { EditsOrBreaksIf may_break result (contents bench.old) (edit_of (ToText other.old.items)) (contents bench.new) }
    ensures exchanged { OnOk result ((other.new.items ≡ text_in (contents bench.old) (view_text text.old)) × (view_text text.new ≡ Some other.old.items)) }
    ensures kept { OnErr result ((other.new ≡ other.old) × (text.new ≡ text.old)) }
    ensures untold { OnOk result (B.said break_off.new ≡ B.said break_off.old) }
    ensures told { IfErr result (λ f. BreaksIfTold (B.said break_off.old) (B.said break_off.new) f) }
{
    let before = text_of(alloc, bench, text)?;
    replace_script(bench, other, may_break, break_off)?;
    *text = Some(replace(other, before));
    Ok(())
}

/// Sets the limit. Then `limit` is the limit before.
fn exchange_limit<B: BreakOff>(
    bench: &mut Bench,
    limit: &mut u32,
    may_break: bool,
    break_off: &mut B,
) -> Result<(), EditFault>
    ensures edits { EditsOrBreaksIf may_break result (contents bench.old) (edit_of (ToLimit limit.old)) (contents bench.new) }
    ensures exchanged { OnOk result (limit.new ≡ (contents bench.old).setting.limit) }
    ensures kept { OnErr result (limit.new ≡ limit.old) }
    ensures untold { OnOk result (B.said break_off.new ≡ B.said break_off.old) }
    ensures told { IfErr result (λ f. BreaksIfTold (B.said break_off.old) (B.said break_off.new) f) }
{
    let before = bench.limit();
    set_limit(bench, u64::from(*limit), may_break, break_off)?;
    *limit = before;
    Ok(())
}

/// Returns the text of the current script. Returns `AllocError` if an allocation fails.
pub(crate) fn text_of(
    alloc: Global,
    bench: &Bench,
    text: &Option<Vec<u8>>,
) -> Result<Vec<u8>, AllocError>
    ensures { IfOk result (λ t. t.items ≡ text_in (contents bench.now) (view_text text.now)) }
{
    match text {
        Some(text) => Vec::from_slice(alloc, text),
        None => Ok(bench.script().print(alloc)?.into_bytes()),
    }
}

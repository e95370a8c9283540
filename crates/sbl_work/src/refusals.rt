//! The text that was refused last: kept after an edit with a fault, forgotten after one that is accepted.
ghost use Rattle.std.specs.Prelude.{◌≡◌, IfOk};
ghost use Rattle.sbl_history.specs.Desks.{state_of};
ghost use Rattle.sbl_history.specs.Refused.{PartText, view_held, view_refused};
ghost use Rattle.sbl_text.specs.declared.fault.ScriptFault.{ScriptFault as Fault};
ghost use Rattle.sbl_work.specs.FaultReplies.{kept_after, kept_after_turn, refused_whole};

use sbl_bench::EditFault;
use sbl_history::{Desk, HeldPart, HistoryFault, Refused};
use sbl_script::MAX_SCRIPT;
use std::alloc::{AllocError, Global};

/// Returns the bytes of a whole script, to be kept if they are refused. Returns `AllocError` if an allocation fails.
pub(crate) fn refused_whole(alloc: Global, bytes: &[u8]) -> Result<Refused, AllocError>
    ensures { IfOk result (λ refused. (f : Fault) → view_refused refused ≡ refused_whole bytes.now f) }
{
    if bytes.len() > MAX_SCRIPT {
        return Ok(Refused::TooLong);
    }
    Ok(Refused::Whole(Vec::from_slice(alloc, bytes)?))
}

/// Notes the result of an edit of the whole script, and returns it. After a fault of the script `refused` is kept.
pub(crate) fn note_whole(
    desk: &mut Desk,
    answer: Result<(), EditFault>,
    refused: Refused,
) -> Result<(), EditFault>
    ensures same { result ≡ answer }
    ensures desk { state_of desk.new ≡ kept_after answer (λ f. view_refused refused) (state_of desk.old) }
{
    match answer {
        Ok(()) => desk.note_accepted(),
        Err(EditFault::Script(_)) => desk.note_refused(refused),
        Err(_) => {}
    }
    answer
}

/// Notes the result of an edit of a part by what was typed, and returns it. After a fault of the script what was typed is kept.
pub(crate) fn note_part(
    desk: &mut Desk,
    answer: Result<(), EditFault>,
    part: HeldPart,
    typed: Vec<u8>,
) -> Result<(), EditFault>
    ensures same { result ≡ answer }
    ensures desk { state_of desk.new ≡ kept_after answer (PartText (view_held part) typed.items) (state_of desk.old) }
{
    match answer {
        Ok(()) => desk.note_accepted(),
        Err(EditFault::Script(fault)) => desk.note_refused(Refused::Part(part, typed, fault)),
        Err(_) => {}
    }
    answer
}

/// Notes the result of what undoes or redoes an edit, and returns it.
pub(crate) fn note_turn(
    desk: &mut Desk,
    answer: Result<(), HistoryFault>,
) -> Result<(), HistoryFault>
    ensures same { result ≡ answer }
    ensures desk { state_of desk.new ≡ kept_after_turn answer (state_of desk.old) }
{
    if let Ok(()) = answer {
        desk.note_accepted();
    }
    answer
}

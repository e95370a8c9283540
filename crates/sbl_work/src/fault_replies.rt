//! The replies to `faults`.
ghost use Rattle.std.specs.Prelude.{◌≡◌, ℕ, [], IfOk, List, Option, map};
ghost use Rattle.sbl_bench.specs.Contents.{Contents};
ghost use Rattle.sbl_bench.specs.KeptRuns.{contents_of};
ghost use Rattle.sbl_bench.specs.Names.{script_name};
ghost use Rattle.sbl_history.specs.Desks.{State, state_of};
ghost use Rattle.sbl_history.specs.Refused.{view_held, view_refused};
ghost use Rattle.sbl_script.specs.Parts.{view_part};
ghost use Rattle.sbl_text_rows.specs.FaultViews.{view_fault};
ghost use Rattle.sbl_work.specs.Commands as spec;
ghost use Rattle.sbl_work.specs.FaultReplies as listed;
ghost use Rattle.sbl_work.specs.ReplyViews.{IsWorkAnswer, view_file};

use crate::replies::{NO_FILE, edit_reply};
use sbl_bench::{Bench, EditFault, script_name_between};
use sbl_diagnostics::{RefusedText, fault_sentence};
use sbl_history::{Desk, HeldPart, Refused};
use sbl_saving::{ReadFault, read_file};
use sbl_script::Part;
use sbl_sessions::{Reply, report};
use sbl_source_map::{
    PlacedFault, TypedPart, cut_at_part, faults_of_block, faults_of_text, number_of, without_head,
};
use sbl_text::ScriptFault;
use sbl_text_rows::{FaultRow, faults_text};
use std::alloc::{AllocError, Global};
use std::rt::Files;

/// So many faults have a whole sentence, since each needs the script to be read. The others have a short one (our own choice).
const EXPLAINED: usize = 100;

/// Returns the name of a fault.
fn name_of(fault: ScriptFault) -> &'static str
    ensures { result.now ≡ script_name fault }
{
    script_name_between!("", fault, "")
}

/// Returns what the rows of faults have.
fn rows_of(
    alloc: Global,
    refused: RefusedText<'_>,
    faults: &[PlacedFault],
) -> Result<Vec<FaultRow>, AllocError>
    ensures { IfOk result (λ rows. map listed.unsaid (map view_fault rows.items) ≡ map listed.fields_of faults.now) }
{
    let mut rows = Vec::new(alloc);
    for i in 0..faults.len() {
        let PlacedFault { fault, range } = faults[i];
        let begin = match range {
            Some((begin, _)) => Some(begin),
            None => None,
        };
        let sentence = fault_sentence(alloc, refused, fault, begin, i >= EXPLAINED)?;
        rows.push(FaultRow {
            number: number_of(fault),
            name: name_of(fault),
            range,
            sentence,
        })?;
    }
    Ok(rows)
}

/// Returns the rows of these faults of a text.
fn text_of(
    alloc: Global,
    refused: RefusedText<'_>,
    faults: &[PlacedFault],
) -> Result<Vec<u8>, AllocError>
    ensures { IfOk result (λ report. listed.AreRowsOf refused.entry.text.now faults.now report.items) }
{
    let rows = rows_of(alloc, refused, faults)?;
    faults_text(alloc, refused.text, &rows)
}

/// Returns the rows of all faults of a text as a script with this external.
fn script_faults<'x>(
    alloc: Global,
    text: &'x [u8],
    external: &'x str,
) -> Result<Vec<u8>, AllocError>
    ensures { IfOk result (λ report. listed.IsFaultsText text.now external.now report.items) }
{
    let faults = faults_of_text(alloc, text, external)?;
    let refused = RefusedText {
        text,
        part: None,
        script: text,
        external,
    };
    text_of(alloc, refused, &faults)
}

/// Returns one fault that is at no place.
fn alone(alloc: Global, fault: ScriptFault) -> Result<Vec<PlacedFault>, AllocError>
    ensures { IfOk result (λ faults. faults.items ≡ listed.alone fault) }
{
    let mut faults = Vec::new(alloc);
    faults.push(PlacedFault { fault, range: None })?;
    Ok(faults)
}

/// Returns these faults, or this one at no place if there are none.
fn or_alone(
    alloc: Global,
    faults: Vec<PlacedFault>,
    fault: ScriptFault,
) -> Result<Vec<PlacedFault>, AllocError>
    ensures { IfOk result (λ all. all.items ≡ listed.or_alone fault faults.items) }
{
    if faults.is_empty() {
        return alone(alloc, fault);
    }
    Ok(faults)
}

/// Returns all faults of a text that is typed for a part of the script, given the fault with which the edit is refused.
fn typed_faults(
    alloc: Global,
    bench: &Bench,
    part: Part<'_>,
    typed: &str,
    fault: ScriptFault,
) -> Result<Vec<PlacedFault>, AllocError>
    ensures { IfOk result (λ all. listed.AreTypedFaults (contents_of bench.now) (view_part part.entry) typed.now fault all.items) }
{
    let rest = without_head(alloc, part, typed)?;
    let canonical = bench.script().print(alloc)?;
    match cut_at_part(alloc, canonical.as_str(), part)? {
        Some(cut) => {
            let block = TypedPart {
                before: cut.before,
                head: typed.len().saturating_sub(rest.len()),
                block: rest.as_bytes(),
                after: cut.after,
            };
            let all = faults_of_block(alloc, block, bench.script().external(), fault)?;
            or_alone(alloc, all, fault)
        }
        None => alone(alloc, fault),
    }
}

/// Returns the same for bytes, which may be no text.
fn part_faults(
    alloc: Global,
    bench: &Bench,
    part: Part<'_>,
    typed: &[u8],
    fault: ScriptFault,
) -> Result<Vec<PlacedFault>, AllocError>
    ensures { IfOk result (λ all. listed.ArePartFaults (contents_of bench.now) (view_part part.entry) typed.now fault all.items) }
{
    match str::from_utf8(typed) {
        Ok(text) => typed_faults(alloc, bench, part, text, fault),
        Err(_) => faults_of_text(alloc, typed, bench.script().external()),
    }
}

/// Returns the rows of all faults of what is typed for a part of the script.
fn part_text<'x>(
    alloc: Global,
    bench: &'x Bench,
    part: Part<'x>,
    typed: &'x [u8],
    fault: ScriptFault,
) -> Result<Vec<u8>, AllocError>
    ensures { IfOk result (λ report. listed.IsPartText (contents_of bench.now) (view_part part.entry) typed.now fault report.items) }
{
    let all = part_faults(alloc, bench, part, typed, fault)?;
    let script = bench.script().print(alloc)?;
    let refused = RefusedText {
        text: typed,
        part: Some(part),
        script: script.as_bytes(),
        external: bench.script().external(),
    };
    text_of(alloc, refused, &all)
}

/// Returns the row of a text that is too long.
fn long_text(alloc: Global) -> Result<Vec<u8>, AllocError>
    ensures { IfOk result (λ report. listed.AreRowsOf [] (listed.alone ScriptFault.ScriptTooLong) report.items) }
{
    let refused = RefusedText {
        text: b"",
        part: None,
        script: b"",
        external: "",
    };
    let all = alone(alloc, ScriptFault::ScriptTooLong)?;
    text_of(alloc, refused, &all)
}

/// Returns the rows of all faults of a text that was refused.
fn text_of_refused(alloc: Global, bench: &Bench, refused: &Refused) -> Result<Vec<u8>, AllocError>
    ensures { IfOk result (λ report. listed.IsRefusedText (contents_of bench.now) (view_refused refused.now) report.items) }
{
    match refused {
        Refused::Whole(text) => script_faults(alloc, text, bench.script().external()),
        Refused::Part(held, typed, fault) => part_text(alloc, bench, held.part(), typed, *fault),
        Refused::TooLong => long_text(alloc),
    }
}

/// Returns the reply to `faults`.
pub(crate) fn faults_reply(alloc: Global, desk: &Desk, bench: &Bench) -> Reply
    ensures { IsWorkAnswer (contents_of bench.now) (state_of desk.now) spec.Faults result (contents_of bench.now) (state_of desk.now) }
{
    match desk.refused_text() {
        Some(refused) => report(text_of_refused(alloc, bench, refused)),
        None => Reply::Fixed(""),
    }
}

/// Returns the reply to `faults` for a file.
pub(crate) fn file_faults_reply(alloc: Global, bench: &Bench, file: Option<&[u8]>) -> Reply
    ensures { (d : State) → IsWorkAnswer (contents_of bench.now) d (spec.with_file spec.FaultsOf (view_file file.entry)) result (contents_of bench.now) d }
{
    match file {
        Some(bytes) => report(script_faults(alloc, bytes, bench.script().external())),
        None => Reply::Fixed(NO_FILE),
    }
}

/// Reads the file of a `faults`, and returns the reply.
pub(crate) fn faults_by_file<F: Files + AllocGlobal>(
    files: &F,
    alloc: Global,
    bench: &Bench,
    path: &str,
) -> Reply
    ensures { (d : State) → (file : Option (List ℕ)) × IsWorkAnswer (contents_of bench.now) d (spec.with_file spec.FaultsOf file) result (contents_of bench.now) d }
{
    match read_file(files, path) {
        Ok(bytes) => file_faults_reply(alloc, bench, Some(bytes.as_slice())),
        Err(ReadFault::Unreadable) => file_faults_reply(alloc, bench, None),
        Err(ReadFault::OutOfMemory) => edit_reply(Err(EditFault::OutOfMemory)),
    }
}

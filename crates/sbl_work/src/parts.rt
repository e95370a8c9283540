//! The replies to lines with a block.
ghost use Rattle.std.specs.Prelude.{ℕ, List, Some};
ghost use Rattle.sbl_bench.specs.KeptRuns.{contents_of};
ghost use Rattle.sbl_reports.specs.Block.{HoldsText, made_text};
ghost use Rattle.sbl_sessions.specs.CommandViews.{KeepsLine};
ghost use Rattle.sbl_sessions.specs.Commands.{text_of_block};
ghost use Rattle.sbl_work.specs.Answering.{part_edit};
ghost use Rattle.sbl_work.specs.Commands as spec;
ghost use Rattle.sbl_work.specs.Commands.{part_command};
ghost use Rattle.sbl_history.specs.Desks.{State, state_of};
ghost use Rattle.sbl_work.specs.Replies.{ReplacesKept};
ghost use Rattle.sbl_script.specs.Parts.{view_part};
ghost use Rattle.sbl_work.specs.ReplyViews.{Answers, FindsBlock, IsFamiliesAnswer, IsKeptPart, IsPartResult, IsWorkAnswer, NamesText};

use crate::observing::{Attempt, Origin, RefusedSource};
use crate::refusals::{note_part, note_whole};
use crate::replies::{NOT_TEXT, edit_reply};
use crate::requests::BlockRequest;
use sbl_bench::{Bench, BreakOff, EditFault};
use sbl_history::{Desk, HeldPart, Refused};
use sbl_reports::{BlockFault, BlockText, families_text};
use sbl_script::{Part, ScriptFault};
use sbl_sessions::{BAD_COMMAND, Reply, part_of, report};
use sbl_source_map::without_head;
use std::alloc::{AllocError, Global};

/// Returns the text of a block, or the fault of an edit by it.
fn text_of(block: BlockText) -> Result<Vec<u8>, EditFault>
    ensures { (lines : List (List ℕ)) → HoldsText block lines → NamesText result (made_text lines) }
{
    match block.whole() {
        Ok(text) => Ok(text),
        Err(BlockFault::TooLong) => Err(EditFault::Script(ScriptFault::ScriptTooLong)),
        Err(BlockFault::OutOfMemory) => Err(EditFault::OutOfMemory),
    }
}

/// Replaces the whole script by the text of a block. Keeps the text if it has a fault.
fn replace_by<B: BreakOff>(
    attempt: Attempt<'_>,
    desk: &mut Desk,
    bench: &mut Bench,
    block: BlockText,
    break_off: &mut B,
) -> Result<(), EditFault>
    ensures { (lines : List (List ℕ)) → HoldsText block lines → ReplacesKept result (made_text lines) (contents_of bench.old) (state_of desk.old) (contents_of bench.new) (state_of desk.new) }
{
    match text_of(block) {
        Ok(text) => {
            let answer = desk.replace(bench, &text, break_off);
            attempt.note(&text, answer);
            note_whole(desk, answer, Refused::Whole(text))
        }
        Err(fault) => note_whole(desk, Err(fault), Refused::TooLong),
    }
}

/// Replaces a part of the script by a text that may begin as its definition does.
fn replace_part_by<B: BreakOff>(
    alloc: Global,
    desk: &mut Desk,
    bench: &mut Bench,
    part: Part<'_>,
    text: &[u8],
    break_off: &mut B,
) -> Result<(), EditFault>
    ensures { IsPartResult result (view_part part.entry) text.now (contents_of bench.old) (state_of desk.old) (contents_of bench.new) (state_of desk.new) }
{
    let Ok(text) = str::from_utf8(text) else {
        return Err(EditFault::Script(ScriptFault::NotUtf8));
    };
    match without_head(alloc, part, text) {
        Ok(rest) => desk.replace_part(bench, part, rest, break_off),
        Err(_) => Err(EditFault::OutOfMemory),
    }
}

/// Replaces a part of the script by what was typed. Keeps it if it has a fault.
fn replace_part_kept<B: BreakOff>(
    attempt: Attempt<'_>,
    desk: &mut Desk,
    bench: &mut Bench,
    part: Part<'_>,
    typed: Vec<u8>,
    break_off: &mut B,
) -> Result<(), EditFault>
    ensures { IsKeptPart result (view_part part.entry) typed.items (contents_of bench.old) (state_of desk.old) (contents_of bench.new) (state_of desk.new) }
{
    let held = HeldPart::copy_of(attempt.alloc, part)?;
    let answer = replace_part_by(attempt.alloc, desk, bench, part, &typed, break_off);
    attempt.note(&typed, answer);
    note_part(desk, answer, held, typed)
}

/// Makes the edit of a part by a block, and returns the reply.
fn edit_part<B: BreakOff>(
    attempt: Attempt<'_>,
    desk: &mut Desk,
    bench: &mut Bench,
    part: Part<'_>,
    block: BlockText,
    break_off: &mut B,
) -> Reply
    ensures { (lines : List (List ℕ)) → HoldsText block lines → Answers bench.old desk.old (part_command (Some (view_part part.entry)) (made_text lines) (text_of_block lines)) result bench.new desk.new }
{
    match text_of(block) {
        Ok(text) => edit_reply(replace_part_kept(attempt, desk, bench, part, text, break_off)),
        Err(fault) => edit_reply(note_whole(desk, Err(fault), Refused::TooLong)),
    }
}

/// Makes the edit of the part that a line names by a block, and returns the reply. A line that names none is refused.
fn edit_named<B: BreakOff>(
    alloc: Global,
    refused: &mut Option<RefusedSource>,
    desk: &mut Desk,
    bench: &mut Bench,
    line: &str,
    block: BlockText,
    break_off: &mut B,
) -> Reply
    ensures { (lines : List (List ℕ)) → HoldsText block lines → Answers bench.old desk.old (part_edit line.now lines) result bench.new desk.new }
{
    let attempt = Attempt {
        alloc,
        origin: Origin::Block(line),
        refused,
    };
    match part_of(line) {
        Some(part) => edit_part(attempt, desk, bench, part, block, break_off),
        None => Reply::Fixed(BAD_COMMAND),
    }
}

/// Makes the edit that a line and its block ask for, and returns the reply. A bad line is refused, whatever its block is.
fn edit_kept<B: BreakOff>(
    alloc: Global,
    refused: &mut Option<RefusedSource>,
    desk: &mut Desk,
    bench: &mut Bench,
    kept: Result<Option<String>, AllocError>,
    block: BlockText,
    break_off: &mut B,
) -> Reply
    ensures { (line : List ℕ) (lines : List (List ℕ)) → KeepsLine kept line → HoldsText block lines → Answers bench.old desk.old (part_edit line lines) result bench.new desk.new }
{
    match kept {
        Ok(Some(line)) => edit_named(alloc, refused, desk, bench, line.as_str(), block, break_off),
        Ok(None) => Reply::Fixed(BAD_COMMAND),
        Err(_) => edit_reply(Err(EditFault::OutOfMemory)),
    }
}

/// Returns the reply to `families`, for the text of the families.
fn families_text_reply(alloc: Global, bench: &Bench, text: &str) -> Reply
    ensures { (d : State) → IsFamiliesAnswer (contents_of bench.now) d text.now result }
{
    report(families_text(alloc, bench, text))
}

/// Returns the reply to `families`, for the bytes of the families.
pub(crate) fn families_reply(alloc: Global, bench: &Bench, bytes: &[u8]) -> Reply
    ensures { (d : State) → IsWorkAnswer (contents_of bench.now) d (spec.Families bytes.now) result (contents_of bench.now) d }
{
    match str::from_utf8(bytes) {
        Ok(text) => families_text_reply(alloc, bench, text),
        Err(_) => Reply::Fixed(NOT_TEXT),
    }
}

/// Returns the reply to `families`, for a block of families.
fn families_of(alloc: Global, bench: &Bench, block: BlockText) -> Reply
    ensures { (d : State) (lines : List (List ℕ)) → HoldsText block lines → IsWorkAnswer (contents_of bench.now) d (spec.families_command lines) result (contents_of bench.now) d }
{
    match text_of(block) {
        Ok(bytes) => families_reply(alloc, bench, &bytes),
        Err(fault) => edit_reply(Err(fault)),
    }
}

/// Makes the edit or the report that a line asks for with its block, and returns the reply. `request` is what `block_request`
/// returns for the line. `refused` has the text of the block if it is refused.
pub(crate) fn answer_block<B: BreakOff>(
    alloc: Global,
    refused: &mut Option<RefusedSource>,
    desk: &mut Desk,
    bench: &mut Bench,
    request: BlockRequest,
    block: BlockText,
    break_off: &mut B,
) -> Reply
    ensures { (line : List ℕ) (lines : List (List ℕ)) → FindsBlock request line → HoldsText block lines → Answers bench.old desk.old (spec.block_command line lines) result bench.new desk.new }
{
    match request {
        BlockRequest::Part(kept) => edit_kept(alloc, refused, desk, bench, kept, block, break_off),
        BlockRequest::Whole => {
            let attempt = Attempt {
                alloc,
                origin: Origin::Block("replace"),
                refused,
            };
            edit_reply(replace_by(attempt, desk, bench, block, break_off))
        }
        BlockRequest::Families => families_of(alloc, bench, block),
    }
}

//! Files of stems: the mark is set by one, and the stems are written to one.
ghost use Rattle.std.specs.Prelude.{◌≡◌, ℕ, Bool, List, OnErr, OnOk, Option, is_some, length, true};
ghost use Rattle.sbl_bench.specs.KeptRuns.{contents_of};
ghost use Rattle.sbl_history.specs.Desks.{State, state_of};
ghost use Rattle.sbl_io.specs.LinesOf.{lines_of};
ghost use Rattle.sbl_reports.specs.StemLines.{are_text, stems_in};
ghost use Rattle.sbl_rows.specs.StemRows.{rows_with};
ghost use Rattle.sbl_work.specs.Commands as spec;
ghost use Rattle.sbl_work.specs.ReplyViews.{IsWorkAnswer, view_file};

use crate::files::{Paths, approve};
use crate::replies::{LENGTHS_DIFFER, NO_FILE, NOT_TEXT, REFUSED, edit_reply, memory_reply};
use sbl_bench::{Bench, EditFault};
use sbl_history::Desk;
use sbl_reports::{has_stem_lines, stems_in, text_line_count};
use sbl_saving::{ReadFault, SaveFault, read_file};
use sbl_sessions::Reply;
use std::alloc::{AllocError, Global};
use std::rt::Files;

/// Sets the mark to the words of the bench with the stems in the lines of bytes. Returns `AllocError` if an allocation fails; then the
/// desk is unchanged.
fn set_mark(alloc: Global, desk: &mut Desk, bench: &Bench, bytes: &[u8]) -> Result<(), AllocError>
    requires text { are_text (lines_of bytes.now) ≡ true }
    requires count { length (lines_of bytes.now) ≡ length (contents_of bench.now).words }
    ensures marked { OnOk result (state_of desk.new ≡ record (state_of desk.old) { marked = rows_with (contents_of bench.now).words (stems_in bytes.now) }) }
    ensures kept { OnErr result (state_of desk.new ≡ state_of desk.old) }
{
    let stems = stems_in(alloc, bytes)?;
    desk.mark_stems(bench, &stems)
}

/// Returns the reply to `mark`, for the bytes of its file; none if it cannot be read.
#[tactic(auto, using(crate::proofs::StemFileFacts::not_text, crate::proofs::StemFileFacts::other_length, crate::proofs::StemFileFacts::marks))]
pub(crate) fn mark_stems(
    alloc: Global,
    desk: &mut Desk,
    bench: &Bench,
    file: Option<&[u8]>,
) -> Reply
    ensures { IsWorkAnswer (contents_of bench.now) (state_of desk.old) (spec.with_file spec.MarkStems (view_file file.entry)) result (contents_of bench.now) (state_of desk.new) }
{
    let Some(bytes) = file else {
        return Reply::Fixed(NO_FILE);
    };
    let Some(count) = text_line_count(bytes) else {
        return Reply::Fixed(NOT_TEXT);
    };
    if count != bench.len() {
        return Reply::Fixed(LENGTHS_DIFFER);
    }
    memory_reply(set_mark(alloc, desk, bench, bytes))
}

/// Reads the file of a `mark`, and returns the reply.
pub(crate) fn mark_by_file<F: Files + AllocGlobal>(
    files: &F,
    alloc: Global,
    desk: &mut Desk,
    bench: &Bench,
    path: &str,
) -> Reply
    ensures { (file : Option (List ℕ)) × IsWorkAnswer (contents_of bench.now) (state_of desk.old) (spec.with_file spec.MarkStems file) result (contents_of bench.now) (state_of desk.new) }
{
    match read_file(files, path) {
        Ok(bytes) => mark_stems(alloc, desk, bench, Some(bytes.as_slice())),
        Err(ReadFault::Unreadable) => mark_stems(alloc, desk, bench, None),
        Err(ReadFault::OutOfMemory) => edit_reply(Err(EditFault::OutOfMemory)),
    }
}

/// Returns the reply to `approve`, for whether the file was written.
#[tactic(auto, using(crate::proofs::StemFileFacts::no_lines, crate::proofs::StemFileFacts::stems_are_written, crate::proofs::StemFileFacts::stems_are_not_written))]
pub(crate) fn approve_reply(bench: &Bench, is_written: bool) -> Reply
    ensures { (d : State) → IsWorkAnswer (contents_of bench.now) d (spec.Approve is_written) result (contents_of bench.now) d }
{
    if !has_stem_lines(bench) {
        return Reply::Fixed(REFUSED);
    }
    if is_written {
        edit_reply(Ok(()))
    } else {
        Reply::Fixed(NO_FILE)
    }
}

/// Writes the file of an `approve`, and returns the reply.
pub(crate) fn approve_by_file<F: Files + AllocGlobal>(
    files: &F,
    paths: &Paths,
    bench: &Bench,
    path: &str,
) -> Reply
    ensures { (d : State) → (is_written : Bool) × IsWorkAnswer (contents_of bench.now) d (spec.Approve is_written) result (contents_of bench.now) d }
{
    match approve(files, paths, bench, path) {
        Ok(()) => approve_reply(bench, true),
        Err(SaveFault::OutOfMemory) => edit_reply(Err(EditFault::OutOfMemory)),
        Err(_) => approve_reply(bench, false),
    }
}

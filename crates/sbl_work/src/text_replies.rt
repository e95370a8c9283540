//! The replies to `text`, `places`, `tokens` and `hello`.
ghost use Rattle.std.specs.Prelude.{ℕ, List, Option};
ghost use Rattle.sbl_bench.specs.Contents.{Contents};
ghost use Rattle.sbl_bench.specs.KeptRuns.{contents_of};
ghost use Rattle.sbl_history.specs.Desks.{State, state_of};
ghost use Rattle.sbl_text_rows.specs.PlaceRows.{IsPlacesText};
ghost use Rattle.sbl_text_rows.specs.TokenRows.{IsTokensText};
ghost use Rattle.sbl_work.specs.Commands as spec;
ghost use Rattle.sbl_work.specs.ReplyViews.{IsRowsAnswer, IsWorkAnswer, view_file};

use crate::replies::{NO_FILE, NOT_TEXT, edit_reply};
use sbl_bench::{Bench, EditFault};
use sbl_history::Desk;
use sbl_saving::{ReadFault, read_file};
use sbl_script::MAX_SCRIPT;
use sbl_sessions::{Reply, report};
use sbl_text::ScriptFault;
use sbl_text_rows::{places_text, tokens_text};
use std::alloc::Global;
use std::rt::Files;

/// The reply to `hello`: the name of the program, its version, and what it writes with the number of that form.
const HELLO: &str = "voltizug,0.2.0,rows,2\n";

/// Returns the reply to `hello`.
pub(crate) fn hello_reply() -> Reply
    ensures { (s : Contents) (d : State) → IsWorkAnswer s d spec.Hello result s d }
{
    Reply::Fixed(HELLO)
}

/// Returns the reply to `text`.
pub(crate) fn text_reply(desk: &Desk, bench: &Bench) -> Reply
    ensures { IsWorkAnswer (contents_of bench.now) (state_of desk.now) spec.Text result (contents_of bench.now) (state_of desk.now) }
{
    report(desk.text(bench))
}

/// Returns the reply with the tokens of a text.
fn tokens_of(alloc: Global, bytes: &[u8]) -> Reply
    ensures { (s : Contents) (d : State) → IsRowsAnswer IsTokensText bytes.now s d result }
{
    match str::from_utf8(bytes) {
        Ok(text) => report(tokens_text(alloc, text)),
        Err(_) => Reply::Fixed(NOT_TEXT),
    }
}

/// Returns the reply with the places of a text.
fn places_of(alloc: Global, bytes: &[u8]) -> Reply
    ensures { (s : Contents) (d : State) → IsRowsAnswer IsPlacesText bytes.now s d result }
{
    match str::from_utf8(bytes) {
        Ok(text) => report(places_text(alloc, text)),
        Err(_) => Reply::Fixed(NOT_TEXT),
    }
}

/// Returns the reply to `places`.
pub(crate) fn places_reply(alloc: Global, desk: &Desk, bench: &Bench) -> Reply
    ensures { IsWorkAnswer (contents_of bench.now) (state_of desk.now) spec.Places result (contents_of bench.now) (state_of desk.now) }
{
    match desk.text(bench) {
        Ok(text) => places_of(alloc, &text),
        Err(refused) => report(Err(refused)),
    }
}

/// Returns the reply to `tokens`.
pub(crate) fn tokens_reply(alloc: Global, desk: &Desk, bench: &Bench) -> Reply
    ensures { IsWorkAnswer (contents_of bench.now) (state_of desk.now) spec.Tokens result (contents_of bench.now) (state_of desk.now) }
{
    match desk.text(bench) {
        Ok(text) => tokens_of(alloc, &text),
        Err(refused) => report(Err(refused)),
    }
}

/// Returns the reply to `tokens` for a file.
pub(crate) fn file_tokens_reply(alloc: Global, file: Option<&[u8]>) -> Reply
    ensures { (s : Contents) (d : State) → IsWorkAnswer s d (spec.with_file spec.TokensOf (view_file file.entry)) result s d }
{
    let Some(bytes) = file else {
        return Reply::Fixed(NO_FILE);
    };
    if bytes.len() > MAX_SCRIPT {
        return edit_reply(Err(EditFault::Script(ScriptFault::ScriptTooLong)));
    }
    tokens_of(alloc, bytes)
}

/// Reads the file of a `tokens`, and returns the reply.
pub(crate) fn tokens_by_file<F: Files + AllocGlobal>(files: &F, alloc: Global, path: &str) -> Reply
    ensures { (s : Contents) (d : State) → (file : Option (List ℕ)) × IsWorkAnswer s d (spec.with_file spec.TokensOf file) result s d }
{
    match read_file(files, path) {
        Ok(bytes) => file_tokens_reply(alloc, Some(bytes.as_slice())),
        Err(ReadFault::Unreadable) => file_tokens_reply(alloc, None),
        Err(ReadFault::OutOfMemory) => edit_reply(Err(EditFault::OutOfMemory)),
    }
}

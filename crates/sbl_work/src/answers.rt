//! The replies to lines without a block.
ghost use Rattle.std.specs.Prelude.{◌≡◌, IfOk};
ghost use Rattle.std.specs.Str.{chars};
ghost use Rattle.sbl_bench.specs.KeptRuns.{contents_of};
ghost use Rattle.sbl_sessions.specs.{Answers.with_line_feed, Commands.line_command};
ghost use Rattle.sbl_work.specs.Commands as spec;
ghost use Rattle.sbl_history.specs.Desks.{State, state_of};
ghost use Rattle.sbl_history.specs.ChangeReports as reports;
ghost use Rattle.sbl_work.specs.Replies.{ReplacesKept};
ghost use Rattle.sbl_work.specs.ReplyViews.{IsSessionAnswer, IsWorkAnswer, view_file};

use crate::change_replies::{figures_reply, first_changes_reply};
use crate::fault_replies::{faults_reply, file_faults_reply};
use crate::lookups::{counts_reply, find_reply, stem_reply, uses_reply};
use crate::parts::families_reply;
use crate::refusals::{note_turn, note_whole, refused_whole};
use crate::replies::{
    BAD_NUMBER, NO_FILE, NOTHING_TO_APPEND, edit_reply, memory_reply, redo_reply, undo_reply,
};
use crate::requests::{Request, count_in, request_of};
use crate::stem_files::{approve_reply, mark_stems};
use crate::text_replies::{file_tokens_reply, hello_reply, places_reply, text_reply, tokens_reply};
use crate::whys::{integers_reply, why_reply};
use crate::word_files::words_reply;
use sbl_bench::{Bench, BreakOff, EditFault};
use sbl_explain::KeptTakes;
use sbl_history::{Desk, changes_text};
use sbl_reports::{largest_text, stats_text, text_of_lines};
use sbl_sessions::{Reply, answer_line_or_break, report};
use sbl_source_map::definition_text;
use std::alloc::{AllocError, Global};

/// Replaces the whole script by the bytes of a file. Keeps them if they have a fault.
pub(crate) fn replace_by_bytes<B: BreakOff>(
    alloc: Global,
    desk: &mut Desk,
    bench: &mut Bench,
    bytes: &[u8],
    break_off: &mut B,
) -> Result<(), EditFault>
    ensures { ReplacesKept result bytes.now (contents_of bench.old) (state_of desk.old) (contents_of bench.new) (state_of desk.new) }
{
    let Ok(refused) = refused_whole(alloc, bytes) else {
        return Err(EditFault::OutOfMemory);
    };
    let answer = desk.replace(bench, bytes, break_off);
    note_whole(desk, answer, refused)
}

/// Returns the reply to `reload` and to `replace` with a file, for its bytes; none if it cannot be read.
pub(crate) fn reload<B: BreakOff>(
    alloc: Global,
    desk: &mut Desk,
    bench: &mut Bench,
    file: Option<&[u8]>,
    break_off: &mut B,
) -> Reply
    ensures { IsWorkAnswer (contents_of bench.old) (state_of desk.old) (spec.with_file spec.EditWhole (view_file file.entry)) result (contents_of bench.new) (state_of desk.new) }
{
    match file {
        Some(bytes) => edit_reply(replace_by_bytes(alloc, desk, bench, bytes, break_off)),
        None => Reply::Fixed(NO_FILE),
    }
}

/// Returns the reply to `undo`.
fn undo<B: BreakOff>(desk: &mut Desk, bench: &mut Bench, break_off: &mut B) -> Reply
    ensures { IsWorkAnswer (contents_of bench.old) (state_of desk.old) spec.Undo result (contents_of bench.new) (state_of desk.new) }
{
    let answer = desk.undo(bench, break_off);
    undo_reply(note_turn(desk, answer))
}

/// Returns the reply to `redo`.
fn redo<B: BreakOff>(desk: &mut Desk, bench: &mut Bench, break_off: &mut B) -> Reply
    ensures { IsWorkAnswer (contents_of bench.old) (state_of desk.old) spec.Redo result (contents_of bench.new) (state_of desk.new) }
{
    let answer = desk.redo(bench, break_off);
    redo_reply(note_turn(desk, answer))
}

/// Returns the reply to `history`.
fn history(desk: &Desk, bench: &Bench) -> Reply
    ensures { IsWorkAnswer (contents_of bench.now) (state_of desk.now) spec.History result (contents_of bench.now) (state_of desk.now) }
{
    report(desk.history())
}

/// Returns the reply to `mark`.
fn mark(desk: &mut Desk, bench: &Bench) -> Reply
    ensures { IsWorkAnswer (contents_of bench.now) (state_of desk.old) spec.Mark result (contents_of bench.now) (state_of desk.new) }
{
    memory_reply(desk.mark(bench))
}

/// Returns the report of what changed since the mark. Returns `AllocError` if an allocation fails.
fn changes_since_mark(alloc: Global, desk: &Desk, bench: &Bench) -> Result<Vec<u8>, AllocError>
    ensures { IfOk result (λ text. text.items ≡ reports.changes_text (state_of desk.now).marked (contents_of bench.now)) }
{
    let marked = desk.marked_rows()?;
    changes_text(alloc, &marked, bench)
}

/// Returns the reply to `changes`.
fn changes(alloc: Global, desk: &Desk, bench: &Bench) -> Reply
    ensures { IsWorkAnswer (contents_of bench.now) (state_of desk.now) spec.Changes result (contents_of bench.now) (state_of desk.now) }
{
    report(changes_since_mark(alloc, desk, bench))
}

/// Returns the reply to `stats`. The bench keeps its classes in order from then on, if there is memory for it.
fn stats(alloc: Global, bench: &mut Bench) -> Reply
    ensures { (d : State) → IsWorkAnswer (contents_of bench.old) d spec.Stats result (contents_of bench.new) d }
{
    let _kept = bench.keep_classes();
    report(stats_text(alloc, bench))
}

/// Returns the reply to `unused`.
fn unused_reply(alloc: Global, bench: &Bench, kept: &mut KeptTakes) -> Reply
    ensures { (d : State) → IsWorkAnswer (contents_of bench.now) d spec.Unused result (contents_of bench.now) d }
{
    report(kept.unused_text(alloc, bench))
}

/// Returns the reply to `largest`.
fn largest(alloc: Global, bench: &Bench, argument: &str) -> Reply
    ensures { (d : State) → IsWorkAnswer (contents_of bench.now) d (spec.Largest (spec.count_in argument.now)) result (contents_of bench.now) d }
{
    match count_in(argument.as_bytes()) {
        Some(number) => report(largest_text(alloc, bench, number)),
        None => Reply::Fixed(BAD_NUMBER),
    }
}

/// Returns the reply to `families` for a file.
fn families(alloc: Global, bench: &Bench, file: Option<&[u8]>) -> Reply
    ensures { (d : State) → IsWorkAnswer (contents_of bench.now) d (spec.with_file spec.families_in_file (view_file file.entry)) result (contents_of bench.now) d }
{
    let Some(bytes) = file else {
        return Reply::Fixed(NO_FILE);
    };
    match text_of_lines(alloc, bytes) {
        Ok(text) => families_reply(alloc, bench, &text),
        Err(refused) => report(Err(refused)),
    }
}

/// Returns the reply to `why`.
fn why(alloc: Global, bench: &Bench, word: &str) -> Reply
    ensures { (d : State) → IsWorkAnswer (contents_of bench.now) d (spec.Why (chars word.now)) result (contents_of bench.now) d }
{
    why_reply(alloc, bench, word)
}

/// Returns the reply to `integers`.
fn integers(alloc: Global, bench: &Bench, word: &str) -> Reply
    ensures { (d : State) → IsWorkAnswer (contents_of bench.now) d (spec.Integers (chars word.now)) result (contents_of bench.now) d }
{
    integers_reply(alloc, bench, word)
}

/// Returns the reply to `show`.
fn show(alloc: Global, bench: &Bench, name: &str) -> Reply
    ensures { (d : State) → IsWorkAnswer (contents_of bench.now) d (spec.Show name.now) result (contents_of bench.now) d }
{
    match definition_text(alloc, bench.script(), name) {
        Ok(Some(text)) => Reply::Report(text),
        Ok(None) => edit_reply(Err(EditFault::NoRoutine)),
        Err(refused) => report(Err(refused)),
    }
}

/// Returns the reply to `save`.
fn save_reply(bench: &Bench, file: Option<&[u8]>) -> Reply
    ensures { (d : State) → IsWorkAnswer (contents_of bench.now) d (spec.with_file (λ bytes. spec.Saved) (view_file file.entry)) result (contents_of bench.now) d }
{
    match file {
        Some(_) => edit_reply(Ok(())),
        None => Reply::Fixed(NO_FILE),
    }
}

/// Returns the reply to `append`, for the lines that were put at the end of the file.
fn append_reply(bench: &Bench, file: Option<&[u8]>) -> Reply
    ensures { (d : State) → IsWorkAnswer (contents_of bench.now) d (spec.with_file spec.append_command (view_file file.entry)) result (contents_of bench.now) d }
{
    match file {
        Some([]) => Reply::Fixed(NOTHING_TO_APPEND),
        Some([_, ..]) => edit_reply(Ok(())),
        None => Reply::Fixed(NO_FILE),
    }
}

/// Returns a text and a line feed.
fn echo_text(alloc: Global, text: &[u8]) -> Result<Vec<u8>, AllocError>
    ensures { IfOk result (λ line. line.items ≡ with_line_feed text.now) }
{
    let mut line = Vec::from_slice(alloc, text)?;
    line.extend_from_slice(b"\n")?;
    Ok(line)
}

/// Returns the reply to `echo`.
fn echo(alloc: Global, bench: &Bench, text: &[u8]) -> Reply
    ensures { (d : State) → IsWorkAnswer (contents_of bench.now) d (spec.Echo text.now) result (contents_of bench.now) d }
{
    report(echo_text(alloc, text))
}

/// Makes the edit or the report of a session that a line without a block asks for, and returns the reply. `break_off` is asked only if
/// `may_break` is true.
fn session_reply<B: BreakOff>(
    alloc: Global,
    bench: &mut Bench,
    line: &[u8],
    may_break: bool,
    break_off: &mut B,
) -> Reply
    ensures { IsSessionAnswer may_break (contents_of bench.old) (line_command line.now) result (contents_of bench.new) }
{
    if may_break {
        answer_line_or_break(alloc, bench, line, break_off)
    } else {
        sbl_sessions::answer_line(alloc, bench, line)
    }
}

/// Makes the edit or the report of a session that a line without a block asks for, and returns the reply. If the edit changed the
/// limit, the desk remembers the limit before.
fn session<B: BreakOff>(
    alloc: Global,
    desk: &mut Desk,
    bench: &mut Bench,
    line: &[u8],
    break_off: &mut B,
) -> Reply
    ensures { IsWorkAnswer (contents_of bench.old) (state_of desk.old) (spec.Session (line_command line.now)) result (contents_of bench.new) (state_of desk.new) }
{
    let before = bench.limit();
    let reply = session_reply(alloc, bench, line, desk.may_break(), break_off);
    desk.note_limit(bench, before);
    reply
}

/// Makes the edit or the report that a line without a block asks for, and returns the reply.
///
/// `file` has the bytes of the file that the line needs: of the script's for `reload`, of that of the words for `words`, of the one that
/// `replace`, `families`, `mark`, `tokens` or `faults` names. It is `None` if the file could not be read. For `save` and `approve` it has any bytes if the file was written, and for `append` the lines
/// that were put at the file's end; it is `None` if the file was not written. Other commands do not look at it.
///
/// If an allocation fails, the reply is `no 49 OutOfMemory`. If an edit is broken off, since the desk allows it and `break_off` says so
/// before one of its runs, it is `no 68 BrokenOff`.
pub(crate) fn answer_line<B: BreakOff>(
    alloc: Global,
    desk: &mut Desk,
    bench: &mut Bench,
    kept: &mut KeptTakes,
    line: &[u8],
    file: Option<&[u8]>,
    break_off: &mut B,
) -> Reply
    ensures { IsWorkAnswer (contents_of bench.old) (state_of desk.old) (spec.alone_command (view_file file.entry) line.now) result (contents_of bench.new) (state_of desk.new) }
{
    match request_of(line) {
        Request::Comment => Reply::Fixed(""),
        Request::Reload => reload(alloc, desk, bench, file, break_off),
        Request::Undo => undo(desk, bench, break_off),
        Request::Redo => redo(desk, bench, break_off),
        Request::History => history(desk, bench),
        Request::Mark => mark(desk, bench),
        Request::MarkStems(_) => mark_stems(alloc, desk, bench, file),
        Request::Approve(_) => approve_reply(bench, file.is_some()),
        Request::Words => words_reply(alloc, desk, bench, file, break_off),
        Request::Changes => changes(alloc, desk, bench),
        Request::FirstChanges(argument) => first_changes_reply(alloc, desk, bench, argument),
        Request::Figures => figures_reply(alloc, desk, bench),
        Request::Stats => stats(alloc, bench),
        Request::Unused => unused_reply(alloc, bench, kept),
        Request::Largest(argument) => largest(alloc, bench, argument),
        Request::Families(_) => families(alloc, bench, file),
        Request::Replace(_) => reload(alloc, desk, bench, file, break_off),
        Request::Why(word) => why(alloc, bench, word),
        Request::Integers(word) => integers(alloc, bench, word),
        Request::Uses(text) => uses_reply(alloc, bench, kept, text),
        Request::Counts => counts_reply(alloc, bench, kept),
        Request::Find(text) => find_reply(alloc, bench, text),
        Request::Stem(text) => stem_reply(alloc, bench, text),
        Request::Show(name) => show(alloc, bench, name),
        Request::Save(_) => save_reply(bench, file),
        Request::Append(_) => append_reply(bench, file),
        Request::Echo(text) => echo(alloc, bench, text),
        Request::Help => Reply::Fixed(""),
        Request::Text => text_reply(desk, bench),
        Request::Places => places_reply(alloc, desk, bench),
        Request::Tokens => tokens_reply(alloc, desk, bench),
        Request::TokensOf(_) => file_tokens_reply(alloc, file),
        Request::Faults => faults_reply(alloc, desk, bench),
        Request::FaultsOf(_) => file_faults_reply(alloc, bench, file),
        Request::Hello => hello_reply(),
        Request::Session => session(alloc, desk, bench, line, break_off),
    }
}

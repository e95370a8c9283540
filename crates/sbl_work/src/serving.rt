//! Work: each request gets its reply before the next line is read.

ghost use Rattle.std.specs.Io.KnownBytes.{Appends};
ghost use Rattle.std.specs.Prelude.{◌≡◌, ◌≤◌, ℕ, List, IfErr, IfOk, None, OnOk, take};
ghost use Rattle.sbl_bench.specs.KeptRuns.{contents_of};
ghost use Rattle.sbl_io.specs.Devices.{HasStopped, WritesInTime};
ghost use Rattle.sbl_io.specs.HeldInput.{KeepsTime, Reading};
ghost use Rattle.sbl_sessions.specs.{CommandViews.IsReply, Session.Ends};
ghost use Rattle.sbl_history.specs.Desks.{state_of};
ghost use Rattle.sbl_work.specs.Answering.{AnswersLine, BreaksLine, Works, WorksOnBench};
ghost use Rattle.sbl_work.specs.Commands.{alone_command};
ghost use Rattle.sbl_work.specs.ReplyViews.{IsFileAnswer, IsWorkAnswer, view_file};
ghost use Rattle.sbl_work.specs.Serving as serving;
ghost use Rattle.sbl_work.specs.Serving.{with_prompt};
ghost use Rattle.sbl_work.specs.WholeWork.{WorksOver, status_of};

use crate::answers::answer_line;
use crate::appending::Added;
use crate::fault_replies::faults_by_file;
use crate::files::{OpenFault, Paths, Texts, append, open, save};
use crate::folder::Folder;
use crate::observing::{Observer, RefusedSource};
use crate::parts::answer_block;
use crate::replies::edit_reply;
use crate::requests::{Request, block_request, is_quit, request_of};
use crate::script_files::replace_by_file;
use crate::stem_files::{approve_by_file, mark_by_file};
use crate::stopping::StopFile;
use crate::text_replies::tokens_by_file;
use crate::word_files::words_by_file;
use sbl_bench::{Bench, EditFault};
use sbl_explain::KeptTakes;
use sbl_history::Desk;
use sbl_input::LoadFault;
use sbl_io::{Lines, ServeFault, Sink, Source, write_all};
use sbl_reports::read_block;
use sbl_saving::{ReadFault, SaveFault, read_file};
use sbl_sessions::{Reply, write_reply};
use std::alloc::Global;
use std::hash::RandomState;
use std::mem::{forget, replace};
use std::rt::Files;

/// What is written before each line is read, if work is done at a terminal.
const PROMPT: &[u8] = b"> ";

/// What is written if an allocation fails for the line that says why there is no desk.
const NO_MEMORY: &[u8] = b"snowbench: 49 OutOfMemory\n";

/// Writes the text of the current script to a file.
fn save_text<F: Files + AllocGlobal>(
    folder: &mut Folder<'_, F>,
    desk: &Desk,
    bench: &Bench,
    path: &str,
) -> Result<(), SaveFault> {
    let text = desk.text(bench)?;
    save(folder.files, folder.paths, &mut folder.seen, path, text)
}

/// Makes the edit or the report that a line without a block asks for, with what its file has, and returns the reply.
fn answer_with<F: Files + AllocGlobal>(
    folder: &mut Folder<'_, F>,
    desk: &mut Desk,
    bench: &mut Bench,
    line: &[u8],
    file: Option<&[u8]>,
) -> Reply
    ensures { IsWorkAnswer (contents_of bench.old) (state_of desk.old) (alone_command (view_file file.entry) line.now) result (contents_of bench.new) (state_of desk.new) }
{
    let mut stop = StopFile::new(folder.files, folder.paths);
    answer_line(
        folder.files.alloc(),
        desk,
        bench,
        &mut folder.kept,
        line,
        file,
        &mut stop,
    )
}

/// Makes the edit or the report that a line without a block asks for, and returns the reply.
fn answer_alone<F: Files + AllocGlobal>(
    folder: &mut Folder<'_, F>,
    desk: &mut Desk,
    bench: &mut Bench,
    line: &[u8],
) -> Reply
    ensures { IsFileAnswer (contents_of bench.old) (state_of desk.old) line.now result (contents_of bench.new) (state_of desk.new) }
{
    let files = folder.files;
    let paths = folder.paths;
    let alloc = files.alloc();
    match request_of(line) {
        Request::Reload => replace_by_file(folder, desk, bench, paths.script.as_str()),
        Request::Families(path) => match read_file(files, path) {
            Ok(bytes) => answer_with(folder, desk, bench, line, Some(bytes.as_slice())),
            Err(ReadFault::Unreadable) => answer_with(folder, desk, bench, line, None),
            Err(ReadFault::OutOfMemory) => edit_reply(Err(EditFault::OutOfMemory)),
        },
        Request::Save(path) => match save_text(folder, desk, bench, path) {
            Ok(()) => answer_with(folder, desk, bench, line, Some(b"".as_slice())),
            Err(SaveFault::OutOfMemory) => edit_reply(Err(EditFault::OutOfMemory)),
            Err(_) => answer_with(folder, desk, bench, line, None),
        },
        Request::Append(path) => match append(folder, bench, path) {
            Ok(lines) => answer_with(folder, desk, bench, line, Some(lines.as_slice())),
            Err(SaveFault::OutOfMemory) => edit_reply(Err(EditFault::OutOfMemory)),
            Err(_) => answer_with(folder, desk, bench, line, None),
        },
        Request::Replace(path) => replace_by_file(folder, desk, bench, path),
        Request::MarkStems(path) => mark_by_file(files, alloc, desk, bench, path),
        Request::Approve(path) => approve_by_file(files, paths, bench, path),
        Request::Words => words_by_file(folder, desk, bench),
        Request::TokensOf(path) => tokens_by_file(files, alloc, path),
        Request::FaultsOf(path) => faults_by_file(files, alloc, bench, path),
        _ => answer_with(folder, desk, bench, line, None),
    }
}

/// Makes the edit or the report that the current line asks for, with the block after it if it asks for one, and returns the
/// reply. If the block is not read to its end, makes no edit and returns the fault.
fn answer<F: Files + AllocGlobal, R: Source + Drop>(
    folder: &mut Folder<'_, F>,
    desk: &mut Desk,
    bench: &mut Bench,
    lines: &mut Lines<R>,
) -> Result<Reply, ServeFault>
    requires ready { lines.old.fault ≡ None }
    ensures answered { IfOk result (λ reply. AnswersLine R.left lines.old lines.new bench.old desk.old reply bench.new desk.new) }
    ensures broken { IfErr result (λ fault. BreaksLine R.left lines.old lines.new bench.old desk.old bench.new desk.new fault) }
    ensures reading { Reading R.left R.tally lines.old lines.new result }
{
    match block_request(lines.alloc(), lines.line()) {
        None => {
            let line = lines.line();
            let before = bench.len();
            let is_of_start = folder.added.is_of_start(bench, line);
            let reply = answer_alone(folder, desk, bench, line);
            folder.added.note_answered(bench, before, is_of_start);
            Ok(reply)
        }
        Some(request) => {
            let block = read_block(lines)?;
            let mut stop = StopFile::new(folder.files, folder.paths);
            Ok(answer_block(
                lines.alloc(),
                &mut folder.refused,
                desk,
                bench,
                request,
                block,
                &mut stop,
            ))
        }
    }
}

/// Writes a reply, tells `observer` of the text that was refused, and writes the prompt after it. Returns `Write` if the writer fails or
/// is interrupted more than 1,000 times in a row; then a prefix of the reply and the prompt is written.
fn write_prompted<W: Sink, S: Observer>(
    writer: &mut W,
    reply: &Reply,
    prompt: &[u8],
    bench: &Bench,
    refused: Option<RefusedSource>,
    observer: &mut S,
) -> Result<(), ServeFault>
    ensures all { OnOk result ((text : List ℕ) → IsReply reply.now text → Appends (W.held writer.old) (W.held writer.new) (with_prompt prompt.now text)) }
    ensures prefix { (text : List ℕ) → IsReply reply.now text → (n : ℕ) × Appends (W.held writer.old) (W.held writer.new) (take n (with_prompt prompt.now text)) }
    ensures later { (W.tally writer.old).failures ≤ (W.tally writer.new).failures }
    ensures steady { OnOk result ((W.tally writer.new).failures ≡ (W.tally writer.old).failures) }
    ensures why { IfErr result (λ fault. (fault ≡ ServeFault.Write) × HasStopped W.tally writer.old writer.new) }
    ensures in_time { WritesInTime W.tally writer.old writer.new }
    ensures rested { OnOk result ((W.tally writer.old).interruptions ≡ 0 → (W.tally writer.new).interruptions ≡ 0) }
{
    write_reply(writer, reply)?;
    if let Some(refused) = &refused {
        observer.see_refused(bench, refused);
    }
    write_all(writer, prompt)
}

/// Replies to each request of the input in turn, up to `quit` or the end of input. Before each line the prompt is written; the
/// reply to a request is written before the next line is read.
///
/// Returns `Read` if the reader fails or a bound on reads or interruptions is reached, `Write` if the writer fails or is
/// interrupted more than 1,000 times in a row, `LineTooLong` at a line of more than 65,536 bytes, and `Cut` if the input ends
/// inside a block. The requests before the fault have their replies. After `Write` the edit of the current request is made, and a
/// prefix of its reply and of the prompt after it is written.
fn serve<F: Files + AllocGlobal, R: Source + Drop, W: Sink, S: Observer>(
    folder: &mut Folder<'_, F>,
    desk: &mut Desk,
    bench: &mut Bench,
    prompt: &[u8],
    lines: &mut Lines<R>,
    writer: &mut W,
    observer: &mut S,
) -> Result<(), ServeFault>
    ensures work { lines.old.fault ≡ None → Works R.left W.held prompt.now lines.old lines.new writer.old writer.new bench.old desk.old bench.new desk.new result }
    ensures ends { Ends R.tally W.tally lines.old lines.new writer.old writer.new result }
    ensures reads_in_time { KeepsTime R.tally lines.old lines.new }
    ensures writes_in_time { WritesInTime W.tally writer.old writer.new }
{
    write_all(writer, prompt)?;
    while lines.next_line()? {
        if is_quit(lines.line()) {
            return Ok(());
        }
        let reply = answer(folder, desk, bench, lines)?;
        let refused = replace(&mut folder.refused, None);
        write_prompted(writer, &reply, prompt, bench, refused, observer)?;
    }
    Ok(())
}

/// Writes why there is no desk.
fn write_fault<E: Sink>(alloc: Global, errors: &mut E, fault: &OpenFault)
    ensures { WritesInTime E.tally errors.old errors.new }
{
    let line = match fault {
        OpenFault::File(path, error) => format!(in alloc; "snowbench: {path}: {error}\n"),
        OpenFault::Script(fault, _) => format!(in alloc; "snowbench: {fault}\n"),
        OpenFault::Load(fault) => format!(in alloc; "snowbench: {fault}\n"),
    };
    // The status reports the fault even if its line cannot be written.
    let _ = match line {
        Ok(line) => write_all(errors, line.as_bytes()),
        Err(_) => write_all(errors, NO_MEMORY),
    };
}

/// Replies to each request of the input in turn over the bench of a script and its words, up to `quit` or the end of input. The script
/// was read from this text. Edits may be broken off if `may_break` is true.
fn serve_bench<F: Files + AllocGlobal, R: Source + Drop, W: Sink, S: Observer>(
    folder: &mut Folder<'_, F>,
    bench: &mut Bench,
    text: Vec<u8>,
    may_break: bool,
    prompt: &[u8],
    lines: &mut Lines<R>,
    writer: &mut W,
    observer: &mut S,
) -> Result<(), ServeFault>
    ensures works { lines.old.fault ≡ None → WorksOnBench R.left R.tally W.held W.tally may_break text.items prompt.now lines.old lines.new writer.old writer.new bench.old result }
    ensures reads_in_time { KeepsTime R.tally lines.old lines.new }
    ensures writes_in_time { WritesInTime W.tally writer.old writer.new }
{
    let mut desk = Desk::new(lines.alloc(), bench, text, may_break)?;
    let served = serve(folder, &mut desk, bench, prompt, lines, writer, observer);
    // As of the bench: the program ends, and no destructor of a desk need be proved here.
    forget(desk);
    served
}

/// Returns what is written before each line is read.
fn prompt_of(prompts: bool) -> &'static [u8]
    ensures { result.now ≡ serving.prompt_of prompts }
{
    if prompts { PROMPT } else { b"".as_slice() }
}

/// Opens the bench of the files, and replies to each request of the input in turn, up to `quit` or the end of input.
fn work_on<F: Files + AllocGlobal, R: Source + Drop, W: Sink, S: Observer>(
    files: &F,
    keys: RandomState,
    paths: &Paths,
    prompt: &[u8],
    lines: &mut Lines<R>,
    writer: &mut W,
    observer: &mut S,
) -> Result<(), OpenFault>
    ensures works { lines.old.fault ≡ None → WorksOver R.left R.tally W.held W.tally paths.now prompt.now lines.old lines.new writer.old writer.new (status_of result) }
    ensures reads_in_time { KeepsTime R.tally lines.old lines.new }
    ensures writes_in_time { WritesInTime W.tally writer.old writer.new }
{
    let (mut bench, texts) = open(files, keys, paths)?;
    let Texts { text, seen } = texts;
    let added = Added::new(files.alloc(), bench.len());
    let mut folder = Folder {
        files,
        paths,
        seen,
        added,
        kept: KeptTakes::new(files.alloc()),
        refused: None,
    };
    let served = serve_bench(
        &mut folder,
        &mut bench,
        text,
        paths.stop.is_some(),
        prompt,
        lines,
        writer,
        observer,
    );
    // The program ends, so the system takes the memory back: no destructor of a script need be proved here.
    forget(folder);
    bench.leak();
    match served {
        Ok(()) => Ok(()),
        Err(fault) => Err(OpenFault::Load(LoadFault::Input(fault))),
    }
}

/// Works on the files of a script and of words: replies to each request of the input in turn, up to `quit` or the end of input.
/// What follows a line `quit` is not answered. Returns the exit status: 0, or 1 after a fault, which is one line in `errors`;
/// without a fault nothing is written there. Before each line a prompt is written if `prompts` is true. The keys are those of the
/// hash by which words are found, as in `WordKeys::new`.
///
/// Edits may be broken off if `paths` has a file for it: see `Paths::stop`.
///
/// If a file cannot be read or has a fault, or an allocation for it fails, no line is read and nothing is written to `writer`.
///
/// Tells `observer` of each text of the script that is refused. What `observer` does has no part in the work.
pub fn work<F: Files + AllocGlobal, R: Source + Drop, W: Sink, E: Sink, S: Observer>(
    files: &F,
    keys: RandomState,
    paths: &Paths,
    prompts: bool,
    lines: &mut Lines<R>,
    writer: &mut W,
    errors: &mut E,
    observer: &mut S,
) -> u8
    ensures works { lines.old.fault ≡ None → WorksOver R.left R.tally W.held W.tally paths.now (serving.prompt_of prompts) lines.old lines.new writer.old writer.new result }
    ensures quiet { result ≡ 0 → E.held errors.new ≡ E.held errors.old }
    ensures status { result ≤ 1 }
    ensures reads_in_time { KeepsTime R.tally lines.old lines.new }
    ensures writes_in_time { WritesInTime W.tally writer.old writer.new }
    ensures errors_in_time { WritesInTime E.tally errors.old errors.new }
{
    match work_on(
        files,
        keys,
        paths,
        prompt_of(prompts),
        lines,
        writer,
        observer,
    ) {
        Ok(()) => 0,
        Err(fault) => {
            write_fault(lines.alloc(), errors, &fault);
            if let OpenFault::Script(_, text) = &fault {
                observer.see_start(text);
            }
            1
        }
    }
}

//! The file of words, which is read again.
ghost use Rattle.std.specs.Prelude.{ℕ, List, Option, map};
ghost use Rattle.sbl_bench.specs.{Edits.Words, KeptRuns.contents_of};
ghost use Rattle.sbl_history.specs.Desks.{state_of};
ghost use Rattle.sbl_history.specs.MayBreak.{EditsOrBreaksIf};
ghost use Rattle.sbl_sessions.specs.CommandViews.{IsReply};
ghost use Rattle.sbl_work.specs.Commands as spec;
ghost use Rattle.sbl_work.specs.Replies.{RereadsWords, words_text};
ghost use Rattle.sbl_work.specs.ReplyViews.{IsWorkAnswer, view_file};

use crate::folder::Folder;
use crate::replies::{NO_FILE, NOT_TEXT, edit_reply};
use crate::stopping::StopFile;
use sbl_bench::{Bench, BreakOff, EditFault};
use sbl_history::Desk;
use sbl_input::{LoadFault, words_in};
use sbl_io::ServeFault;
use sbl_saving::{ReadFault, read_file};
use sbl_sessions::Reply;
use std::alloc::Global;
use std::rt::Files;

/// Replaces the vocabulary by these words. `break_off` is asked only if `may_break` is true.
fn replace_words<B: BreakOff>(
    bench: &mut Bench,
    words: &[Vec<char>],
    may_break: bool,
    break_off: &mut B,
) -> Result<(), EditFault>
    ensures { EditsOrBreaksIf may_break result (contents_of bench.old) (Words (map (λ w. w.items) words.now)) (contents_of bench.new) }
{
    if may_break {
        bench.replace_words_or_break(words, break_off)
    } else {
        bench.replace_words(words)
    }
}

/// Replaces the vocabulary by the words in the lines of bytes. `break_off` is asked only if `may_break` is true.
fn reread_words<B: BreakOff>(
    alloc: Global,
    bench: &mut Bench,
    bytes: &[u8],
    may_break: bool,
    break_off: &mut B,
) -> Result<(), LoadFault>
    ensures { RereadsWords may_break result bytes.now (contents_of bench.old) (contents_of bench.new) }
{
    let words = words_in(alloc, bytes)?;
    match replace_words(bench, &words, may_break, break_off) {
        Ok(()) => Ok(()),
        Err(fault) => Err(LoadFault::Open(fault)),
    }
}

/// Returns the reply to `words`, for what came of its words.
fn reread_reply(answer: Result<(), LoadFault>) -> Reply
    ensures { IsReply result (words_text answer) }
{
    match answer {
        Ok(()) => edit_reply(Ok(())),
        Err(LoadFault::Open(fault)) => edit_reply(Err(fault)),
        Err(LoadFault::Input(ServeFault::NotText)) => Reply::Fixed(NOT_TEXT),
        Err(LoadFault::Input(ServeFault::LineTooLong)) => edit_reply(Err(EditFault::WordTooLong)),
        Err(_) => edit_reply(Err(EditFault::OutOfMemory)),
    }
}

/// Returns the reply to `words`, for the bytes of the file of words; none if it cannot be read.
pub(crate) fn words_reply<B: BreakOff>(
    alloc: Global,
    desk: &Desk,
    bench: &mut Bench,
    file: Option<&[u8]>,
    break_off: &mut B,
) -> Reply
    ensures { IsWorkAnswer (contents_of bench.old) (state_of desk.now) (spec.with_file spec.Words (view_file file.entry)) result (contents_of bench.new) (state_of desk.now) }
{
    let Some(bytes) = file else {
        return Reply::Fixed(NO_FILE);
    };
    reread_reply(reread_words(alloc, bench, bytes, desk.may_break(), break_off))
}

/// Reads the file of words again, and returns the reply to `words`. Notes that no word is added then.
pub(crate) fn words_by_file<F: Files + AllocGlobal>(
    folder: &mut Folder<'_, F>,
    desk: &Desk,
    bench: &mut Bench,
) -> Reply
    ensures { (file : Option (List ℕ)) × IsWorkAnswer (contents_of bench.old) (state_of desk.now) (spec.with_file spec.Words file) result (contents_of bench.new) (state_of desk.now) }
{
    let files = folder.files;
    let paths = folder.paths;
    let alloc = files.alloc();
    let mut stop = StopFile::new(files, paths);
    let Some(path) = &paths.words else {
        return words_reply(alloc, desk, bench, None, &mut stop);
    };
    match read_file(files, path.as_str()) {
        Ok(bytes) => {
            let answer = reread_words(alloc, bench, &bytes, desk.may_break(), &mut stop);
            if answer.is_ok() {
                folder.added.note_read(bench.len());
            }
            reread_reply(answer)
        }
        Err(ReadFault::Unreadable) => words_reply(alloc, desk, bench, None, &mut stop),
        Err(ReadFault::OutOfMemory) => edit_reply(Err(EditFault::OutOfMemory)),
    }
}

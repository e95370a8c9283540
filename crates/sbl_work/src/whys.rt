//! The reports of a run of a word.
ghost use Rattle.std.specs.Prelude.{◌≡◌, ◌⊎◌, IfOk, MatchResult, Some};
ghost use Rattle.std.specs.Str.{chars};
ghost use Rattle.sbl_bench.specs.KeptRuns.{contents_of};
ghost use Rattle.sbl_sessions.specs.Answers.{edit_text};
ghost use Rattle.sbl_sessions.specs.CommandViews.{IsReply};
ghost use Rattle.sbl_work.specs.Replies.{integers_reply_text, why_reply_text};

use crate::replies::edit_reply;
use sbl_bench::{Bench, EditFault};
use sbl_explain::{integers_text, why_text};
use sbl_sessions::Reply;
use std::alloc::{AllocError, Global};

/// Returns the characters of a text. Returns `AllocError` if an allocation fails.
pub(crate) fn characters_of(alloc: Global, text: &str) -> Result<Vec<char>, AllocError>
    ensures { IfOk result (λ characters. characters.items ≡ chars text.now) }
{
    let mut characters = Vec::with_capacity(alloc, text.chars().count())?;
    characters.extend(text.chars())?;
    Ok(characters)
}

/// Returns the reply with the rows on a run of a word, or with the fault of the word.
fn rows_reply(rows: Result<Vec<u8>, EditFault>) -> Reply
    ensures { MatchResult rows (λ text. IsReply result text.items) (λ fault. IsReply result (edit_text (Some fault))) }
{
    match rows {
        Ok(text) => Reply::Report(text),
        Err(fault) => edit_reply(Err(fault)),
    }
}

/// Returns the reply to `why`: the rows that tell why a word has its stem.
pub(crate) fn why_reply(alloc: Global, bench: &Bench, word: &str) -> Reply
    ensures { IsReply result (why_reply_text (contents_of bench.now) (chars word.now)) ⊎ IsReply result (edit_text (Some EditFault.OutOfMemory)) }
{
    match characters_of(alloc, word) {
        Ok(characters) => rows_reply(why_text(alloc, bench, &characters)),
        Err(_) => edit_reply(Err(EditFault::OutOfMemory)),
    }
}

/// Returns the reply to `integers`: the rows of the steps of a run and of the integer variables at its end.
pub(crate) fn integers_reply(alloc: Global, bench: &Bench, word: &str) -> Reply
    ensures { IsReply result (integers_reply_text (contents_of bench.now) (chars word.now)) ⊎ IsReply result (edit_text (Some EditFault.OutOfMemory)) }
{
    match characters_of(alloc, word) {
        Ok(characters) => rows_reply(integers_text(alloc, bench, &characters)),
        Err(_) => edit_reply(Err(EditFault::OutOfMemory)),
    }
}

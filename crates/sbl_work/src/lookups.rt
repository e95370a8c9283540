//! The replies to `uses`, `counts`, `find` and `stem`.
ghost use Rattle.std.specs.Prelude.{◌≡◌, ◌⊎◌, Err, MatchOption, Some, false, true};
ghost use Rattle.std.specs.Option.{option_map_or};
ghost use Rattle.std.specs.Str.{chars};
ghost use Rattle.sbl_bench.specs.KeptRuns.{contents_of};
ghost use Rattle.sbl_uses.specs.Uses.{OfString, question_of};
ghost use Rattle.sbl_sessions.specs.Answers.{edit_text};
ghost use Rattle.sbl_sessions.specs.CommandViews.{IsReply};
ghost use Rattle.sbl_sessions.specs.Commands.{Bad};
ghost use Rattle.sbl_sessions.specs.Words.{argument, command_word};
ghost use Rattle.sbl_work.specs.Commands as spec;
ghost use Rattle.sbl_work.specs.Questions.{among_question, has_space};
ghost use Rattle.sbl_work.specs.Replies.{stem_reply_text, users_or_fault, uses_reply_text};
ghost use Rattle.sbl_history.specs.Desks.{State};
ghost use Rattle.sbl_work.specs.ReplyViews.{IsWorkAnswer};

use crate::replies::{NO_CLASS, NO_STRING, edit_reply};
use crate::whys::characters_of;
use sbl_bench::{Bench, EditFault};
use sbl_explain::KeptTakes;
use sbl_reports::{found_text, stem_text};
use sbl_sessions::{BAD_COMMAND, Reply, number_in, report};
use sbl_uses::{Question, UsesFault};
use std::alloc::Global;

/// Returns the text before the first space of another one, and the text after that space if there is one.
fn split_at_space(text: &str) -> (&str, Option<&str>)
    ensures head { result.0.now ≡ command_word text.now }
    ensures rest { MatchOption result.1 (has_space text.now ≡ false) (λ rest. (has_space text.now ≡ true) × (rest.now ≡ argument text.now)) }
{
    match text.split_once(' ') {
        Some((head, rest)) => (head, Some(rest)),
        None => (text, None),
    }
}

/// Returns the reply that there is no such part.
fn fault_reply(fault: UsesFault) -> Reply
    ensures { IsReply result (users_or_fault (Err fault)) }
{
    match fault {
        UsesFault::NoRoutine => edit_reply(Err(EditFault::NoRoutine)),
        UsesFault::NoAmong => edit_reply(Err(EditFault::NoAmong)),
        UsesFault::NoString => Reply::Fixed(NO_STRING),
        UsesFault::OutOfMemory => edit_reply(Err(EditFault::OutOfMemory)),
    }
}

/// Returns the reply with the words that use a part of the script, or with why there is no such part.
fn users_reply(alloc: Global, bench: &Bench, kept: &mut KeptTakes, question: Question<'_>) -> Reply
    ensures { IsReply result (uses_reply_text (contents_of bench.now) (question_of question.entry)) ⊎ IsReply result (edit_text (Some EditFault.OutOfMemory)) }
{
    match kept.uses_text(alloc, bench, question) {
        Ok(text) => Reply::Report(text),
        Err(fault) => fault_reply(fault),
    }
}

/// Returns the reply with the words that use a string of an among.
fn string_users_reply(
    alloc: Global,
    bench: &Bench,
    kept: &mut KeptTakes,
    name: &str,
    number: u64,
    string: &str,
) -> Reply
    ensures { (d : State) → IsWorkAnswer (contents_of bench.now) d (spec.Uses (OfString name.now number (chars string.now))) result (contents_of bench.now) d }
{
    match characters_of(alloc, string) {
        Ok(characters) => {
            let question = Question::OfString(name, number, &characters);
            users_reply(alloc, bench, kept, question)
        }
        Err(_) => edit_reply(Err(EditFault::OutOfMemory)),
    }
}

/// Returns the reply with the words that use an among, or a string of it, given the text after the name and a space.
fn among_users_reply(
    alloc: Global,
    bench: &Bench,
    kept: &mut KeptTakes,
    name: &str,
    text: &str,
) -> Reply
    ensures { (d : State) → IsWorkAnswer (contents_of bench.now) d (option_map_or spec.Uses (among_question name.now text.now) (spec.Session Bad)) result (contents_of bench.now) d }
{
    let (digits, string) = split_at_space(text);
    let Some(number) = number_in(digits.as_bytes()) else {
        return Reply::Fixed(BAD_COMMAND);
    };
    match string {
        Some(string) => string_users_reply(alloc, bench, kept, name, number, string),
        None => users_reply(alloc, bench, kept, Question::OfAmong(name, number)),
    }
}

/// Returns the reply to `uses`.
pub(crate) fn uses_reply(alloc: Global, bench: &Bench, kept: &mut KeptTakes, text: &str) -> Reply
    ensures { (d : State) → IsWorkAnswer (contents_of bench.now) d (spec.uses_command text.now) result (contents_of bench.now) d }
{
    let (name, rest) = split_at_space(text);
    if name.is_empty() {
        return Reply::Fixed(BAD_COMMAND);
    }
    match rest {
        Some(rest) => among_users_reply(alloc, bench, kept, name, rest),
        None => users_reply(alloc, bench, kept, Question::OfName(name)),
    }
}

/// Returns the reply to `counts`.
pub(crate) fn counts_reply(alloc: Global, bench: &Bench, kept: &mut KeptTakes) -> Reply
    ensures { (d : State) → IsWorkAnswer (contents_of bench.now) d spec.Counts result (contents_of bench.now) d }
{
    report(kept.counts_text(alloc, bench))
}

/// Returns the reply to `find`.
pub(crate) fn find_reply(alloc: Global, bench: &Bench, text: &str) -> Reply
    ensures { (d : State) → IsWorkAnswer (contents_of bench.now) d (spec.find_command text.now) result (contents_of bench.now) d }
{
    if text.is_empty() {
        return Reply::Fixed(BAD_COMMAND);
    }
    match characters_of(alloc, text) {
        Ok(characters) => report(found_text(alloc, bench, &characters)),
        Err(_) => edit_reply(Err(EditFault::OutOfMemory)),
    }
}

/// Returns the reply with the class of a stem.
fn class_reply(alloc: Global, bench: &Bench, stem: &[char]) -> Reply
    ensures { IsReply result (stem_reply_text (contents_of bench.now) stem.now) ⊎ IsReply result (edit_text (Some EditFault.OutOfMemory)) }
{
    match stem_text(alloc, bench, stem) {
        Ok(Some(text)) => Reply::Report(text),
        Ok(None) => Reply::Fixed(NO_CLASS),
        Err(_) => edit_reply(Err(EditFault::OutOfMemory)),
    }
}

/// Returns the reply to `stem`. The bench keeps its classes in order from then on, if there is memory for it.
pub(crate) fn stem_reply(alloc: Global, bench: &mut Bench, text: &str) -> Reply
    ensures { (d : State) → IsWorkAnswer (contents_of bench.old) d (spec.Stem (chars text.now)) result (contents_of bench.new) d }
{
    let _kept = bench.keep_classes();
    match characters_of(alloc, text) {
        Ok(characters) => class_reply(alloc, bench, &characters),
        Err(_) => edit_reply(Err(EditFault::OutOfMemory)),
    }
}

//! The commands of work.
ghost use Rattle.std.specs.Prelude.{◌≡◌, ℕ, List, MatchOption, Option, codes, false};
ghost use Rattle.std.specs.Str.{bytes_eq};
ghost use Rattle.sbl_sessions.specs.Words as words;
ghost use Rattle.sbl_work.specs.Commands as spec;
ghost use Rattle.sbl_work.specs.ReplyViews.{FindsBlock, view_request};

use sbl_sessions::{asks_block, keep_line, number_in};
use std::alloc::{AllocError, Global};

/// What a line without a block asks for.
#[derive(Debug, Drop)]
pub(crate) enum Request<'a> {
    /// Nothing: the line is a comment.
    Comment,
    /// Replaces the whole script by what its file has now.
    Reload,
    /// Undoes an edit.
    Undo,
    /// Redoes an edit.
    Redo,
    /// Reports the edits that can be undone and redone.
    History,
    /// Writes the script to a file.
    Save(&'a str),
    /// Puts the words that were added at the end of a file; of the file of words if the name is empty.
    Append(&'a str),
    /// Sets the mark.
    Mark,
    /// Sets the mark to the words with the stems of a file.
    MarkStems(&'a str),
    /// Writes the stems to a file.
    Approve(&'a str),
    /// Replaces the vocabulary by what its file has now.
    Words,
    /// Reports what differs from the mark.
    Changes,
    /// Reports the first changes of each kind from the mark.
    FirstChanges(&'a str),
    /// Reports how many changes of each kind there are from the mark.
    Figures,
    /// Reports figures of the rows and classes.
    Stats,
    /// Reports the largest classes.
    Largest(&'a str),
    /// Reports on the families of a file.
    Families(&'a str),
    /// Replaces the whole script by what a file has.
    Replace(&'a str),
    /// Reports why a word has its stem.
    Why(&'a str),
    /// Reports the steps of a run of a word and the integer variables at its end.
    Integers(&'a str),
    /// Reports what no word uses.
    Unused,
    /// Reports the words that use a part of the script.
    Uses(&'a str),
    /// Reports how many words use each part of the script.
    Counts,
    /// Reports the rows that contain a text.
    Find(&'a str),
    /// Reports the class of a stem.
    Stem(&'a str),
    /// Reports a definition.
    Show(&'a str),
    /// Reports the text of the script.
    Text,
    /// Reports where everything is in that text.
    Places,
    /// Reports the tokens of that text.
    Tokens,
    /// Reports the tokens of a file.
    TokensOf(&'a str),
    /// Reports all faults of the text that was refused last.
    Faults,
    /// Reports all faults of a file.
    FaultsOf(&'a str),
    /// Reports the name and the version of the program.
    Hello,
    /// Writes a text.
    Echo(&'a [u8]),
    /// Reports nothing.
    Help,
    /// A request of a session without a block.
    Session,
}

/// What a line with a block asks for.
#[derive(Debug, Drop)]
pub(crate) enum BlockRequest {
    /// Replaces the part of the script that the line names; none if the line is bad, or an allocation for it failed.
    Part(Result<Option<String>, AllocError>),
    /// Replaces the whole script.
    Whole,
    /// Reports on families.
    Families,
}

/// Whether a line ends the work.
pub(crate) fn is_quit(line: &[u8]) -> bool
    ensures { result ≡ bytes_eq line.now spec.quit_line }
{
    line == b"quit".as_slice()
}

/// Returns the command word of a line and the bytes after the first space.
fn split(line: &[u8]) -> (&[u8], &[u8])
    ensures word { result.0.now ≡ words.command_word line.now }
    ensures argument { result.1.now ≡ words.argument line.now }
{
    for i in 0..line.len() {
        if line[i] == b' ' {
            return (&line[..i], &line[i + 1..]);
        }
    }
    (line, &[])
}

/// Returns what a line asks for with the block after it; `None` if no block follows the line.
pub(crate) fn block_request(alloc: Global, line: &[u8]) -> Option<BlockRequest>
    ensures { MatchOption result (spec.asks_work_block line.now ≡ false) (λ request. FindsBlock request line.now) }
{
    if asks_block(line) {
        return Some(BlockRequest::Part(keep_line(alloc, line)));
    }
    if line == b"replace".as_slice() {
        return Some(BlockRequest::Whole);
    }
    if line == b"families".as_slice() {
        return Some(BlockRequest::Families);
    }
    None
}

/// Whether a line begins with `#`.
fn is_comment(line: &[u8]) -> bool
    ensures { result ≡ spec.is_comment line.now }
{
    if line.is_empty() {
        return false;
    }
    line[0] == b'#'
}

/// Returns what a line without a block asks for.
pub(crate) fn request_of(line: &[u8]) -> Request<'_>
    ensures { (file : Option (List ℕ)) → view_request file line.now result ≡ spec.alone_command file line.now }
{
    if is_comment(line) {
        return Request::Comment;
    }
    match str::from_utf8(line) {
        Ok(text) => line_request(text),
        Err(_) => Request::Session,
    }
}

/// Returns what a line that is UTF-8 and no comment asks for.
fn line_request(line: &str) -> Request<'_>
    ensures { (file : Option (List ℕ)) → view_request file line.now result ≡ spec.utf8_command file line.now }
{
    let (word, argument) = split(line.as_bytes());
    if word == b"echo".as_slice() {
        return Request::Echo(argument);
    }
    text_request(line)
}

/// Returns what a line asks for that is no comment and no `echo`.
fn text_request(line: &str) -> Request<'_>
    ensures { (file : Option (List ℕ)) → view_request file line.now result ≡ spec.text_command file line.now }
{
    match line {
        "reload" => Request::Reload,
        "undo" => Request::Undo,
        "redo" => Request::Redo,
        "history" => Request::History,
        "mark" => Request::Mark,
        "words" => Request::Words,
        "changes" => Request::Changes,
        "stats" => Request::Stats,
        "unused" => Request::Unused,
        "counts" => Request::Counts,
        "help" => Request::Help,
        "text" => Request::Text,
        "places" => Request::Places,
        "tokens" => Request::Tokens,
        "faults" => Request::Faults,
        "hello" => Request::Hello,
        "figures" => Request::Figures,
        _ => word_request(line),
    }
}

/// Returns the text of a line before its first space, and the text after that space.
fn split_text(line: &str) -> (&str, &str)
    ensures word { result.0.now ≡ words.command_word line.now }
    ensures argument { result.1.now ≡ words.argument line.now }
{
    line.split_once(' ').unwrap_or((line, ""))
}

/// Returns what a line that is UTF-8 asks for by its command word.
fn word_request(line: &str) -> Request<'_>
    ensures { (file : Option (List ℕ)) → view_request file line.now result ≡ spec.word_command file line.now }
{
    let (word, argument) = split_text(line);
    match word {
        "largest" => Request::Largest(argument),
        "families" => Request::Families(argument),
        "replace" => Request::Replace(argument),
        "why" | "events" => Request::Why(argument),
        "integers" => Request::Integers(argument),
        "uses" => Request::Uses(argument),
        "find" => Request::Find(argument),
        "stem" => Request::Stem(argument),
        "show" => Request::Show(argument),
        "save" => Request::Save(argument),
        "append" => Request::Append(argument),
        "mark" => mark_request(argument),
        "approve" => Request::Approve(argument),
        "tokens" => Request::TokensOf(argument),
        "changes" => Request::FirstChanges(argument),
        "faults" => Request::FaultsOf(argument),
        _ => Request::Session,
    }
}

/// Returns what `mark` asks for with a file; without its name the line is bad.
fn mark_request(path: &str) -> Request<'_>
    ensures { (file : Option (List ℕ)) (line : List ℕ) → words.argument line ≡ path.now → view_request file line result ≡ spec.mark_command file line }
{
    if path.is_empty() {
        Request::Session
    } else {
        Request::MarkStems(path)
    }
}

/// Returns the number above 0 that decimal digits write, and `usize::MAX` for each larger number; `None` if the bytes are not
/// decimal digits or the number is 0.
pub(crate) fn count_in(digits: &[u8]) -> Option<usize>
    ensures { result ≡ spec.count_in digits.now }
{
    match number_in(digits)? {
        0 => None,
        number => Some(number as usize),
    }
}

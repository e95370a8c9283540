//! The commands of a session.
ghost use Rattle.std.specs.Prelude.{◌≡◌};
ghost use Rattle.std.specs.Option.{option_map, unwrap_or};
ghost use Rattle.sbl_bench.specs.Edits as edits;
ghost use Rattle.sbl_ast.specs.NamedParts.{Among};
ghost use Rattle.sbl_script.specs.Parts.{view_part};
ghost use Rattle.sbl_sessions.specs.Commands as spec;
ghost use Rattle.sbl_sessions.specs.Requests as requests;
ghost use Rattle.sbl_sessions.specs.Words as words;
ghost use Rattle.sbl_sessions.specs.CommandViews.{KeepsLine};
ghost use Rattle.sbl_sessions.specs.inside.SessionParts as inside;
ghost use Rattle.sbl_sessions.specs.inside.RequestViews.{view_command};
ghost use Rattle.sbl_sessions.specs.Numbers as numbers;

use sbl_script::Part;
use std::alloc::{AllocError, Global};

/// The command on a line that no block follows, with the word or the number that it is about.
#[derive(Debug, Drop)]
pub(crate) enum Command<'a> {
    /// No command: the line is empty.
    Nothing,
    Add(&'a str),
    Remove(&'a str),
    Limit(u64),
    /// `limit` with an argument that is not a number.
    HasNoNumber,
    Class(&'a str),
    Trace(&'a str),
    Stems,
    Classes,
    Script,
    Runs,
    Bad,
}

/// Returns the command of a line. The command word ends at the first space, and the rest after it is the argument (our own
/// choice).
pub(crate) fn command_of(line: &[u8]) -> Command<'_>
    ensures { view_command result ≡ spec.line_command line.now }
{
    if line.is_empty() {
        return Command::Nothing;
    }
    match str::from_utf8(line) {
        Ok(text) => text_command(text),
        Err(_) => Command::Bad,
    }
}

/// Returns the command of a line that is UTF-8.
fn text_command(text: &str) -> Command<'_>
    ensures { view_command result ≡ inside.tested_command text.now }
{
    let (word, argument) = match text.split_once(' ') {
        Some((word, argument)) => (word, argument),
        None => (text, ""),
    };
    match word {
        "add" => Command::Add(argument),
        "remove" => Command::Remove(argument),
        "class" => Command::Class(argument),
        "trace" => Command::Trace(argument),
        "limit" => limit_command(argument),
        _ => match text {
            "stems" => Command::Stems,
            "classes" => Command::Classes,
            "script" => Command::Script,
            "runs" => Command::Runs,
            _ => Command::Bad,
        },
    }
}

/// Returns the command that sets the limit of steps to the number in the argument.
fn limit_command(argument: &str) -> Command<'static>
    ensures { view_command result ≡ spec.Makes (edits.Limit (unwrap_or (numbers.number_in argument.now) 0)) }
{
    match number_in(argument.as_bytes()) {
        Some(number) => Command::Limit(number),
        None => Command::HasNoNumber,
    }
}

/// Returns the part that a command word and its argument name, if a block follows that word: `routine NAME`, `among NAME K` or
/// `grouping NAME`. The inner `None` is for an argument that is not a name, a space and a number after `among`.
fn part_by<'a>(word: &[u8], argument: &'a str) -> Option<Option<Part<'a>>>
    ensures { option_map (λ part. option_map view_part part) result ≡ option_map (λ names. names argument.now) (requests.block_word word.now) }
{
    if word == b"routine".as_slice() {
        return Some(Some(Part::Routine(argument)));
    }
    if word == b"among".as_slice() {
        return Some(among_by(argument));
    }
    if word == b"grouping".as_slice() {
        return Some(Some(Part::Grouping(argument)));
    }
    None
}

fn among_by(argument: &str) -> Option<Part<'_>>
    ensures { option_map view_part result ≡ option_map (Among (words.command_word argument.now)) (numbers.number_in (words.argument argument.now)) }
{
    let (name, digits) = argument.split_once(' ')?;
    let k = number_in(digits.as_bytes())?;
    Some(Part::Among(name, k))
}

/// Whether a block follows the line, whatever else the line contains.
pub fn asks_block(line: &[u8]) -> bool
    ensures { result ≡ requests.asks_block line.now }
{
    part_by(command_word(line), "").is_some()
}

/// Returns the part that a line names whose block replaces it; `None` if no block follows the line or its argument is bad.
pub fn part_of(line: &str) -> Option<Part<'_>>
    ensures { option_map view_part result ≡ spec.target_of line.now }
{
    part_by(command_word(line.as_bytes()), argument_of(line))?
}

/// Returns a copy of a line that names a part, for the time in which its block is read; `None` if the line is bad: it is not
/// UTF-8, or names no part. Does not allocate for a bad line.
pub fn keep_line(alloc: Global, line: &[u8]) -> Result<Option<String>, AllocError>
    ensures { KeepsLine result line.now }
{
    let Ok(line) = str::from_utf8(line) else {
        return Ok(None);
    };
    match part_of(line) {
        Some(_) => Ok(Some(String::from_str(alloc, line)?)),
        None => Ok(None),
    }
}

/// Returns the number that one or more decimal digits write, and `u64::MAX` for each larger number; `None` if the bytes are not
/// one or more decimal digits.
pub fn number_in(digits: &[u8]) -> Option<u64>
    ensures { result ≡ numbers.number_in digits.now }
{
    if digits.is_empty() {
        return None;
    }
    let mut number: u64 = 0;
    for i in 0..digits.len() {
        if !digits[i].is_ascii_digit() {
            return None;
        }
        number = number
            .saturating_mul(10)
            .saturating_add(u64::from(digits[i] - b'0'));
    }
    Some(number)
}

/// Returns the argument of a line: the text after its first space.
fn argument_of(line: &str) -> &str
    ensures { result.now ≡ words.argument line.now }
{
    match line.split_once(' ') {
        Some((_, argument)) => argument,
        None => "",
    }
}

/// Returns the command word of a line: the bytes before its first space.
fn command_word(line: &[u8]) -> &[u8]
    ensures { result.now ≡ words.command_word line.now }
{
    for i in 0..line.len() {
        if line[i] == b' ' {
            return &line[..i];
        }
    }
    line
}

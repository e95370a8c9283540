//! Tests of sessions whose input is cut after each of its bytes, or read in pieces of every size.

use crate::calls::benches::{Session, leaves};
use std::alloc::{AllocError, Global};
use std::process::Abort;
use std::test::Fail;
use test_support::{PLURALS, PREFIXES, field};

/// Lines after a script block: words up to a line `.`, and then commands, with the block of one.
const LINES: &str = "cats|boxes|cakes|cake|dog|.|classes|runs|routine last|true|.|classes|runs";

/// The number of lines, of those up to the end of the words, and of those up to the end of the edit.
const COUNT: usize = 13;

const WORDS: usize = 6;

const EDITS: usize = 11;

/// For each line after the words the length from which on its beginning is no bad command, and the reply to it, after `!` the fault of an
/// input that ends in it. Only the beginnings of reports and edits are bad commands.
const REPLIES: &[(usize, &str)] = &[
    (7, "box,boxes\ncak,cake,cakes\ncat,cats\ndog,dog\n"),
    (4, "5\n"),
    (7, "!73 Cut"),
    (0, "!73 Cut"),
    (0, "ok\n"),
    (7, "box,boxes\ncake,cake,cakes\ncat,cats\ndog,dog\n"),
    (4, "7\n"),
];

/// Returns the input up to this line: the script, a line `.`, and the lines before it.
fn input_to(alloc: Global, count: usize) -> Result<Vec<u8>, AllocError> {
    let mut input = Vec::from_slice(alloc, PLURALS.as_bytes())?;
    input.extend_from_slice(b"\n.\n")?;
    for line in LINES.split('|').take(count) {
        input.extend_from_slice(line.as_bytes())?;
        input.push(b'\n')?;
    }
    Ok(input)
}

/// Returns the replies to the lines before this one, of which no input ends.
fn replies_to(alloc: Global, count: usize) -> Result<Vec<u8>, AllocError> {
    let mut text = Vec::new(alloc);
    for (_, reply) in REPLIES.iter().take(count.saturating_sub(WORDS)) {
        if !reply.starts_with('!') {
            text.extend_from_slice(reply.as_bytes())?;
        }
    }
    Ok(text)
}

/// The stems of those words, and beginnings of words, that are not their own: a final `s` is deleted, `es` after an `x`, and then an `e`.
const STEMS: &[(&str, &str)] = &[
    ("cats", "cat"),
    ("boxe", "box"),
    ("boxes", "box"),
    ("cake", "cak"),
    ("cakes", "cak"),
];

/// Returns the row of a word.
fn row_of(alloc: Global, word: &str) -> Result<String, AllocError> {
    let mut stem = word;
    for (other, its) in STEMS {
        if *other == word {
            stem = its;
        }
    }
    format!(in alloc; "{word},stem,{stem}\n")
}

/// Returns the rows of the words in the lines before this one, and of this beginning of it.
fn rows_to(alloc: Global, count: usize, last: &str) -> Result<Vec<u8>, AllocError> {
    let mut rows = Vec::new(alloc);
    for word in LINES.split('|').take(count) {
        rows.extend_from_slice(row_of(alloc, word)?.as_bytes())?;
    }
    if last != "." {
        rows.extend_from_slice(row_of(alloc, last)?.as_bytes())?;
    }
    Ok(rows)
}

/// A session over the first bytes of an input, that never stops.
fn session_over<'a>(input: &'a [u8], asked: &'a [u8]) -> Session<'a> {
    Session {
        input,
        piece: 64,
        read: 0,
        write: 0,
        asked,
    }
}

// The last line of the block is its line `.`, which needs no line feed.
#[test]
fn a_script_block_that_is_cut_makes_no_bench(rt: HostRuntime) -> Result<(), Fail> {
    let input = input_to(rt.alloc(), 0)?;
    for bytes in 0..input.len().saturating_sub(1) {
        let session = session_over(&input[..bytes], b"stems\n");
        leaves(&rt, rt.alloc(), session, b"!73 Cut", b"")?;
    }
    for bytes in input.len().saturating_sub(1)..input.len() {
        let session = session_over(&input[..bytes], b"runs\n");
        leaves(&rt, rt.alloc(), session, b"", b"0\n")?;
    }
    Ok(())
}

/// Asserts what a session leaves whose input ends after this many bytes of a line of the words.
fn word_ends(
    rt: &impl Abort,
    alloc: Global,
    number: usize,
    length: usize,
    last: &str,
) -> Result<(), Fail> {
    let rows = rows_to(alloc, number, last)?;
    let input = input_to(alloc, WORDS)?;
    let begin = input_to(alloc, number)?.len();
    let end = begin.saturating_add(length).min(input.len());
    let session = session_over(&input[..end], b"stems\n");
    leaves(rt, alloc, session, b"", &rows)
}

#[test]
fn words_may_end_at_each_byte(rt: HostRuntime) -> Result<(), Fail> {
    for (number, line) in LINES.split('|').take(WORDS).enumerate() {
        // the line feed ends the line, too
        for length in 1..line.len().saturating_add(2) {
            let last = line.get(..length).unwrap_or(line);
            word_ends(&rt, rt.alloc(), number, length, last)?;
        }
    }
    Ok(())
}

/// Returns the reply to these first bytes of a line. `class` alone asks for the class of the empty word, which is not there.
fn reply_to(number: usize, length: usize) -> &'static str {
    let line = field(LINES, number);
    let (least, reply) = REPLIES[number.saturating_sub(WORDS).min(REPLIES.len() - 1)];
    if length >= least {
        reply
    } else if line.get(..length) == Some("class") {
        "no 41 Absent\n"
    } else {
        "no 52 BadCommand\n"
    }
}

/// Asserts what a session leaves whose input ends after this many bytes of a line, and that its bench shows this.
fn command_ends(
    rt: &impl Abort,
    alloc: Global,
    number: usize,
    length: usize,
    shown: &[u8],
) -> Result<(), Fail> {
    let mut text = replies_to(alloc, number)?;
    text.extend_from_slice(reply_to(number, length).as_bytes())?;
    let input = input_to(alloc, COUNT)?;
    let begin = input_to(alloc, number)?.len();
    let end = begin.saturating_add(length).min(input.len());
    let session = session_over(&input[..end], b"classes\nruns\n");
    leaves(rt, alloc, session, &text, shown)
}

/// What the bench shows before the edit, and after it.
const BEFORE: &[u8] = b"box,boxes\ncak,cake,cakes\ncat,cats\ndog,dog\n5\n";

const AFTER: &[u8] = b"box,boxes\ncake,cake,cakes\ncat,cats\ndog,dog\n7\n";

#[test]
fn commands_may_end_at_each_byte(rt: HostRuntime) -> Result<(), Fail> {
    for number in WORDS..COUNT {
        let shown = if number < EDITS - 1 { BEFORE } else { AFTER };
        // the line feed ends the line, too
        for length in 1..field(LINES, number).len().saturating_add(2) {
            command_ends(&rt, rt.alloc(), number, length, shown)?;
        }
    }
    Ok(())
}

/// Asserts what a session leaves, if its input is read in pieces of every size.
fn pieces_leave(
    rt: &impl Abort,
    alloc: Global,
    input: &[u8],
    text: &[u8],
    shown: &[u8],
) -> Result<(), Fail> {
    for size in 0..input.len() {
        let mut session = session_over(input, b"classes\nruns\n");
        session.piece = size.saturating_add(1);
        leaves(rt, alloc, session, text, shown)?;
    }
    Ok(())
}

#[test]
fn sessions_may_be_read_in_pieces_of_every_size(rt: HostRuntime) -> Result<(), Fail> {
    let alloc = rt.alloc();
    let input = input_to(alloc, COUNT)?;
    let text = replies_to(alloc, COUNT)?;
    pieces_leave(&rt, alloc, &input, &text, AFTER)?;
    let input = format!(in alloc; "{PREFIXES}\n.\n.\nadd undo\nadd redo\nstems\n")?;
    let text = b"ok\nok\nundo,stem,do\nredo,stem,do\n";
    pieces_leave(&rt, alloc, input.as_bytes(), text, b"do,redo,undo\n2\n")
}

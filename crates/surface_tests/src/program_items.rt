//! snowbench: what the words of a command line want, and what the program does.

use crate::common::{PREFIXES, field, field_lines, number};
use snowbench::{Device, Lines, NoWatch, Verb, Wanted, WordKeys, read_words, run, run_with};
use std::alloc::{AllocError, Global};
use std::process::Abort;
use std::test::Fail;

/// The words of a line.
fn words_of(alloc: Global, line: &str) -> Result<Vec<String>, AllocError> {
    let mut words = Vec::new(alloc);
    for word in line.split_whitespace() {
        words.push(String::from_str(alloc, word)?)?;
    }
    Ok(words)
}

/// What a line wants, `None` if it is refused.
fn wanted_by(alloc: Global, line: &str) -> Result<Option<Wanted>, AllocError> {
    let words = words_of(alloc, line)?;
    let wanted: Result<Wanted, clap::Error> = read_words(alloc, &words);
    Ok(wanted.ok())
}

/// A verb as a word.
fn verb_text(verb: Verb) -> &'static str {
    match verb {
        Verb::Session => "session",
        Verb::Stem => "stem",
        Verb::Check => "check",
        _ => "another",
    }
}

/// A line, and the verb and the external that it wants.
const LINES: &str = "snowbench session|session stem
snowbench stem --external=x|stem x
snowbench check --external go|check go
snowbench|refused
snowbench --help|refused
snowbench stem stem|refused";

/// What a line wants, or that it is refused.
fn wanted_text(alloc: Global, line: &str) -> Result<String, AllocError> {
    match wanted_by(alloc, line)? {
        Some(wanted) => {
            let Wanted { verb, external, .. } = &wanted;
            format!(in alloc; "{} {external}", verb_text(*verb))
        }
        None => String::from_str(alloc, "refused"),
    }
}

#[test]
fn words_want_a_verb_and_an_external(rt: HostRuntime) -> Result<(), Fail> {
    for row in LINES.split('\n') {
        let shown = wanted_text(rt.alloc(), field(row, 0))?;
        assert!(rt; shown.as_str() == field(row, 1), "{row}");
    }
    Ok(())
}

/// What a run of the program wrote, its status, and its fault line.
#[derive(Drop)]
struct Ended {
    text: Vec<u8>,
    status: u8,
    errors: Vec<u8>,
}

/// Runs the program.
fn run_over(alloc: Global, wanted: &Wanted, input: &[u8]) -> Ended {
    let mut text = Vec::new(alloc);
    let mut errors = Vec::new(alloc);
    let status = run(
        alloc,
        wanted,
        Device::new(input),
        &mut Device::new(&mut text),
        &mut Device::new(&mut errors),
    );
    Ended {
        text,
        status,
        errors,
    }
}

/// Runs the program over lines, with keys.
fn run_over_lines(alloc: Global, wanted: &Wanted, input: &[u8]) -> Result<Ended, AllocError> {
    let mut text = Vec::new(alloc);
    let mut errors = Vec::new(alloc);
    let mut lines = Lines::new(alloc, Device::new(input))?;
    let status = run_with(
        wanted,
        WordKeys::constant(),
        &mut lines,
        &mut Device::new(&mut text),
        &mut Device::new(&mut errors),
        &mut NoWatch {},
    );
    Ok(Ended {
        text,
        status,
        errors,
    })
}

/// A command line, what follows the script, the status, what is written, and the fault line.
const RUNS: &str = "snowbench stem|¶.¶undo¶redo¶.¶|0|undo,stem,do¶redo,stem,do¶|
snowbench session|¶.¶.¶add undo¶add redo¶stems¶|0|ok¶ok¶undo,stem,do¶redo,stem,do¶|
snowbench check|¶.¶undo¶do¶.¶do¶da¶|1|2,do,da,do¶|
snowbench check|¶.¶undo¶do¶.¶do¶da¶x¶|1|2,do,da,do¶|snowbench: 74 LengthsDiffer¶
snowbench session| 'ab¶.¶|1||snowbench: 2 UnclosedString at 75¶
snowbench stem --external go|¶.¶|1||snowbench: 21 NoExternal¶";

/// Asserts what a run of the program gives, over a reader and over lines.
fn gives(rt: &impl Abort, alloc: Global, row: &str) -> Result<(), Fail> {
    let input = format!(in alloc; "{PREFIXES}{}", field_lines(alloc, row, 1)?)?;
    let wanted = wanted_by(alloc, field(row, 0))?.expect(rt, "a line that is not refused");
    is_of_row(rt, alloc, row, &run_over(alloc, &wanted, input.as_bytes()))?;
    let ended = run_over_lines(alloc, &wanted, input.as_bytes())?;
    is_of_row(rt, alloc, row, &ended)
}

/// Asserts that a run gave what its row has.
fn is_of_row(rt: &impl Abort, alloc: Global, row: &str, ended: &Ended) -> Result<(), Fail> {
    let text = field_lines(alloc, row, 3)?;
    let errors = field_lines(alloc, row, 4)?;
    assert!(rt; u32::from(ended.status) == number(row, 2), "{row}");
    assert!(rt; ended.text.as_slice() == text.as_bytes(), "{row}");
    assert!(rt; ended.errors.as_slice() == errors.as_bytes(), "{row}");
    Ok(())
}

#[test]
fn the_program_runs(rt: HostRuntime) -> Result<(), Fail> {
    for row in RUNS.split('\n') {
        gives(&rt, rt.alloc(), row)?;
    }
    Ok(())
}

//! Tests of the whole program with a reader and writers in memory. tests/cases has more of them.

use snowbench::{Device, Lines, NoWatch, Options, Verb, Wanted, WordKeys, run, run_with};
use std::alloc::{AllocError, Global};
use std::hash::RandomState;
use std::process::Abort;
use std::test::Fail;
use test_support::{Pieces, SameBytes, bytes_of, field, in_pieces, number, with_scripts};

/// Returns a writer in memory that takes four bytes at each write and fails at write `fails_at` (0 for never).
fn writer(alloc: Global, fails_at: u64) -> Device<Pieces<Vec<u8>>> {
    Device::new(in_pieces(Vec::new(alloc), 4, fails_at, 0))
}

/// Returns the verb of a word.
fn verb_of(word: &str) -> Verb {
    match word {
        "session" => Verb::Session,
        "stem" => Verb::Stem,
        "filter" => Verb::Filter,
        "check" => Verb::Check,
        "compare" => Verb::Compare,
        _ => Verb::Work,
    }
}

/// Returns what a verb and its external, with a space between them, ask for.
fn wanted_of(alloc: Global, words: &str) -> Result<Wanted, AllocError> {
    let (verb, external) = words.split_once(' ').unwrap_or((words, ""));
    Ok(Wanted {
        verb: verb_of(verb),
        external: String::from_str(alloc, external)?,
        options: Options {
            script: None,
            old: None,
            new: None,
            words: None,
            commands: None,
            stems: None,
            is_strict: false,
            shows_places: false,
            face: None,
            from: None,
            stop: None,
            form: None,
        },
    })
}

/// What a run of the program wrote, its status, and what it wrote to the writer of faults.
#[derive(Drop)]
struct RunReport {
    text: Vec<u8>,
    status: u8,
    errors: Vec<u8>,
}

/// Runs a subcommand over an input. The writer of faults fails at write `fails_at` (0 for never).
fn run_of(alloc: Global, words: &str, input: &[u8], fails_at: u64) -> Result<RunReport, Fail> {
    let mut text = writer(alloc, 0);
    let mut errors = writer(alloc, fails_at);
    let reader = Device::new(in_pieces(input, 16, 0, 0));
    let wanted = wanted_of(alloc, words)?;
    let status = run(alloc, &wanted, reader, &mut text, &mut errors);
    Ok(RunReport {
        text: text.into_inner().inner,
        status,
        errors: errors.into_inner().inner,
    })
}

/// The same over lines, with keys.
fn run_with_keys(
    alloc: Global,
    words: &str,
    input: &[u8],
    fails_at: u64,
) -> Result<RunReport, Fail> {
    let keys = WordKeys::new(RandomState::new(&SameBytes)?);
    let mut text = writer(alloc, 0);
    let mut errors = writer(alloc, fails_at);
    let mut lines = Lines::new(alloc, Device::new(in_pieces(input, 16, 0, 0)))?;
    let wanted = wanted_of(alloc, words)?;
    let status = run_with(
        &wanted,
        keys,
        &mut lines,
        &mut text,
        &mut errors,
        &mut NoWatch {},
    );
    Ok(RunReport {
        text: text.into_inner().inner,
        status,
        errors: errors.into_inner().inner,
    })
}

/// A subcommand and its external, what follows the script, in the letters of `bytes_of`, and the write of faults that fails (empty: none);
/// the status, what is written, and the line of a fault. A session is run to the end of input. Stems are written for a
/// vocabulary alone; the input after it is not read, nor by a filter, for which a repeated word has a row again, and an empty line has
/// none. A check has status 0 without a difference, also of two lists without lines, and 1 after a difference or a fault. The expected
/// stems go on after a line `.`, which is one of them; a carriage return that belongs to a word is kept; the last word and the last
/// stem may have no line feed. The external that is wanted is run. Work reads and writes nothing here. A fault has its status without its line.
const ROWS: &str = "= externals ( stem )¶define stem as ( [ among ( 'un' () 're' () ) ] delete )¶.¶
session stem|.¶add undo¶add redo¶stems¶||0|ok¶ok¶undo,stem,do¶redo,stem,do¶|
stem stem|undo¶redo¶.¶||0|undo,stem,do¶redo,stem,do¶|
= externals ( stem ) define stem as 'ab¶.¶
session stem|||1||snowbench: 2 UnclosedString at 34¶
= externals ( stem )¶define stem as repeat true¶.¶
stem stem|a¶.¶add b¶ÿ¶||0|a,refused,Steps¶|
= externals ( stem )¶define stem as true¶.¶
filter stem|a¶ÿ¶b¶||1|a,stem,a¶|snowbench: 75 NotText¶
= externals ( stem )¶define stem as ( [ 'un' ] delete )¶.¶
filter stem|undo¶¶undo¶.¶ÿ¶||0|undo,stem,do¶undo,stem,do¶|
check stem|undo¶redo¶.¶do¶redo¶||0||
check stem|.¶||0||
check stem|un.¶redo¶.¶.¶redo¶||0||
check stem|undo\r\r¶.¶do\r\r¶||0||
check stem|undo¶redo¶.¶do¶do¶||1|2,redo,do,redo¶|
check stem|redo¶undo¶.¶redo¶un||1|2,undo,un,do¶|
check stem|undo\r\r¶.¶do¶||1|1,\"undo\r\",do,\"do\r\"¶|
check stem|redo¶undo¶.¶x¶||1|1,redo,x,redo¶|snowbench: 74 LengthsDiffer¶
check stem|undo¶||1||snowbench: 73 Cut¶
check stem|ÿ¶.¶x¶||1||snowbench: 75 NotText¶
= externals ( go stem ) define go as insert 'b' define stem as next¶.¶
stem stem|a¶.¶stems¶||0|a,stem,a¶|
stem go|a¶.¶stems¶||0|a,stem,ba¶|
session go|a¶.¶stems¶||0|a,stem,ba¶|
check go|a¶.¶stems¶||1|1,a,stems,ba¶|
check gone|a¶.¶stems¶||1||snowbench: 21 NoExternal¶
= externals
work stem|||0||
stem stem||1|1||";

/// Asserts that a run has the status of a row, and wrote what the row says.
fn is_as_row(rt: &impl Abort, alloc: Global, report: &RunReport, row: &str) -> Result<(), Fail> {
    assert!(rt; u64::from(report.status) == number(row, 3), "{row}");
    assert!(rt; report.text == bytes_of(alloc, field(row, 4))?, "{row}");
    assert!(rt; report.errors == bytes_of(alloc, field(row, 5))?, "{row}");
    Ok(())
}

/// Asserts what a row writes, and its status, over a reader and over lines with keys.
fn gives(rt: &impl Abort, alloc: Global, script: &str, row: &str) -> Result<(), Fail> {
    let input = format!(in alloc; "{script}{}", field(row, 1))?;
    let input = bytes_of(alloc, input.as_str())?;
    let report = run_of(alloc, field(row, 0), &input, number(row, 2))?;
    is_as_row(rt, alloc, &report, row)?;
    let report = run_with_keys(alloc, field(row, 0), &input, number(row, 2))?;
    is_as_row(rt, alloc, &report, row)
}

#[test]
fn a_subcommand_writes_its_text_and_ends_with_its_status(rt: HostRuntime) -> Result<(), Fail> {
    for (script, row) in with_scripts(rt.alloc(), ROWS)? {
        gives(&rt, rt.alloc(), script, row)?;
    }
    Ok(())
}

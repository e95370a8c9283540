//! A session or a filter over a reader and a writer in memory, from its script to its end.

use sbl_batch::{WordFault, filter, filter_to_end};
use sbl_input::{LoadFault, load, read_script};
use sbl_io::{Device, Lines};
use sbl_script::Script;
use sbl_sessions::serve;
use std::alloc::{AllocError, Global};
use std::fmt::Display;
use std::process::Abort;
use std::test::Fail;
use test_support::{Pieces, bytes_of, field, in_pieces, number, with_scripts};

/// A reader in memory.
pub(crate) type Reader<'a> = Device<Pieces<&'a [u8]>>;

/// A writer in memory.
pub(crate) type Writer = Device<Pieces<Vec<u8>>>;

/// What is done with the lines of an input.
#[derive(Clone, Copy)]
pub(crate) enum Verb {
    Session,
    Filter,
    FilterToEnd,
}

/// Asserts what is written for each row, which is in the field with this number.
macro_rules! all_write {
    ($rt:ident, $rows:expr, $written:ident, $want:literal) => {{
        for row in $rows.split('\n') {
            let want = bytes_of($rt.alloc(), field(row, $want))?;
            assert!($rt; $written($rt.alloc(), row)? == want, "{row}");
        }
        Ok(())
    }};
}

pub(crate) use all_write;

/// Returns what a writer has, and after it `!` and this text.
pub(crate) fn with_ending(writer: Writer, ending: &str) -> Result<Vec<u8>, AllocError> {
    let mut text = writer.into_inner().inner;
    text.push(b'!')?;
    text.extend_from_slice(ending.as_bytes())?;
    Ok(text)
}

/// Returns what a writer has, and after it `!` and the fault, if there is one.
pub(crate) fn with_fault<E: Display + Drop>(
    alloc: Global,
    writer: Writer,
    ending: Result<(), E>,
) -> Result<Vec<u8>, AllocError> {
    match ending {
        Ok(()) => Ok(writer.into_inner().inner),
        Err(fault) => with_ending(writer, format!(in alloc; "{fault}")?.as_str()),
    }
}

/// Runs a session.
fn session(lines: &mut Lines<Reader<'_>>, writer: &mut Writer) -> Result<(), LoadFault> {
    let mut bench = load(lines, "stem")?;
    let served = serve(&mut bench, lines, writer);
    bench.leak();
    served.map_err(LoadFault::Input)
}

/// Runs a filter of a script block and of words up to the end of input. A fault of the script has line 0.
fn to_end(lines: &mut Lines<Reader<'_>>, writer: &mut Writer) -> Result<(), WordFault> {
    match script_of(lines) {
        Ok(script) => {
            let filtered = filter_to_end(lines, &script, writer);
            script.discard();
            filtered
        }
        Err(fault) => Err(WordFault { line: 0, fault }),
    }
}

/// Reads a script block.
fn script_of(lines: &mut Lines<Reader<'_>>) -> Result<Script, LoadFault> {
    let text = read_script(lines)?;
    Ok(Script::parse(lines.alloc(), &text, "stem")?)
}

/// Does what the verb says. Returns what is written, and after it `!`, the number of the line if a filter to the end has one, and the
/// fault that ends it, if there is one.
pub(crate) fn run_verb(
    alloc: Global,
    verb: Verb,
    lines: &mut Lines<Reader<'_>>,
    mut writer: Writer,
) -> Result<Vec<u8>, Fail> {
    let ending = match verb {
        Verb::Session => session(lines, &mut writer),
        Verb::Filter => filter(lines, "stem", &mut writer),
        Verb::FilterToEnd => match to_end(lines, &mut writer) {
            Ok(()) => Ok(()),
            Err(WordFault { line: 0, fault }) => Err(fault),
            Err(WordFault { line, fault }) => {
                let ending = format!(in alloc; "{line}:{fault}")?;
                return Ok(with_ending(writer, ending.as_str())?);
            }
        },
    };
    Ok(with_fault(alloc, writer, ending)?)
}

/// Asserts what is written for a row, and the line after what was read (empty if there is none).
fn gives(rt: &impl Abort, alloc: Global, verb: Verb, script: &str, row: &str) -> Result<(), Fail> {
    let input = format!(in alloc; "{script}{}", field(row, 0))?;
    let input = bytes_of(alloc, input.as_str())?;
    let reader = in_pieces(input.as_slice(), 16, number(row, 1), 0);
    let mut lines = Lines::new(alloc, Device::new(reader))?;
    let writer = in_pieces(Vec::new(alloc), 4, number(row, 2), number(row, 3));
    let text = run_verb(alloc, verb, &mut lines, Device::new(writer))?;
    assert!(rt; text == bytes_of(alloc, field(row, 4))?, "{row}");
    let mut next = Vec::new(alloc);
    if lines.next_line() == Ok(true) {
        next.extend_from_slice(lines.line())?;
    }
    assert!(rt; next.as_slice() == field(row, 5).as_bytes(), "{row}");
    Ok(())
}

/// Asserts what is written for each row: what follows the script, in the letters of `bytes_of`; the read and the write that fails, counted
/// from 1 (empty: none); the interruptions before each write; what is written, after `!` the fault that ends it, and the line after what
/// was read. Each read returns 16 bytes, and each write takes four.
pub(crate) fn all_give(rt: &impl Abort, alloc: Global, verb: Verb, rows: &str) -> Result<(), Fail> {
    for (script, row) in with_scripts(alloc, rows)? {
        gives(rt, alloc, verb, script, row)?;
    }
    Ok(())
}

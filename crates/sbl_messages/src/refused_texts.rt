//! What there is to say on a text that a session or work refuses.

use crate::blocks::split_at_point;
use crate::failures::plain_if_any;
use crate::fault_texts::FaultText;
use sbl_bench::{Bench, EditFault};
use sbl_diagnostics::{TypedBlock, fault_of, part_text, script_fault_text, whole_text};
use sbl_sessions::part_of;
use snowbench::RefusedEdit;
use std::alloc::Global;

/// Returns the lines on the fault of a script in a file, if it has one.
fn file_text(alloc: Global, path: &str, text: &[u8], external: &str) -> FaultText {
    match fault_of(alloc, text, external) {
        Some(fault) => script_fault_text(alloc, path, text, external, fault).map(Some),
        None => Ok(None),
    }
}

/// Returns the lines on the fault of a block that the line before it puts into a part, or else in the place of the whole script.
fn block_text<'x>(alloc: Global, line: &'x str, typed: TypedBlock<'x>) -> FaultText {
    match part_of(line) {
        Some(part) => part_text(alloc, typed, part),
        None => whole_text(alloc, typed),
    }
}

/// Returns what there is to say on an edit of a session that is refused for its text, without characters that a terminal obeys. Returns
/// `None` if it is refused for something else, or if an allocation fails. `input` is the name of the text in which the commands are, and the
/// block begins in its line `line`, from 1.
pub fn refused_edit_text<'x>(
    alloc: Global,
    bench: &Bench,
    edit: &RefusedEdit,
    external: &'x str,
    input: &'x str,
    line: u64,
) -> Option<String> {
    match edit.fault {
        EditFault::Script(_) | EditFault::AmongCount => {
            let source = (input, usize::try_from(line).unwrap_or(usize::MAX));
            plain_if_any(edit_text(alloc, bench, edit, external, source))
        }
        _ => None,
    }
}

/// Returns the lines on the fault of an edit whose block begins in this line of a text.
fn edit_text<'x>(
    alloc: Global,
    bench: &Bench,
    edit: &RefusedEdit,
    external: &'x str,
    source: (&'x str, usize),
) -> FaultText {
    let script = bench.script().print(alloc)?;
    let typed = TypedBlock {
        block: edit.text.as_slice(),
        script: script.as_bytes(),
        external,
        takes_heads: false,
        source: Some(source),
    };
    block_text(alloc, edit.line.as_str(), typed)
}

/// Returns what there is to say on the script of a file that work refuses, without characters that a terminal obeys. Returns `None` if there
/// is nothing to say, or if an allocation fails.
pub fn refused_script_text(
    alloc: Global,
    path: &str,
    text: &[u8],
    external: &str,
) -> Option<String> {
    plain_if_any(file_text(alloc, path, text, external))
}

/// Returns what there is to say on the block after a line of work that is refused, without characters that a terminal obeys. Returns `None`
/// if there is nothing to say, or if an allocation fails.
pub fn refused_block_text(
    alloc: Global,
    bench: &Bench,
    external: &str,
    line: &str,
    block: &[u8],
) -> Option<String> {
    plain_if_any(text_under(alloc, bench, external, line, block))
}

/// Returns the lines on the fault of the block after a line of work, under the script of a bench.
fn text_under(alloc: Global, bench: &Bench, external: &str, line: &str, block: &[u8]) -> FaultText {
    let script = bench.script().print(alloc)?;
    work_block_text(alloc, script.as_bytes(), external, line, block)
}

/// Returns the lines on the fault of the block after a line of work, under a script.
fn work_block_text<'x>(
    alloc: Global,
    script: &'x [u8],
    external: &'x str,
    line: &'x str,
    block: &'x [u8],
) -> FaultText {
    let typed = TypedBlock {
        block,
        script,
        external,
        takes_heads: true,
        source: None,
    };
    block_text(alloc, line, typed)
}

/// Returns the number of lines before the commands of an input. If the line `.` after the words is not among its first bytes, each line of
/// the words is taken for a word of the bench.
pub fn lines_before(bytes: &[u8], bench: &Bench) -> u64 {
    let (script, words) = match split_at_point(bytes) {
        Some((number, rest)) => (number, rest),
        None => (0, b"".as_slice()),
    };
    let words = match split_at_point(words) {
        Some((number, _)) => number,
        None => (bench.len() as u64).saturating_add(1),
    };
    script.saturating_add(words)
}

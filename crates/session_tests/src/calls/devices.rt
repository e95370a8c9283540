//! Tests of readers and writers that fail at each of their calls, of the limit on reads, and of interruptions.

use crate::calls::verbs::{Verb, run_verb};
use sbl_io::{Device, Lines};
use std::alloc::{AllocError, Global};
use std::process::Abort;
use std::test::Fail;
use test_support::{in_pieces, outputs_within};

/// A verb, the beginning of its input, and the lines after it, each with its output.
type Case = (
    Verb,
    &'static [u8],
    &'static [(&'static [u8], &'static [u8])],
);

/// Commands of a session, each with its reply.
const SESSION: Case = (
    Verb::Session,
    b"externals ( stem )\ndefine stem as ( [ among ( 'un' () 're' () ) ] delete )\n.\n.\n",
    &[
        (b"add undo\n", b"ok\n"),
        (b"add redo\n", b"ok\n"),
        (b"stems\n", b"undo,stem,do\nredo,stem,do\n"),
    ],
);

/// Words of a filter, each with its row.
const ROWS: &[(&[u8], &[u8])] = &[
    (b"undo\n", b"undo,stem,do\n"),
    (b"\n", b""),
    (b"redo\n", b"redo,stem,do\n"),
    (b"x\n", b"x,stem,x\n"),
];

/// A filter of these words.
const FILTER: Case = (
    Verb::Filter,
    b"externals ( stem )\ndefine stem as ( [ among ( 'un' () 're' () ) ] delete )\n.\n",
    ROWS,
);

/// Returns the whole input.
fn input_of(alloc: Global, case: &Case) -> Result<Vec<u8>, AllocError> {
    let mut input = Vec::from_slice(alloc, case.1)?;
    for (line, _) in case.2 {
        input.extend_from_slice(line)?;
    }
    Ok(input)
}

/// Returns the outputs of the lines that are whole in this many bytes of the input, and then this text.
fn outputs(alloc: Global, case: &Case, bytes: u64, end: &str) -> Result<Vec<u8>, AllocError> {
    let mut text = outputs_within(alloc, case.1.len(), case.2, bytes)?;
    text.extend_from_slice(end.as_bytes())?;
    Ok(text)
}

/// The most reads, the read and the write that fails, both counted from 1 (0 for never), and the interruptions before each read and write.
#[derive(Clone, Copy)]
struct Stops {
    most: u64,
    read: u64,
    write: u64,
    interruptions: u64,
}

/// No device stops.
const NEVER: Stops = Stops {
    most: u64::MAX,
    read: 0,
    write: 0,
    interruptions: 0,
};

/// Does what the verb says, by reads and writes of one byte.
fn runs(alloc: Global, case: &Case, stops: Stops) -> Result<Vec<u8>, Fail> {
    let input = input_of(alloc, case)?;
    let reader = in_pieces(input.as_slice(), 1, stops.read, stops.interruptions);
    let mut lines = Lines::with_reads(alloc, Device::new(reader), stops.most)?;
    let writer = in_pieces(Vec::new(alloc), 1, stops.write, stops.interruptions);
    run_verb(alloc, case.0, &mut lines, Device::new(writer))
}

/// Asserts that a run with these stops gives this text.
fn gives(
    rt: &impl Abort,
    alloc: Global,
    case: &Case,
    stops: Stops,
    text: &[u8],
) -> Result<(), Fail> {
    let given = runs(alloc, case, stops)?;
    assert!(rt; given.as_slice() == text, "{}", text.len());
    Ok(())
}

/// Asserts that a read after each byte may fail, or be one more than there may be.
fn reader_fails(rt: &impl Abort, alloc: Global, case: &Case) -> Result<(), Fail> {
    // The read after the last byte finds the end of the input.
    let reads = (input_of(alloc, case)?.len() as u64).saturating_add(1);
    for bytes in 0..reads {
        let text = outputs(alloc, case, bytes, "!70 Read")?;
        let read = bytes.saturating_add(1);
        gives(rt, alloc, case, Stops { read, ..NEVER }, &text)?;
        let most = bytes;
        gives(rt, alloc, case, Stops { most, ..NEVER }, &text)?;
    }
    Ok(())
}

/// Asserts that the writer may fail after each of its bytes.
fn writer_fails(rt: &impl Abort, alloc: Global, case: &Case) -> Result<(), Fail> {
    let whole = outputs(alloc, case, u64::MAX, "")?;
    for bytes in 0..whole.len() {
        let mut text = Vec::from_slice(alloc, &whole[..bytes])?;
        text.extend_from_slice(b"!71 Write")?;
        let write = bytes as u64 + 1;
        gives(rt, alloc, case, Stops { write, ..NEVER }, &text)?;
    }
    Ok(())
}

/// Asserts that all is written by as many reads as there have to be, and after a thousand interruptions in a row, but not after more.
fn bears(rt: &impl Abort, alloc: Global, case: &Case) -> Result<(), Fail> {
    let whole = outputs(alloc, case, u64::MAX, "")?;
    let most = (input_of(alloc, case)?.len() as u64).saturating_add(1);
    assert!(rt; runs(alloc, case, Stops { most, ..NEVER })? == whole);
    let mut stops = NEVER;
    stops.interruptions = 1_000;
    assert!(rt; runs(alloc, case, stops)? == whole);
    stops.interruptions = 1_001;
    assert!(rt; runs(alloc, case, stops)?.as_slice() == b"!70 Read".as_slice());
    Ok(())
}

#[test]
fn devices_may_fail_at_each_call(rt: HostRuntime) -> Result<(), Fail> {
    for case in [&SESSION, &FILTER] {
        reader_fails(&rt, rt.alloc(), case)?;
        writer_fails(&rt, rt.alloc(), case)?;
        bears(&rt, rt.alloc(), case)?;
    }
    Ok(())
}

//! snowbench: lines, sessions, checks, and why they end early.

use crate::common::{PREFIXES, field_lines, parse_text};
use crate::device_items::ByteByByte;
use snowbench::{
    Device, Lines, LoadFault, ScriptFault, ServeFault, Sink, Source, WordKeys, check, load,
    load_with_keys, serve,
};
use std::alloc::Global;
use std::process::Abort;
use std::test::Fail;

/// A session: its script block, an empty block of words, and commands.
fn session_of(alloc: Global, commands: &str) -> Result<String, Fail> {
    Ok(format!(in alloc; "{PREFIXES}\n.\n.\n{commands}")?)
}

/// Serves a bench over lines.
fn serve_lines<R: Source + Drop, W: Sink>(
    lines: &mut Lines<R>,
    writer: &mut W,
) -> Result<(), LoadFault> {
    let mut bench = load(lines, "stem")?;
    let ending = serve(&mut bench, lines, writer);
    drop(bench);
    Ok(ending?)
}

/// Serves a bench that is loaded with keys.
fn serve_with_keys<R: Source + Drop, W: Sink>(
    lines: &mut Lines<R>,
    writer: &mut W,
) -> Result<(), LoadFault> {
    let mut bench = load_with_keys(lines, WordKeys::constant(), "stem")?;
    let ending = serve(&mut bench, lines, writer);
    drop(bench);
    Ok(ending?)
}

/// What is written, and then the fault if there is one.
fn with_ending(
    alloc: Global,
    mut text: Vec<u8>,
    ending: Result<(), LoadFault>,
) -> Result<Vec<u8>, Fail> {
    if let Err(fault) = ending {
        text.extend_from_slice(format!(in alloc; "{fault}")?.as_bytes())?;
    }
    Ok(text)
}

/// What a session writes, by devices of std.
fn session_text(alloc: Global, input: &[u8]) -> Result<Vec<u8>, Fail> {
    let mut text = Vec::new(alloc);
    let mut lines = Lines::new(alloc, Device::new(input))?;
    let ending = serve_lines(&mut lines, &mut Device::new(&mut text));
    with_ending(alloc, text, ending)
}

/// The same, of a bench that is loaded with keys.
fn text_with_keys(alloc: Global, input: &[u8]) -> Result<Vec<u8>, Fail> {
    let mut text = Vec::new(alloc);
    let mut lines = Lines::new(alloc, Device::new(input))?;
    let ending = serve_with_keys(&mut lines, &mut Device::new(&mut text));
    with_ending(alloc, text, ending)
}

/// The same, by devices that take one byte at a time, and by so many reads.
fn slow_text(alloc: Global, input: &[u8], most: u64) -> Result<Vec<u8>, Fail> {
    let mut lines = Lines::with_reads(alloc, ByteByByte::new(Device::new(input)), most)?;
    let mut writer = ByteByByte::new(Device::new(Vec::new(alloc)));
    let ending = serve_lines(&mut lines, &mut writer);
    with_ending(alloc, writer.into_inner().into_inner(), ending)
}

/// Commands of a session, and what it writes, with its fault at the end if there is one.
const SESSIONS: &str = "add undo¶add redo¶stems¶|ok¶ok¶undo,stem,do¶redo,stem,do¶
add dog¶add dog¶add¶classes¶runs|ok¶no 40 Present¶no 42 EmptyWord¶dog,dog¶1¶
add red¶routine stem¶true¶.¶trace red¶class red¶remove red¶limit x¶nothing¶|ok¶ok¶routine,stem¶red,red¶ok¶no 51 BadLimit¶no 52 BadCommand¶
add red¶among stem 1¶among ( 'r' () )¶.¶stems¶grouping g¶.¶script¶|ok¶ok¶red,stem,ed¶no 53 NoGrouping¶externals ( stem )¶define stem as ( [ among ( 'r' ( ) ) ] delete )¶
add red¶routine stem¶true¶|ok¶73 Cut";

#[test]
fn a_session_is_served(rt: HostRuntime) -> Result<(), Fail> {
    let alloc = rt.alloc();
    for row in SESSIONS.split('\n') {
        let input = session_of(alloc, field_lines(alloc, row, 0)?.as_str())?;
        let want = field_lines(alloc, row, 1)?;
        let text = session_text(alloc, input.as_bytes())?;
        assert!(rt; text.as_slice() == want.as_bytes(), "{row}");
        let text = text_with_keys(alloc, input.as_bytes())?;
        assert!(rt; text.as_slice() == want.as_bytes(), "{row}");
        let text = slow_text(alloc, input.as_bytes(), 1_000)?;
        assert!(rt; text.as_slice() == want.as_bytes(), "{row}");
    }
    Ok(())
}

#[test]
fn a_reader_is_read_so_often(rt: HostRuntime) -> Result<(), Fail> {
    let input = session_of(rt.alloc(), "stems\n")?;
    let text = slow_text(rt.alloc(), input.as_bytes(), 10)?;
    assert!(rt; text.as_slice() == b"70 Read".as_slice());
    Ok(())
}

/// The fault of a session whose writer has room for three bytes.
fn fault_without_room(alloc: Global, input: &[u8]) -> Result<Option<LoadFault>, Fail> {
    let mut room = [0; 3];
    let mut lines = Lines::new(alloc, Device::new(input))?;
    let ending = serve_lines(&mut lines, &mut Device::new(room.as_mut_slice()));
    Ok(ending.err())
}

#[test]
fn a_writer_may_fail(rt: HostRuntime) -> Result<(), Fail> {
    let input = session_of(rt.alloc(), "add undo\nadd redo\n")?;
    let fault = fault_without_room(rt.alloc(), input.as_bytes())?;
    assert_eq!(rt; fault, Some(LoadFault::Input(ServeFault::Write)));
    Ok(())
}

#[test]
fn a_line_may_be_too_long(rt: HostRuntime) -> Result<(), Fail> {
    let mut input = session_of(rt.alloc(), "add undo\n")?;
    for _ in 0..65_537 {
        input.push('a')?;
    }
    let text = session_text(rt.alloc(), input.as_bytes())?;
    assert!(rt; text.as_slice() == b"ok\n72 LineTooLong".as_slice());
    Ok(())
}

/// Inputs that make no bench, and the fault.
const UNLOADED: &[(&[u8], LoadFault)] = &[
    (b"externals ( stem )", LoadFault::Input(ServeFault::Cut)),
    (
        b"externals ( stem )\n.\n",
        LoadFault::Script(ScriptFault::NoExternal),
    ),
    (
        b"externals ( stem ) define stem as true\n.\na\n\xff\n",
        LoadFault::Input(ServeFault::NotText),
    ),
];

/// The fault of an input that makes no bench.
fn fault_of_load(alloc: Global, input: &[u8]) -> Result<Option<LoadFault>, Fail> {
    let mut lines = Lines::new(alloc, Device::new(input))?;
    Ok(load(&mut lines, "stem").err())
}

#[test]
fn a_bench_is_not_loaded(rt: HostRuntime) -> Result<(), Fail> {
    for (input, want) in UNLOADED {
        let fault = fault_of_load(rt.alloc(), input)?;
        assert_eq!(rt; fault, Some(*want));
    }
    Ok(())
}

/// Words, expected stems, what is written, and then the number of differences or the fault.
const CHECKS: &str = "undo¶do¶|do¶do¶|0
undo¶do¶|do¶da¶|2,do,da,do¶1
undo¶do¶|do¶da¶x¶|2,do,da,do¶74 LengthsDiffer
a¶|a¶b¶|74 LengthsDiffer";

/// Checks the lists of a row.
fn check_lists(alloc: Global, row: &str) -> Result<Vec<u8>, Fail> {
    let (words, expected) = (field_lines(alloc, row, 0)?, field_lines(alloc, row, 1)?);
    let mut text = Vec::new(alloc);
    let mut writer = Device::new(&mut text);
    let script = parse_text(alloc, "PREFIXES")?;
    let result = check(
        alloc,
        &script,
        words.as_bytes(),
        expected.as_bytes(),
        &mut writer,
    );
    drop(script);
    let result: String = match result {
        Ok(differences) => format!(in alloc; "{differences}")?,
        Err(fault) => format!(in alloc; "{fault}")?,
    };
    text.extend_from_slice(result.as_bytes())?;
    Ok(text)
}

#[test]
fn a_check_counts_differences(rt: HostRuntime) -> Result<(), Fail> {
    for row in CHECKS.split('\n') {
        let want = field_lines(rt.alloc(), row, 2)?;
        assert!(rt;
            check_lists(rt.alloc(), row)?.as_slice() == want.as_bytes(),
            "{row}"
        );
    }
    Ok(())
}

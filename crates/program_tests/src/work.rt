//! Tests of work: the order of the replies, the prompts, and what ends it. tests/run tries the commands of work as a program.

use sbl_io::{Device, Lines};
use sbl_work::{NoObserver, Paths, work};
use std::alloc::Global;
use std::fs;
use std::hash::RandomState;
use std::process::Abort;
use std::rt::Files;
use std::test::Fail;
use test_support::{SameBytes, bytes_of, field, in_pieces, number};

/// A script that deletes a first `un`.
const SCRIPT: &[u8] = b"externals ( stem )\ndefine stem as ( [ 'un' ] delete )\n";

/// What work wrote, its status, and the next line that it left in its input.
#[derive(Drop)]
struct Ended {
    text: Vec<u8>,
    told: Vec<u8>,
    status: u8,
    rest: Vec<u8>,
}

/// Returns the paths of work on a script without words.
fn paths_of(alloc: Global, file: &str) -> Result<Paths, Fail> {
    Ok(Paths {
        script: String::from_str(alloc, file)?,
        words: None,
        external: String::from_str(alloc, "stem")?,
        from: None,
        stop: None,
    })
}

/// Works on a file with the script, over this input. The reader fails at read `read` and the writer at write `write`, both
/// counted from 1 (0 for never); a write takes one byte.
fn work_over(
    rt: &(impl Files + AllocGlobal),
    file: &str,
    prompts: bool,
    input: &[u8],
    read: u64,
    write: u64,
) -> Result<Ended, Fail> {
    let alloc = rt.alloc();
    fs::write(rt, file, SCRIPT)?;
    let keys = RandomState::new(&SameBytes)?;
    let paths = paths_of(alloc, file)?;
    let mut writer = Device::new(in_pieces(Vec::new(alloc), 1, write, 0));
    let mut errors = Device::new(in_pieces(Vec::new(alloc), 1, 0, 0));
    let mut lines = Lines::new(alloc, Device::new(in_pieces(input, 1, read, 0)))?;
    let status = work(
        rt,
        keys,
        &paths,
        prompts,
        &mut lines,
        &mut writer,
        &mut errors,
        &mut NoObserver {},
    );
    fs::remove_file(rt, file)?;
    let mut rest = Vec::new(alloc);
    if let Ok(true) = lines.next_line() {
        rest.extend_from_slice(lines.line())?;
    }
    Ok(Ended {
        text: writer.into_inner().inner,
        told: errors.into_inner().inner,
        status,
        rest,
    })
}

/// Whether there are prompts (empty: none), the input, in the letters of `bytes_of`, and the read that fails (empty: none); then what is
/// written, the line of a fault, the status, and the next line that is left. A prompt is before each line, and rows have none. A block is
/// among the commands, and some commands are after `quit`; the end of input ends the work, too. A block without end has no reply. If
/// the reader fails, the whole requests that were read have their replies. A comment has no reply, nor has a line that is too long.
const ROWS: &str =
    ">|add undo¶stems¶families¶undo do¶.¶runs¶quit¶stems¶||> ok¶> undo,stem,do¶> pairs,0,0,0,0¶unknown,1¶> 1¶> ||0|stems
|add undo¶stems¶families¶undo do¶.¶runs¶quit¶stems¶||ok¶undo,stem,do¶pairs,0,0,0,0¶unknown,1¶1¶||0|stems
>|add undo¶stems||> ok¶> undo,stem,do¶> ||0|
>|add undo¶families¶undo¶stems¶||> ok¶> |snowbench: 73 Cut¶|1|
|add undo¶stems¶families¶undo do¶.¶runs¶quit¶stems¶|20|ok¶undo,stem,do¶|snowbench: 70 Read¶|1|
|add undo¶#ⅵ¶runs¶||ok¶1¶||0|
|add undo¶#ⅲ¶runs¶||ok¶|snowbench: 72 LineTooLong¶|1|";

/// Asserts what work writes for a row, its status, and what it leaves.
fn ends(rt: &(impl Abort + Files + AllocGlobal), row: &str) -> Result<(), Fail> {
    let alloc = rt.alloc();
    let prompts = !field(row, 0).is_empty();
    let input = bytes_of(alloc, field(row, 1))?;
    let ended = work_over(rt, "work_rows.sbl", prompts, &input, number(row, 2), 0)?;
    assert!(rt; ended.text == bytes_of(alloc, field(row, 3))?, "{row}");
    assert!(rt; ended.told == bytes_of(alloc, field(row, 4))?, "{row}");
    assert!(rt; u64::from(ended.status) == number(row, 5), "{row}");
    assert!(rt; ended.rest.as_slice() == field(row, 6).as_bytes(), "{row}");
    Ok(())
}

#[test]
fn work_replies_to_its_input_and_ends(rt: HostRuntime) -> Result<(), Fail> {
    for row in ROWS.split('\n') {
        ends(&rt, row)?;
    }
    Ok(())
}

/// Commands, and what is written for them at a terminal.
const INPUT: &[u8] = b"add undo\nstems\nfamilies\nundo do\n.\nruns\nquit\nstems\n";

const AT_TERMINAL: &[u8] = b"> ok\n> undo,stem,do\n> pairs,0,0,0,0\nunknown,1\n> 1\n> ";

// A prefix of the text is written.
#[test]
fn the_writer_may_fail_at_each_byte(rt: HostRuntime) -> Result<(), Fail> {
    for bytes in 0..AT_TERMINAL.len() {
        let write = bytes as u64 + 1;
        let ended = work_over(&rt, "work_writer.sbl", true, INPUT, 0, write)?;
        assert!(rt; ended.text.as_slice() == &AT_TERMINAL[..bytes], "{bytes}");
        assert!(rt; ended.status == 1, "{bytes}");
    }
    Ok(())
}

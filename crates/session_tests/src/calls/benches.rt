//! Tests of what a bench holds after a session has ended, at the end of its input or by a fault. The bench is looked at by a second session.

use crate::calls::verbs::{Reader, Writer, with_fault};
use sbl_bench::Bench;
use sbl_input::load;
use sbl_io::{Device, Lines};
use sbl_sessions::serve;
use std::alloc::{AllocError, Global};
use std::process::Abort;
use std::test::Fail;
use test_support::{PLURALS, bytes_of, field, in_pieces, number, with_scripts};

/// The input of a session, how many bytes a read returns, the read and the write that fails, both counted from 1 (0 for never), and the
/// commands that are given to the bench after the session. Each write takes one byte.
#[derive(Clone, Copy)]
pub(crate) struct Session<'a> {
    pub(crate) input: &'a [u8],
    pub(crate) piece: usize,
    pub(crate) read: u64,
    pub(crate) write: u64,
    pub(crate) asked: &'a [u8],
}

/// What a session wrote, with `!` and its fault if there is one, and what its bench replies afterwards: nothing if there is no bench.
#[derive(Drop)]
pub(crate) struct Seen {
    pub(crate) text: Vec<u8>,
    pub(crate) shown: Vec<u8>,
}

/// Serves a bench. Returns what is written, and after it `!` and the fault, if there is one.
fn replies(
    alloc: Global,
    bench: &mut Bench,
    lines: &mut Lines<Reader<'_>>,
    mut writer: Writer,
) -> Result<Vec<u8>, Fail> {
    let ending = serve(bench, lines, &mut writer);
    Ok(with_fault(alloc, writer, ending)?)
}

/// Returns the replies of a bench to commands, by devices that never stop.
fn ask(alloc: Global, bench: &mut Bench, commands: &[u8]) -> Result<Vec<u8>, Fail> {
    let mut lines = Lines::new(alloc, Device::new(in_pieces(commands, 64, 0, 0)))?;
    let writer = in_pieces(Vec::new(alloc), 64, 0, 0);
    replies(alloc, bench, &mut lines, Device::new(writer))
}

/// Serves a bench, and looks at it.
fn serve_and_ask(
    alloc: Global,
    bench: &mut Bench,
    lines: &mut Lines<Reader<'_>>,
    write: u64,
    asked: &[u8],
) -> Result<Seen, Fail> {
    let writer = in_pieces(Vec::new(alloc), 1, write, 0);
    let text = replies(alloc, bench, lines, Device::new(writer))?;
    let shown = ask(alloc, bench, asked)?;
    Ok(Seen { text, shown })
}

/// Runs a session over these lines, and looks at its bench.
fn see(
    alloc: Global,
    lines: &mut Lines<Reader<'_>>,
    write: u64,
    asked: &[u8],
) -> Result<Seen, Fail> {
    match load(lines, "stem") {
        Ok(mut bench) => {
            let seen = serve_and_ask(alloc, &mut bench, lines, write, asked);
            bench.leak();
            seen
        }
        Err(fault) => Ok(Seen {
            text: bytes_of(alloc, format!(in alloc; "!{fault}")?.as_str())?,
            shown: Vec::new(alloc),
        }),
    }
}

/// Asserts what a session writes, and what its bench shows after it.
pub(crate) fn leaves(
    rt: &impl Abort,
    alloc: Global,
    session: Session<'_>,
    text: &[u8],
    shown: &[u8],
) -> Result<(), Fail> {
    let (piece, at) = (session.piece, session.input.len());
    assert!(rt; 0 < piece);
    let reader = in_pieces(session.input, piece, session.read, 0);
    let mut lines = Lines::new(alloc, Device::new(reader))?;
    let seen = see(alloc, &mut lines, session.write, session.asked)?;
    assert!(rt; seen.text.as_slice() == text, "{at} by {piece}: text");
    assert!(rt; seen.shown.as_slice() == shown, "{at} by {piece}: bench");
    Ok(())
}

/// The input of a session after its script, in the letters of `bytes_of`; the read and the write that fails, counted from 1 (empty: none);
/// what is written, after `!` the fault that ends it; the commands that the bench is given after it, and its replies. Each read returns 16
/// bytes. An edit whose block ends with a fault is not made: rows, classes, script and count are as before. A last line without a line feed
/// is a command. An edit whose reply was begun is made, though no byte of the reply was taken.
const ENDINGS: &str = "= PLURALS
cats¶boxes¶cakes¶cake¶dog¶.¶routine last¶true¶|||!73 Cut|stems¶classes¶runs¶script¶|cats,stem,cat¶boxes,stem,box¶cakes,stem,cak¶cake,stem,cak¶dog,stem,dog¶box,boxes¶cak,cake,cakes¶cat,cats¶dog,dog¶5¶externals ( stem )¶routines ( tail last sib )¶backwardmode (¶define sib as ( 'x' or 's' )¶define tail as ( [ substring ] among ( 's' ( delete ) 'es' sib ( delete ) ) )¶define last as ( [ 'e' ] delete )¶)¶define stem as ( backwards ( do tail do ( test 'e' last ) ) )¶
cats¶boxes¶cakes¶cake¶dog¶.¶routine last¶( true¶true¶true¶true )¶.¶|21||!70 Read|classes¶runs¶|box,boxes¶cak,cake,cakes¶cat,cats¶dog,dog¶5¶
cats¶boxes¶.¶among tail 1¶among ( 's' () )¶|||!73 Cut|classes¶runs¶|box,boxes¶cat,cats¶2¶
cats¶boxes¶.¶among tail x¶among ( 's' () )¶|||!73 Cut|classes¶runs¶|box,boxes¶cat,cats¶2¶
cats¶boxes¶.¶remove cats¶routine last¶ⅳ|||ok¶!72 LineTooLong|classes¶runs¶|box,boxes¶2¶
cats¶boxes¶.¶remove boxes¶add dog¶ⅳ|||ok¶ok¶!72 LineTooLong|classes¶runs¶|cat,cats¶dog,dog¶3¶
cats¶boxes¶.¶remove boxes¶add dog¶add cake||1|!71 Write|classes¶runs¶|cat,cats¶2¶
= groupings ( v ) externals ( stem ) define v 'a' define stem as ( [ v ] delete )
ab¶b¶.¶grouping v¶'b'|||!73 Cut|stems¶runs¶|ab,stem,b¶b,stem,b¶2¶
ab¶b¶.¶grouping v¶'b'¶.|||ok¶|stems¶runs¶|ab,stem,ab¶b,stem,¶4¶
ab¶b¶.¶grouping v¶'b'¶.¶add c||1|!71 Write|stems¶runs¶|ab,stem,ab¶b,stem,¶4¶
= externals ( stem )¶define stem as ( [ among ( 'un' () 're' () ) ] delete )
.¶add undo¶add red|||ok¶ok¶|stems¶|undo,stem,do¶red,stem,d¶
.¶add undo¶limit 1¶stems||1|!71 Write|stems¶|undo,stem,do¶
.¶add undo¶limit 1¶stems||4|ok¶!71 Write|stems¶|undo,refused,Steps¶
.¶add undo¶add undo¶add redo||4|ok¶!71 Write|stems¶|undo,stem,do¶";

/// Asserts what a row writes, and what its bench shows after it.
fn ends(rt: &impl Abort, alloc: Global, script: &str, row: &str) -> Result<(), Fail> {
    let script = if script == "PLURALS" { PLURALS } else { script };
    let input = format!(in alloc; "{script}¶.¶{}", field(row, 0))?;
    let input = bytes_of(alloc, input.as_str())?;
    let asked = bytes_of(alloc, field(row, 4))?;
    let session = Session {
        input: &input,
        piece: 16,
        read: number(row, 1),
        write: number(row, 2),
        asked: &asked,
    };
    let text = bytes_of(alloc, field(row, 3))?;
    let shown = bytes_of(alloc, field(row, 5))?;
    leaves(rt, alloc, session, &text, &shown)
}

#[test]
fn a_bench_holds_what_was_replied_to_before_a_fault(rt: HostRuntime) -> Result<(), Fail> {
    for (script, row) in with_scripts(rt.alloc(), ENDINGS)? {
        ends(&rt, rt.alloc(), script, row)?;
    }
    Ok(())
}

/// A script block, and an empty block of words.
const BEGIN: &str =
    "externals ( stem )\ndefine stem as ( [ among ( 'un' () 're' () ) ] delete )\n.\n.\n";

/// Commands, each with its reply, and with the rows and the count of runs after it. Each edit is there but `grouping`, which ENDINGS has.
const COMMANDS: &[(&str, &str, &str)] = &[
    ("add undo\n", "ok\n", "undo,stem,do\n1\n"),
    ("add redo\n", "ok\n", "undo,stem,do\nredo,stem,do\n2\n"),
    (
        "stems\n",
        "undo,stem,do\nredo,stem,do\n",
        "undo,stem,do\nredo,stem,do\n2\n",
    ),
    ("remove undo\n", "ok\n", "redo,stem,do\n2\n"),
    (
        "among stem 1\namong ( 'r' () )\n.\n",
        "ok\n",
        "redo,stem,edo\n3\n",
    ),
    (
        "routine stem\n( [ next next ] delete )\n.\n",
        "ok\n",
        "redo,stem,do\n4\n",
    ),
    ("limit 1\n", "ok\n", "redo,refused,Steps\n5\n"),
    ("runs\n", "5\n", "redo,refused,Steps\n5\n"),
];

/// Returns the whole input.
fn whole_input(alloc: Global) -> Result<Vec<u8>, AllocError> {
    let mut input = Vec::from_slice(alloc, BEGIN.as_bytes())?;
    for (command, _, _) in COMMANDS {
        input.extend_from_slice(command.as_bytes())?;
    }
    Ok(input)
}

/// Returns all replies.
fn whole_text(alloc: Global) -> Result<Vec<u8>, AllocError> {
    let mut text = Vec::new(alloc);
    for (_, reply, _) in COMMANDS {
        text.extend_from_slice(reply.as_bytes())?;
    }
    Ok(text)
}

/// Returns what the bench shows after all commands whose reply was begun, if the writer took this many bytes and fails at the next.
fn shown_after_bytes(bytes: usize) -> &'static [u8] {
    let mut begin: usize = 0;
    let mut shown = "".as_bytes();
    for (_, reply, after) in COMMANDS {
        if begin <= bytes {
            shown = after.as_bytes();
        }
        begin = begin.saturating_add(reply.len());
    }
    shown
}

/// Returns the number of commands that are whole in this many bytes of the input.
fn whole_commands(bytes: usize) -> usize {
    let mut end = BEGIN.len();
    let mut count: usize = 0;
    for (command, _, _) in COMMANDS {
        end = end.saturating_add(command.len());
        if end <= bytes {
            count = count.saturating_add(1);
        }
    }
    count
}

#[test]
fn a_bench_holds_each_edit_whose_reply_was_begun(rt: HostRuntime) -> Result<(), Fail> {
    let alloc = rt.alloc();
    let input = whole_input(alloc)?;
    let whole = whole_text(alloc)?;
    for bytes in 0..whole.len() {
        let session = Session {
            input: &input,
            piece: 1024,
            read: 0,
            write: bytes as u64 + 1,
            asked: b"stems\nruns\n",
        };
        let mut text = Vec::from_slice(alloc, &whole[..bytes])?;
        text.extend_from_slice(b"!71 Write")?;
        leaves(&rt, alloc, session, &text, shown_after_bytes(bytes))?;
    }
    Ok(())
}

/// Returns what is written if the reader fails after this many bytes, and what the bench shows then: nothing if there is none.
fn left_by_reader(alloc: Global, bytes: usize) -> Result<(Vec<u8>, &'static [u8]), AllocError> {
    let count = whole_commands(bytes);
    let mut text = Vec::new(alloc);
    let begun = if bytes < BEGIN.len() { "" } else { "0\n" };
    let mut shown = begun.as_bytes();
    for (_, reply, after) in COMMANDS.iter().take(count) {
        text.extend_from_slice(reply.as_bytes())?;
        shown = after.as_bytes();
    }
    text.extend_from_slice(b"!70 Read")?;
    Ok((text, shown))
}

#[test]
fn a_bench_holds_each_edit_that_was_read_whole(rt: HostRuntime) -> Result<(), Fail> {
    let alloc = rt.alloc();
    let input = whole_input(alloc)?;
    for bytes in 0..input.len() {
        let session = Session {
            input: &input,
            piece: 1,
            read: bytes as u64 + 1,
            write: 0,
            asked: b"stems\nruns\n",
        };
        let (text, shown) = left_by_reader(alloc, bytes)?;
        leaves(&rt, alloc, session, &text, shown)?;
    }
    Ok(())
}

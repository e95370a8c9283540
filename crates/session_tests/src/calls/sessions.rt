//! Tests of whole sessions, what they write and how they end. tests/cases has more of them.

use crate::calls::verbs::{Verb, all_give};
use sbl_bench::EditFault::Full;
use sbl_input::LoadFault::{Input, Open, Script};
use sbl_io::ServeFault::{Cut, LineTooLong, NotText, OutOfMemory, Read, Write};
use sbl_script::ScriptFault::{ScriptTooLong, UnclosedString, WrongMode};
use std::test::Fail;
use test_support::print_values;

/// Rows as of `all_give`. The sixth read ends in the middle of the second edit, which is not made. The fourth write fails in the middle of the
/// report. A writer may be interrupted a thousand times in a row. A line that is too long may be in the words, in the commands, in a block,
/// also in one whose command is bad, or in the script; a fault of the script comes before it.
const ROWS: &str = "ⅳ||||!72 LineTooLong
= externals ( stem )¶define stem as ( [ among ( 'un' () 're' () ) ] delete )¶.¶
ⅳ||||!72 LineTooLong
ⅱ||||!43 WordTooLong
.¶add undo¶ⅳ||||ok¶!72 LineTooLong
.¶add undo¶routine stem¶ⅳ||||ok¶!72 LineTooLong
.¶add undo¶grouping ÿ¶ⅳ||||ok¶!72 LineTooLong
.¶add undo¶add redo¶stems¶|7|||ok¶!70 Read
.¶add undo¶add redo¶stems¶|1|||!70 Read
.¶add undo¶add redo¶stems¶||4||ok¶ok¶undo!71 Write
.¶add undo¶stems¶|||1000|ok¶undo,stem,do¶
.¶add undo¶stems¶|||1001|!71 Write|stems
= groupings ( v ) externals ( stem ) define v 'a' define stem as ( [ v ] delete )¶.¶
ab¶b¶.¶grouping v¶'b'¶.¶limit 4¶limit¶stems¶runs¶||||ok¶ok¶no 51 BadLimit¶ab,stem,ab¶b,refused,Steps¶5¶
= externals ( stem ) define stem as among ( )¶.¶
ⅳ||||!18 EmptyAmong in item 2
= ⅴ
.¶||||!24 ScriptTooLong";

#[test]
fn sessions_write_and_end(rt: HostRuntime) -> Result<(), Fail> {
    all_give(&rt, rt.alloc(), Verb::Session, ROWS)
}

#[test]
fn faults_of_sessions_are_printed_with_their_numbers(rt: HostRuntime) -> Result<(), Fail> {
    let faults = [
        Input(Read),
        Input(Write),
        Input(LineTooLong),
        Input(Cut),
        Input(NotText),
        Input(OutOfMemory),
        Script(ScriptTooLong),
        Script(UnclosedString { place: 34 }),
        Script(WrongMode { item: 6 }),
        Open(Full),
    ];
    let want =
        "70 Read;71 Write;72 LineTooLong;73 Cut;75 NotText;49 OutOfMemory;24 ScriptTooLong;2 UnclosedString at 34;14 WrongMode in item 6;44 Full;";
    assert!(rt; print_values(rt.alloc(), &faults)?.as_str() == want);
    Ok(())
}

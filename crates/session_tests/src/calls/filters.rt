//! Tests of the rows of words as the words come, and of how a filter ends.

use crate::calls::verbs::{Verb, all_give};
use std::test::Fail;

/// Rows as of `all_give`. An empty line has no row, and a word that is there again has one. A line `.` ends the words. A filter ends at the
/// first fault. A word has at most 255 characters, and a line at most 65,536 bytes.
const ROWS: &str = "||||!73 Cut
= externals ( stem )¶define stem as ( [ among ( 'un' () 're' () ) ] delete )¶.¶
||||
undo¶redo||||undo,stem,do¶redo,stem,do¶
¶undo\r¶\r¶¶undo¶¶||||undo,stem,do¶undo,stem,do¶
undo¶.¶redo¶||||undo,stem,do¶|redo
.\r¶undo¶|||||undo
 x¶x ¶..¶a,b¶\"¶|||| x,stem, x¶x ,stem,x ¶..,stem,..¶\"a,b\",stem,\"a,b\"¶\"\"\"\",stem,\"\"\"\"¶
undo¶ÿ¶redo¶||||undo,stem,do¶!75 NotText|redo
undo¶ⅰ||||undo,stem,do¶ⅰ,stem,ⅰ¶
undo¶ⅱ¶redo¶||||undo,stem,do¶!43 WordTooLong|redo
undo¶ⅲ||||undo,stem,do¶!43 WordTooLong
undo¶ⅳ||||undo,stem,do¶!72 LineTooLong
= externals ( stem ) define stem as ( 'a' repeat true )¶.¶
b¶a¶b¶||||b,stem,b¶a,refused,Steps¶b,stem,b¶
= externals ( stem )¶
||||!73 Cut
= ÿ¶.¶
undo¶||||!23 NotUtf8|undo
= externals ( stem ) define stem as 'ab¶.¶
undo¶||||!2 UnclosedString at 34|undo
= externals ( other ) define other as true¶.¶
undo¶||||!21 NoExternal|undo";

#[test]
fn a_filter_writes_a_row_for_each_word_up_to_a_fault(rt: HostRuntime) -> Result<(), Fail> {
    all_give(&rt, rt.alloc(), Verb::Filter, ROWS)
}

/// Rows as of `all_give`. Nothing but the end of input ends the words: a line `.` is a word. A fault of a word has the number of its line
/// among the words; empty lines count. A fault of writing has the number of the line after those that were read: the first read of words
/// ends at the third byte of them, the next one has sixteen more.
const ROWS_TO_END: &str = "||||!73 Cut
= externals ( stem )¶define stem as ( [ among ( 'un' () 're' () ) ] delete )¶.¶
undo¶.¶redo¶||||undo,stem,do¶.,stem,.¶redo,stem,do¶
¶.\r¶\r¶undo||||.,stem,.¶undo,stem,do¶
undo¶¶.¶ÿ¶redo¶||||undo,stem,do¶.,stem,.¶!4:75 NotText|redo
undo¶ⅱ¶redo¶||||undo,stem,do¶!2:43 WordTooLong|redo
.¶ⅳ||||.,stem,.¶!2:72 LineTooLong
undo¶.¶||3||undo,ste!3:71 Write|
undo¶redo¶undo¶||4||undo,stem,do!4:71 Write|
undo¶abcdefghijklmnopqrst¶||3||undo,ste!2:71 Write|abcdefghijklmnopqrst
= externals ( stem )¶
||||!73 Cut
= externals ( other ) define other as true¶.¶
undo¶||||!21 NoExternal|undo";

#[test]
fn a_filter_to_the_end_of_input_takes_a_point_as_a_word(rt: HostRuntime) -> Result<(), Fail> {
    all_give(&rt, rt.alloc(), Verb::FilterToEnd, ROWS_TO_END)
}

//! Tests of comparisons with writers in memory. tests/cases has more of them.

use crate::calls::verbs::{all_write, with_ending};
use sbl_batch::{CompareFault, CompareInput, write_comparison};
use sbl_bench::{NoProgress, WordKeys};
use sbl_io::Device;
use std::alloc::{AllocError, Global};
use std::test::Fail;
use test_support::{bytes_of, field, in_pieces, number};

/// The old script, the new script and the words, in the letters of `bytes_of`; the write that fails, counted from 1 (empty:
/// none), and the interruptions before each write; what is written, and after `!` the number of changed words, or what has a
/// fault and the fault. Layout and comments make no difference, nor does a byte order mark before the words, and a changed
/// refusal is a change. Of amongs inside amongs the outer one is listed if it differs itself.
const ROWS: &str =
    "externals ( stem ) define stem as ( [ 'un' ] delete )|externals(stem)define stem as(['un']delete)// a comment¶|undo¶¶undo¶do|||words,2,0¶!0
externals ( stem ) define stem as ( [ 'un' ] delete )|externals ( stem ) define stem as true|ï»¿un\r¶.|||differs,routine,stem¶changed,un,stem,,stem,un¶renamed,,un¶words,2,1¶!1
externals ( stem ) define stem as ( [ 'un' ] delete )|externals ( stem ) define stem as ( [ 're' ] delete )|undo¶do¶redo¶|||differs,routine,stem¶changed,undo,stem,do,stem,undo¶changed,redo,stem,redo,stem,do¶split,do,do,undo¶merged,do,do,redo¶words,3,2¶!2
externals ( stem ) define stem as repeat true|externals ( stem ) define stem as stem|a|||differs,routine,stem¶changed,a,refused,Steps,refused,Depth¶words,1,1¶!1
externals ( stem ) define stem as among ( 'a' ( among ( 'b' ( next ) ) ) )|externals ( stem ) define stem as among ( 'a' ( among ( 'b' ( true ) ) ) )|a|||differs,among,stem,2¶words,1,0¶!0
externals ( stem ) define stem as among ( 'a' ( among ( 'b' ( next ) ) ) )|externals ( stem ) define stem as among ( 'ab' ( among ( 'b' ( true ) ) ) )|a|||differs,among,stem,1¶words,1,0¶!0
externals ( stem ) define stem as among ( 'a' ( among ( 'b' ( next ) ) ) )|externals ( stem ) define stem as among ( 'a' ( true ) )|a|||differs,routine,stem¶words,1,0¶!0
externals ( stem ) routines ( r ) groupings ( w v ) define r as v define w 'a' define v 'b' define stem as r|externals ( stem ) routines ( r ) groupings ( w v ) define r as non v define w 'c' define v 'd' define stem as r|b|||differs,routine,r¶differs,grouping,w¶differs,grouping,v¶words,1,0¶!0
externals ( stem ) define stem as true|externals ( stem x ) define stem as true||||differs,script¶words,0,0¶!0
externals ( stem ) define stem as|externals ( stem ) define stem as|ÿ|||!old 7 Syntax at 33
externals ( stem ) define stem as true|externals ( stem ) define stem as|ÿ|||!new 7 Syntax at 33
externals ( stem ) define stem as true|externals ( stem ) define stem as true|ⅱ¶ÿ|||!words 75 NotText
externals ( stem ) define stem as true|externals ( stem ) define stem as true|ⅰ¶ⅱ|||!words 43 WordTooLong
externals ( stem ) define stem as true|externals ( stem ) define stem as true|ⅳ|||!words 72 LineTooLong
externals ( stem ) define stem as true|externals ( stem ) define stem as true|.|2||word!rows 71 Write
externals ( stem ) define stem as true|externals ( stem ) define stem as true|.||1000|words,1,0¶!0
externals ( stem ) define stem as true|externals ( stem ) define stem as true|.||1001|!rows 71 Write";

/// Returns what has a fault, and the fault.
fn text_of_fault(alloc: Global, fault: CompareFault) -> Result<String, AllocError> {
    let place = match fault {
        CompareFault::Old(_) => "old",
        CompareFault::New(_) => "new",
        CompareFault::Words(_) => "words",
        CompareFault::Rows(_) => "rows",
    };
    let cause = fault.cause();
    format!(in alloc; "{place} {cause}")
}

/// Compares the scripts of a row over its words. Each write takes four bytes.
fn compare_scripts(alloc: Global, row: &str) -> Result<Vec<u8>, Fail> {
    let old = bytes_of(alloc, field(row, 0))?;
    let new = bytes_of(alloc, field(row, 1))?;
    let words = bytes_of(alloc, field(row, 2))?;
    let pieces = in_pieces(Vec::new(alloc), 4, number(row, 3), number(row, 4));
    let mut writer = Device::new(pieces);
    let input = CompareInput {
        external: "stem",
        old: &old,
        new: &new,
        words: &words,
    };
    let ending = match write_comparison(
        alloc,
        WordKeys::constant(),
        &input,
        &mut writer,
        &mut NoProgress {},
    ) {
        Ok(changed) => format!(in alloc; "{changed}")?,
        Err(fault) => text_of_fault(alloc, fault)?,
    };
    Ok(with_ending(writer, ending.as_str())?)
}

#[test]
fn a_comparison_writes_its_rows(rt: HostRuntime) -> Result<(), Fail> {
    all_write!(rt, ROWS, compare_scripts, 5)
}

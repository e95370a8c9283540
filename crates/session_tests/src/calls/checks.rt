//! Tests of checks with writers in memory. tests/cases has more of them.

use crate::calls::verbs::{all_write, with_ending};
use sbl_batch::check;
use sbl_io::Device;
use sbl_script::Script;
use std::alloc::Global;
use std::test::Fail;
use test_support::{PREFIXES, bytes_of, field, in_pieces, number};

/// Words and expected stems, in the letters of `bytes_of`; the write that fails, counted from 1 (empty: none), and the interruptions before
/// each write; what the check writes, and after `!` the number of differences or the fault. Empty lines and repeats are words like any
/// other, and a carriage return belongs to the end of a line. A word has at most 255 characters, and a line at most 65,536 bytes. The
/// fault of a word comes before that of its stem. A check bears a thousand interruptions in a row, and no more.
const ROWS: &str = "undo¶do¶|do¶da¶|||2,do,da,do¶!1
||||!0
\r¶¶undo¶undo\r¶undo|¶¶x¶do\r¶y|||3,undo,x,do¶5,undo,y,do¶!2
a,b¶|\"¶|||1,\"a,b\",\"\"\"\",\"a,b\"¶!1
ⅱ|refused WordTooLong|||1,ⅱ,refused WordTooLong,refused WordTooLong¶!1
ⅰ|ⅰ|||!0
ⅲ|a|||1,ⅲ,a,refused WordTooLong¶!1
a|ⅳ|||!72 LineTooLong
ÿ|ⅳ|||!75 NotText
ⅳ|ÿ|||!72 LineTooLong
undo¶|x¶|2||1,un!71 Write
undo¶|x¶||1000|1,undo,x,do¶!1
undo¶|x¶||1001|!71 Write";

/// Checks the lists of a row by a script that deletes a first `un` or `re`. Each write takes four bytes.
fn check_lists(alloc: Global, row: &str) -> Result<Vec<u8>, Fail> {
    let words = bytes_of(alloc, field(row, 0))?;
    let expected = bytes_of(alloc, field(row, 1))?;
    let pieces = in_pieces(Vec::new(alloc), 4, number(row, 2), number(row, 3));
    let mut writer = Device::new(pieces);
    let script = Script::parse(alloc, PREFIXES.as_bytes(), "stem")?;
    let ending = check(alloc, &script, &words, &expected, &mut writer);
    script.discard();
    let ending = match ending {
        Ok(differences) => format!(in alloc; "{differences}")?,
        Err(fault) => format!(in alloc; "{fault}")?,
    };
    Ok(with_ending(writer, ending.as_str())?)
}

#[test]
fn a_check_writes_a_row_for_each_difference(rt: HostRuntime) -> Result<(), Fail> {
    all_write!(rt, ROWS, check_lists, 4)
}

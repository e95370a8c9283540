//! Tests of the lines of a reader, and of its faults.

use crate::calls::verbs::all_write;
use sbl_io::{Device, LineFault, Lines};
use std::alloc::Global;
use std::test::Fail;
use test_support::{bytes_of, field, in_pieces, number};

/// An input in the letters of `bytes_of`; the bytes of a read, the read that fails, counted from 1 (empty: none), and the interruptions before
/// each read; and the first four answers: a line and `;`, `.` at the end, `!` for a fault of the reader, `?` for a line that is too long. Lines
/// are the same in pieces of every size; a fault is answered again; a thousand interruptions in a row are allowed, and no more; a line
/// has at most 65,536 bytes.
const ROWS: &str = "ab\r¶¶cd|1||1|ab;;cd;.
ab\r¶¶cd|2||1|ab;;cd;.
ab\r¶¶cd|3||1|ab;;cd;.
ab\r¶¶cd|4||1|ab;;cd;.
ab\r¶¶cd|5||1|ab;;cd;.
ab\r¶¶cd|6||1|ab;;cd;.
ab\r¶¶cd|7||1|ab;;cd;.
ab¶cd¶|1|5||ab;!!!
ab|2||1000|ab;...
ab|2||1001|!!!!
ⅲ\r¶|65536|||ⅲ;...
ⅳ|65536|||????";

/// Returns the first four answers of a reader's lines.
fn answers(alloc: Global, row: &str) -> Result<Vec<u8>, Fail> {
    let input = bytes_of(alloc, field(row, 0))?;
    let piece = (number(row, 1) as usize).max(1);
    let reader = in_pieces(input.as_slice(), piece, number(row, 2), number(row, 3));
    let mut lines = Lines::new(alloc, Device::new(reader))?;
    let mut text = Vec::new(alloc);
    for _ in 0..4 {
        let answer = lines.next_line();
        if answer == Ok(true) {
            text.extend_from_slice(lines.line())?;
        }
        text.push(match answer {
            Ok(true) => b';',
            Ok(false) => b'.',
            Err(LineFault::Read) => b'!',
            Err(LineFault::TooLong) => b'?',
        })?;
    }
    Ok(text)
}

#[test]
fn lines_end_or_have_a_fault(rt: HostRuntime) -> Result<(), Fail> {
    all_write!(rt, ROWS, answers, 4)
}

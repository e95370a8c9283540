//! Lines and columns of byte offsets, counted by hand.

use sbl_source_map::{Position, position_of};

/// A text, an offset, its line and its column.
const POSITIONS: &[(&str, usize, usize, usize)] = &[
    // lines and columns are counted from one
    ("ab\ncd", 0, 1, 1),
    ("ab\ncd", 1, 1, 2),
    ("ab\ncd", 3, 2, 1),
    ("ab\ncd", 4, 2, 2),
    // a line feed is in the line that it ends
    ("ab\ncd", 2, 1, 3),
    ("\n\n", 0, 1, 1),
    ("\n\n", 1, 2, 1),
    // an offset past the last byte is the end of the last line
    ("ab\ncd", 5, 2, 3),
    ("ab\ncd", 500, 2, 3),
    ("ab\ncd\n", 6, 2, 3),
    ("ab\n\n", 4, 2, 1),
    ("\n", 1, 1, 1),
    ("", 0, 1, 1),
    ("", 7, 1, 1),
    // columns count characters
    // 2 bytes, 3 bytes, 4 bytes, then `x`
    ("\u{e9}\u{8a9e}\u{1f600}x", 2, 1, 2),
    ("\u{e9}\u{8a9e}\u{1f600}x", 5, 1, 3),
    ("\u{e9}\u{8a9e}\u{1f600}x", 9, 1, 4),
    // a tab and a carriage return are one character each
    ("a\t\r\nb", 3, 1, 4),
    ("a\t\r\nb", 4, 2, 1),
];

#[test]
fn an_offset_has_its_line_and_column(rt: HostRuntime) {
    for (text, offset, line, column) in POSITIONS {
        let want = Position {
            line: *line,
            column: *column,
        };
        assert_eq!(rt;
            position_of(text.as_bytes(), *offset),
            want,
            "{text} {offset}"
        );
    }
}

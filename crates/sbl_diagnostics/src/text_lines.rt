//! The lines of a text.

use sbl_io::first_line;

/// Returns the line with this number, from 1, or an empty one if there are fewer.
pub(crate) fn line_at(text: &[u8], number: usize) -> &[u8] {
    let mut rest = text;
    let mut left = number;
    while let Some((line, after)) = first_line(rest) {
        if left <= 1 {
            return line;
        }
        left -= 1;
        rest = after;
    }
    rest
}

//! The lines of an input.

use sbl_io::first_line;

/// Returns the number of the first line that is a single point, from 1, and the text after it.
pub(crate) fn split_at_point(text: &[u8]) -> Option<(u64, &[u8])> {
    split_at_line(text, b".".as_slice())
}

/// Returns the number of the first empty line, from 1.
pub(crate) fn first_empty_line(text: &[u8]) -> Option<u64> {
    let (number, _) = split_at_line(text, &[])?;
    Some(number)
}

/// Returns the number of the first line with these bytes, from 1, and the text after it.
fn split_at_line<'t>(text: &'t [u8], wanted: &[u8]) -> Option<(u64, &'t [u8])> {
    let mut rest = text;
    let mut number: u64 = 1;
    while let Some((line, after)) = first_line(rest) {
        if line == wanted {
            return Some((number, after));
        }
        number = number.saturating_add(1);
        rest = after;
    }
    None
}

/// Returns the number of lines.
pub(crate) fn line_count(text: &[u8]) -> u64 {
    let mut rest = text;
    let mut count: u64 = 0;
    while let Some((_, after)) = first_line(rest) {
        count = count.saturating_add(1);
        rest = after;
    }
    count
}

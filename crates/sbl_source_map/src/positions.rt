//! Lines and columns.

ghost use Rattle.std.specs.Prelude.{◌≡◌, ◌+◌, take};
ghost use Rattle.std.specs.List.{count_by};
ghost use Rattle.sbl_source_map.specs.Positions as spec;

/// A position in a text.
#[derive(Clone, Copy, Debug, PartialEq, Eq)]
pub struct Position {
    /// The line, from 1.
    pub line: usize,
    /// The column, from 1, in characters.
    pub column: usize,
}

/// Returns whether the byte is the first one of a character in UTF-8.
fn begins_character(byte: u8) -> bool
    ensures { result ≡ spec.begins_character byte }
{
    !(byte >= 128 && byte < 192)
}

/// Returns the bytes without the line feed at their end, if there is one.
fn without_end(bytes: &[u8]) -> &[u8]
    ensures { result.now ≡ spec.without_end bytes.now }
{
    if bytes.is_empty() {
        return bytes;
    }
    let last = bytes.len() - 1;
    if bytes[last] == b'\n' {
        return &bytes[..last];
    }
    bytes
}

/// Returns the bytes before an offset.
fn before(bytes: &[u8], offset: usize) -> &[u8]
    ensures { result.now ≡ spec.before bytes.now offset }
{
    if offset < bytes.len() {
        return &bytes[..offset];
    }
    without_end(bytes)
}

/// Returns one more than the line feeds in these bytes.
fn line_after(bytes: &[u8]) -> usize
    ensures { result ≡ count_by spec.is_line_feed bytes.now + 1 }
{
    let mut line = 1;
    for byte in bytes {
        if *byte == b'\n' {
            line += 1;
        }
    }
    line
}

/// Returns one more than the characters after the last line feed in these bytes.
fn column_after(bytes: &[u8]) -> usize
    ensures { result ≡ count_by spec.begins_character (spec.last_line bytes.now) + 1 }
{
    let mut column = 1;
    for byte in bytes {
        if *byte == b'\n' {
            column = 1;
        } else if begins_character(*byte) {
            column += 1;
        }
    }
    column
}

/// Returns the line and the column of a byte offset in a text. Lines end with a line feed; a carriage return is a
/// character. An offset past the last byte is the end of the last line. In bytes that are not UTF-8, each byte but
/// those of 128 to 191 counts as a character. Does not allocate.
pub fn position_of(text: &[u8], offset: usize) -> Position
    ensures line { result.line ≡ spec.line_of text.now offset }
    ensures column { result.column ≡ spec.column_of text.now offset }
{
    let prefix = before(text, offset);
    Position {
        line: line_after(prefix),
        column: column_after(prefix),
    }
}

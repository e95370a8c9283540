//! Lines and columns of offsets that rise.

ghost use Rattle.std.specs.Prelude.{◌≡◌, ◌≤◌, ◌<◌, length};
ghost use Rattle.sbl_source_map.specs.Positions as positions;
ghost use Rattle.sbl_text_rows.specs.Views as spec;
ghost use Rattle.sbl_text_rows.specs.Views.{Measures};

use sbl_source_map::{Position, position_of};

/// A text, an offset in it, and the position there.
#[derive(Clone, Copy, Debug)]
pub(crate) struct Ruler<'a> {
    text: &'a [u8],
    offset: usize,
    position: Position,
}

/// Whether a byte is the first one of a character in UTF-8.
fn begins_character(byte: u8) -> bool
    ensures { result ≡ positions.begins_character byte }
{
    !(byte >= 128 && byte < 192)
}

/// Returns the position of an offset, given that of an earlier one.
fn position_at(text: &[u8], from: usize, position: Position, to: usize) -> Position
    requires ordered { from ≤ to }
    requires inside { to < length text.now }
    requires line { position.line ≡ spec.line_at text.now from }
    requires column { position.column ≡ spec.column_at text.now from }
    ensures line { result.line ≡ spec.line_at text.now to }
    ensures column { result.column ≡ spec.column_at text.now to }
{
    let mut line = position.line;
    let mut column = position.column;
    for i in from..to {
        if text[i] == b'\n' {
            line += 1;
            column = 1;
        } else if begins_character(text[i]) {
            column += 1;
        }
    }
    Position { line, column }
}

impl<'a> Ruler<'a> {
    /// Begins at the beginning of a text.
    pub(crate) fn new(text: &'a [u8]) -> Ruler<'a>
        ensures measures { Measures result }
        ensures text { result.text.now ≡ text.now }
    {
        Ruler {
            text,
            offset: 0,
            position: Position { line: 1, column: 1 },
        }
    }

    /// Returns the position of an offset. It counts from the offset of the last call, if that is not larger.
    pub(crate) fn position(&mut self, offset: usize) -> Position
        requires { Measures self.old }
        ensures line { result.line ≡ positions.line_of self.old.text.now offset }
        ensures column { result.column ≡ positions.column_of self.old.text.now offset }
        ensures measures { Measures self.new }
        ensures same_text { self.new.text.now ≡ self.old.text.now }
    {
        if offset < self.offset || offset >= self.text.len() {
            return position_of(self.text, offset);
        }
        self.position = position_at(self.text, self.offset, self.position, offset);
        self.offset = offset;
        self.position
    }
}

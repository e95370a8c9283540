//! Classes of characters.

ghost use Rattle.std.specs.Prelude.{◌≡◌, ◌≤◌, length};
ghost use Rattle.std.specs.Str.{chars};
ghost use Rattle.sbl_text.specs.Classes.{is_white};
ghost use Rattle.sbl_text.specs.Skip as spec;

use sbl_token::split_first;

/// A class of characters that the lexer skips over.
#[derive(Clone, Copy, Debug)]
pub enum CharKind {
    White,
    Letter,
    Word,
    Digit,
    Line,
    Black,
}

fn is_white(c: char) -> bool
    ensures { result ≡ is_white c }
{
    ('\t' <= c && c <= '\r') || (c == ' ' || c == '\u{feff}')
}

/// Returns whether the character is in the class.
pub fn is_in(class: CharKind, c: char) -> bool
    ensures { result ≡ spec.is_in class c }
{
    match class {
        CharKind::White => is_white(c),
        CharKind::Letter => ('A' <= c && c <= 'Z') || ('a' <= c && c <= 'z'),
        CharKind::Word => {
            (('A' <= c && c <= 'Z') || ('a' <= c && c <= 'z'))
                || (('0' <= c && c <= '9') || c == '_')
        }
        CharKind::Digit => '0' <= c && c <= '9',
        CharKind::Line => c != '\n',
        CharKind::Black => !is_white(c),
    }
}

/// Skips the leading characters that are in the class and returns the rest of the text.
pub fn past(class: CharKind, mut text: &str) -> &str
    ensures value { chars result.now ≡ spec.past (spec.is_in class) (chars text.entry.now) }
    ensures within { length result.now ≤ length text.entry.now }
{
    while let Some((c, rest)) = split_first(text) {
        if !is_in(class, c) {
            return text;
        }
        text = rest;
    }
    text
}

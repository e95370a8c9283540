//! An insertion of a literal that has no closing character, and characters outside of a literal that may be meant inside of one.

use crate::foreign::is_letter;
use crate::reasons::reason;
use crate::sentences::Place;
use crate::sites::push_besides;
use crate::text_lines::line_at;
use sbl_source_map::{Position, ScriptFault, position_of};
use sbl_text::{Inserts, Kind, Lexer};
use std::alloc::{AllocError, Global};

/// Returns the two characters of a token as insert characters.
fn inserts_of(text: &str) -> Option<Inserts> {
    let mut characters = text.chars();
    let opening = characters.next()?;
    let closing = characters.next()?;
    Some(Inserts { opening, closing })
}

/// Returns the insert characters that hold after the tokens of a text, if there are some. The text may end in a literal.
fn inserts_after(alloc: Global, text: &[u8]) -> Option<Inserts> {
    let Ok(text) = str::from_utf8(text) else {
        return None;
    };
    let mut lexer = Lexer::new(alloc, text);
    let mut found = None;
    for _ in 0..text.len() {
        let Ok(Some(token)) = lexer.next() else {
            return found;
        };
        if token.kind == Kind::Inserts {
            found = inserts_of(token.text);
        }
    }
    found
}

/// Returns the insert characters that hold at a place: in a typed block those of the script.
fn inserts_at(place: Place<'_>) -> Option<Inserts> {
    let Place { faulty, spot } = place;
    match faulty.part {
        Some(_) => inserts_after(faulty.alloc, faulty.script),
        None => inserts_after(
            faulty.alloc,
            faulty.text.get(..spot.begin).unwrap_or(faulty.text),
        ),
    }
}

/// Returns where an insertion begins, in a text that begins with a literal or an insertion, that has no end, or whose name has white space
/// and a quote or the end of a line.
fn open_insertion(text: &str, inserts: Inserts) -> Option<usize> {
    let mut begin = None;
    let (mut has_blank, mut has_end) = (false, false);
    let mut at: usize = 0;
    for character in text.chars() {
        let is_end = character == '\'' || character == '\n';
        if begin.is_some() {
            has_blank = has_blank || character.is_whitespace();
            has_end = has_end || is_end;
            if character == inserts.closing {
                begin = None;
            } else if has_blank && has_end {
                return begin;
            }
        } else if character == inserts.opening {
            begin = Some(at);
            has_blank = false;
            has_end = false;
        } else if at > 0 && is_end {
            return None;
        }
        at = at.saturating_add(character.len_utf8());
    }
    begin
}

/// Appends what is wrong with a literal or an insertion: that the closing character is missing, if that is so.
pub(crate) fn push_insertion(shown: &mut String, place: Place<'_>) -> Result<(), AllocError> {
    let Place { faulty, spot } = place;
    let rest = str::from_utf8(faulty.text.get(spot.begin..).unwrap_or(&[])).unwrap_or("");
    let Some(inserts) = inserts_at(place) else {
        return push_unclosed(shown, place, None);
    };
    let closing = inserts.closing;
    match (open_insertion(rest, inserts), faulty.fault) {
        (Some(0), ScriptFault::UnknownEscape { .. } | ScriptFault::BadCode { .. }) => {
            shown.push_str("the insertion that begins here has no closing ")?;
            shown.push(closing)
        }
        (Some(length), ScriptFault::UnclosedString { .. }) => {
            let begin = spot.begin.saturating_add(length);
            let Position { line, column } = position_of(faulty.text, begin);
            let text = format!(in faulty.alloc;
                "the insertion that begins at {line}:{column} has no closing {closing}"
            )?;
            shown.push_str(text.as_str())
        }
        _ => push_unclosed(shown, place, Some(inserts)),
    }
}

/// Appends what is wrong with a literal or an insertion by its fault alone. If a literal has no closing quote and begins at the
/// end of another one, or if its line has two quotes after a letter, a quote may be meant as one inside of a literal.
fn push_unclosed(
    shown: &mut String,
    place: Place<'_>,
    inserts: Option<Inserts>,
) -> Result<(), AllocError> {
    let Place { faulty, spot } = place;
    shown.push_str(reason(faulty.fault))?;
    let before = faulty.text.get(..spot.begin).unwrap_or(&[]);
    let line = line_at(faulty.text, position_of(faulty.text, spot.begin).line);
    let follows_quote = matches!(before.last(), Some(byte) if *byte == b'\'');
    let is_meant = follows_quote || doubles_quote(line);
    if !is_meant || !matches!(faulty.fault, ScriptFault::UnclosedString { .. }) {
        return Ok(());
    }
    shown.push_str(". A quote in a literal is ")?;
    match inserts {
        None => shown.push_str("{'}, with stringescapes {} above it"),
        Some(inserts) => {
            shown.push(inserts.opening)?;
            shown.push('\'')?;
            shown.push(inserts.closing)
        }
    }
}

/// Returns whether a line has two quotes after a letter, as other languages write a quote in a literal.
fn doubles_quote(line: &[u8]) -> bool {
    let mut follows_letter = false;
    let mut follows_quote = false;
    for byte in line {
        let is_quote = *byte == b'\'';
        if is_quote && follows_quote {
            return true;
        }
        follows_quote = is_quote && follows_letter;
        follows_letter = byte.is_ascii_alphabetic() || !byte.is_ascii();
    }
    false
}

/// Returns whether a quote is before an offset, and between them no white space.
pub(crate) fn follows_quote(text: &[u8], offset: usize) -> bool {
    let mut follows = false;
    for byte in text.get(..offset).unwrap_or(text) {
        follows = *byte == b'\'' || (follows && !byte.is_ascii_whitespace());
    }
    follows
}

/// Returns whether a line has an odd number of quotes.
fn has_odd_quotes(line: &[u8]) -> bool {
    let mut is_odd = false;
    for byte in line {
        is_odd = is_odd != (*byte == b'\'');
    }
    is_odd
}

/// Appends that insertions need `stringescapes`, or that a quote may be missing, if a character that begins no token may be meant
/// inside of a literal.
pub(crate) fn push_missing_quote(
    shown: &mut String,
    place: Place<'_>,
    character: char,
) -> Result<(), AllocError> {
    let Place { faulty, spot } = place;
    let rest = faulty.text.get(spot.begin..).unwrap_or(&[]);
    let is_insertion = character == '}' || rest.starts_with(b"{'");
    if is_insertion && inserts_at(place).is_none() {
        return push_besides(shown, "A literal with {..} needs stringescapes {} above it");
    }
    let is_inside = character == '{' && !follows_quote(faulty.text, spot.begin);
    let line = line_at(faulty.text, position_of(faulty.text, spot.begin).line);
    if (is_inside || is_letter(character)) && has_odd_quotes(line) {
        return push_besides(shown, "Look for a missing quote before it, too");
    }
    Ok(())
}

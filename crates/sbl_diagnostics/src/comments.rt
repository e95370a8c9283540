//! A fault after a comment that has another one inside it, since comments do not nest, or in a comment that begins as in other languages.

use crate::grammar::outlook_after;
use crate::sentences::{Place, is_blank, open_in, tokens_before};
use crate::sites::push_besides;
use sbl_source_map::{Position, ScriptFault, position_of};
use sbl_text::{Kind, Lexer, Sign, Token};
use std::alloc::{AllocError, Global};

/// Returns where the last comment begins that has `/*` inside it, in a text that has comments and white space alone.
fn nested_in(text: &[u8]) -> Option<usize> {
    let mut found = None;
    let mut begin = None;
    let mut is_line = false;
    let mut last = b' ';
    let mut at: usize = 0;
    for byte in text {
        let pair = (last, *byte);
        last = *byte;
        if is_line {
            is_line = *byte != b'\n';
        } else if begin.is_none() && matches!(pair, (b'/', b'/')) {
            is_line = true;
        } else if begin.is_none() && matches!(pair, (b'/', b'*')) {
            begin = Some(at.saturating_sub(1));
            last = b' ';
        } else if matches!(pair, (b'/', b'*')) {
            found = begin;
        } else if begin.is_some() && matches!(pair, (b'*', b'/')) {
            begin = None;
            last = b' ';
        }
        at = at.saturating_add(1);
    }
    found
}

/// Returns the bytes of a text between two offsets.
fn between(text: &[u8], begin: usize, end: usize) -> &[u8] {
    let text = text.get(..end).unwrap_or(text);
    text.get(begin..).unwrap_or(&[])
}

/// Returns where the last comment before an offset begins that has `/*` inside it. The tokens are those before the offset.
fn nested_before(text: &[u8], tokens: &[Token<'_>], offset: usize) -> Option<usize> {
    let mut found = None;
    let mut end: usize = 0;
    for token in tokens {
        if let Some(at) = nested_in(between(text, end, token.start)) {
            found = Some(end.saturating_add(at));
        }
        end = token.end;
    }
    match nested_in(between(text, end, offset)) {
        Some(at) => Some(end.saturating_add(at)),
        None => found,
    }
}

/// Returns whether `*/` is in a text, and no `/*` before it.
fn has_end(text: &[u8]) -> bool {
    let mut last = b' ';
    for byte in text {
        if matches!((last, *byte), (b'*', b'/')) {
            return true;
        }
        if matches!((last, *byte), (b'/', b'*')) {
            return false;
        }
        last = *byte;
    }
    false
}

/// Returns whether a word or a sign of a comment can have this fault.
fn is_of_comment(fault: ScriptFault) -> bool {
    match fault {
        ScriptFault::BadCharacter { .. } | ScriptFault::UnclosedString { .. } => true,
        ScriptFault::Syntax { .. } | ScriptFault::OutOfProfile { .. } => true,
        _ => false,
    }
}

/// Appends that the place is after the end of a comment that has another one inside it, if that is so and a `*/` is left over, or that
/// a `*/` ends no comment. Returns whether it did.
pub(crate) fn push_nested(shown: &mut String, place: Place<'_>) -> Result<bool, AllocError> {
    let Place { faulty, spot } = place;
    let rest = faulty.text.get(spot.begin..).unwrap_or(&[]);
    if !is_of_comment(faulty.fault) || !has_end(rest) {
        return Ok(false);
    }
    let Some(tokens) = tokens_before(faulty.alloc, faulty.text, spot.begin) else {
        return Ok(false);
    };
    let Some(begin) = nested_before(faulty.text, &tokens, spot.begin) else {
        if !rest.starts_with(b"*/") {
            return Ok(false);
        }
        shown.push_str("this */ ends no comment: take it away, or put /* before it")?;
        return Ok(true);
    };
    let Position { line, column } = position_of(faulty.text, begin);
    let text = format!(in faulty.alloc;
        "comments do not nest: the one that begins at {line}:{column} ends at its first */, before this"
    )?;
    shown.push_str(text.as_str())?;
    Ok(true)
}

/// Returns where the line of an offset begins.
fn line_start(text: &[u8], offset: usize) -> usize {
    let mut start: usize = 0;
    let mut at: usize = 0;
    for byte in text.get(..offset).unwrap_or(text) {
        at = at.saturating_add(1);
        if *byte == b'\n' {
            start = at;
        }
    }
    start
}

/// Returns the first sign of a text if it may be meant to begin a comment: `/`, or `-` with another one after it.
fn first_sign(alloc: Global, text: &[u8]) -> Option<Sign> {
    let Ok(text) = str::from_utf8(text) else {
        return None;
    };
    let mut lexer = Lexer::new(alloc, text);
    let Ok(Some(first)) = lexer.next() else {
        return None;
    };
    if first.kind == Kind::Sign(Sign::Slash) {
        return Some(Sign::Slash);
    }
    let Ok(Some(second)) = lexer.next() else {
        return None;
    };
    let is_pair = second.kind == first.kind && second.start == first.end;
    if is_pair && first.kind == Kind::Sign(Sign::Minus) {
        return Some(Sign::Minus);
    }
    None
}

/// Returns whether the line of a place begins with a sign of a comment of other languages that cannot come there.
fn is_comment_meant(place: Place<'_>) -> Result<bool, AllocError> {
    let Place { faulty, spot } = place;
    let start = line_start(faulty.text, spot.begin);
    if spot.token == ";" {
        return Ok(is_blank(between(faulty.text, start, spot.begin)));
    }
    let rest = faulty.text.get(start..).unwrap_or(&[]);
    let Some(sign) = first_sign(faulty.alloc, rest) else {
        return Ok(false);
    };
    let Some(before) = tokens_before(faulty.alloc, faulty.text, start) else {
        return Ok(false);
    };
    match outlook_after(faulty.alloc, &before, faulty.part)? {
        Some(outlook) => Ok(!outlook.takes(Kind::Sign(sign))),
        None => Ok(open_in(faulty.alloc, &before)?.is_none()),
    }
}

/// Appends how a comment begins if the line of a place begins as a comment of other languages.
pub(crate) fn push_comment(shown: &mut String, place: Place<'_>) -> Result<(), AllocError> {
    if is_of_comment(place.faulty.fault) && is_comment_meant(place)? {
        return push_besides(shown, "A comment begins with //");
    }
    Ok(())
}

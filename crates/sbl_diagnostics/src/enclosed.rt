//! Parentheses at the begin of an among that may be meant to hold one of its strings.

use crate::characters::push_cut;
use crate::sentences::Place;
use crate::sites::push_besides;
use sbl_text::{Kind, Lexer, Sign, Word};
use std::alloc::{AllocError, Global};

/// Returns whether the next token is an opening parenthesis.
fn opens(lexer: &mut Lexer<'_>) -> bool {
    match lexer.next() {
        Ok(Some(token)) => token.kind == Kind::Sign(Sign::Open),
        _ => false,
    }
}

/// Returns the literal that two opening parentheses at the begin of a text have after them, if they do.
fn enclosed_literal(alloc: Global, text: &[u8]) -> Option<&str> {
    let Ok(text) = str::from_utf8(text) else {
        return None;
    };
    let mut lexer = Lexer::new(alloc, text);
    if !opens(&mut lexer) || !opens(&mut lexer) {
        return None;
    }
    match lexer.next() {
        Ok(Some(token)) if token.kind == Kind::Literal => Some(token.text),
        _ => None,
    }
}

/// Appends what to do if the first literal of an among is one of its strings, and it is in parentheses. The parenthesis of the among
/// is at this offset.
pub(crate) fn push_enclosed(
    shown: &mut String,
    place: Place<'_>,
    open: usize,
) -> Result<(), AllocError> {
    let rest = place.faulty.text.get(open..).unwrap_or(&[]);
    let Some(literal) = enclosed_literal(place.faulty.alloc, rest) else {
        return Ok(());
    };
    push_besides(shown, "If ")?;
    push_cut(shown, literal)?;
    shown.push_str(" is one of its strings, take the parentheses around it away")
}

/// Appends the same if the place is an among.
pub(crate) fn push_enclosed_in(shown: &mut String, place: Place<'_>) -> Result<(), AllocError> {
    let spot = place.spot;
    if spot.kind != Some(Kind::Word(Word::Among)) {
        return Ok(());
    }
    push_enclosed(shown, place, spot.begin.saturating_add(spot.token.len()))
}

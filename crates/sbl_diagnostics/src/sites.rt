//! A token that cannot come, and what is before it.

use crate::characters::push_named;
use crate::grammar::{begins_command, is_operator};
use crate::sentences::{Faulty, Spot};
use sbl_text::{Kind, Lexer, Sign, Token, Word};
use std::alloc::{AllocError, Global};

/// A token before the place of a fault.
#[derive(Clone, Copy)]
pub(crate) struct Piece<'a> {
    pub(crate) kind: Kind,
    pub(crate) text: &'a str,
    pub(crate) end: usize,
}

impl<'a> Piece<'a> {
    /// Returns the kind, the text and the end of a token.
    fn new(token: &Token<'a>) -> Piece<'a> {
        Piece {
            kind: token.kind,
            text: token.text,
            end: token.end,
        }
    }
}

/// The place of a fault of a text, and the two tokens before it.
#[derive(Clone, Copy)]
pub(crate) struct Site<'a> {
    pub(crate) faulty: Faulty<'a>,
    pub(crate) spot: Spot<'a>,
    pub(crate) last: Option<Piece<'a>>,
    pub(crate) prior: Option<Piece<'a>>,
}

impl<'a> Site<'a> {
    /// Returns the site after these tokens.
    pub(crate) fn new(faulty: Faulty<'a>, tokens: &[Token<'a>], spot: Spot<'a>) -> Site<'a> {
        let (last, prior) = match tokens {
            [.., prior, last] => (Some(Piece::new(last)), Some(Piece::new(prior))),
            [last] => (Some(Piece::new(last)), None),
            [] => (None, None),
        };
        Site {
            faulty,
            spot,
            last,
            prior,
        }
    }

    /// Returns the kind of the token before the place.
    pub(crate) fn last_kind(self) -> Option<Kind> {
        match self.last {
            Some(piece) => Some(piece.kind),
            None => None,
        }
    }

    /// Returns the text of the token before the place, if it is of this kind.
    pub(crate) fn last_of(self, kind: Kind) -> Option<&'a str> {
        match self.last {
            Some(piece) if piece.kind == kind => Some(piece.text),
            _ => None,
        }
    }

    /// Returns whether this word is at the place.
    pub(crate) fn is_at(self, word: Word) -> bool {
        self.spot.kind == Some(Kind::Word(word))
    }

    /// Returns whether `or` or `and` is at the place.
    pub(crate) fn is_at_joiner(self) -> bool {
        self.is_at(Word::Or) || self.is_at(Word::And)
    }

    /// Returns the sign at the place that sets or compares an integer, if there is one.
    pub(crate) fn operator(self) -> Option<Sign> {
        match self.spot.kind {
            Some(Kind::Sign(sign)) if is_operator(sign) => Some(sign),
            _ => None,
        }
    }

    /// Returns the kinds of the two tokens after the one at the place.
    pub(crate) fn next_kinds(self) -> (Option<Kind>, Option<Kind>) {
        let rest = self.faulty.text.get(self.spot.begin..).unwrap_or(&[]);
        let Ok(rest) = str::from_utf8(rest) else {
            return (None, None);
        };
        let mut lexer = Lexer::new(self.faulty.alloc, rest);
        let _ = next_kind(&mut lexer);
        let next = next_kind(&mut lexer);
        let second = next_kind(&mut lexer);
        (next, second)
    }

    /// Returns whether a command can begin with the token at the place.
    pub(crate) fn has_command(self) -> bool {
        match self.spot.kind {
            Some(kind) => begins_command(kind),
            None => false,
        }
    }
}

/// Returns the kind of the next token, if there is one and it can be read.
fn next_kind(lexer: &mut Lexer<'_>) -> Option<Kind> {
    match lexer.next() {
        Ok(Some(token)) => Some(token.kind),
        _ => None,
    }
}

/// Appends a sentence after a clause, and returns that it did.
pub(crate) fn push_advice(shown: &mut String, sentence: &str) -> Result<bool, AllocError> {
    shown.push_str(". ")?;
    push_named(shown, sentence)?;
    Ok(true)
}

/// Appends a sentence that was made for the place, and returns that it did.
pub(crate) fn push_text(shown: &mut String, sentence: String) -> Result<bool, AllocError> {
    push_advice(shown, sentence.as_str())
}

/// Appends a sentence after what is said already, whether that ends with a point or not.
pub(crate) fn push_besides(shown: &mut String, sentence: &str) -> Result<(), AllocError> {
    let is_ended = matches!(shown.as_str().as_bytes().last(), Some(byte) if *byte == b'.');
    shown.push_str(if is_ended { " " } else { ". " })?;
    shown.push_str(sentence)
}

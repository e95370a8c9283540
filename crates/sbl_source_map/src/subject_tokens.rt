//! The tokens that the checks look at.

ghost use Rattle.std.specs.Prelude.{◌≡◌, [], Bool, map, is_some, IfOk, OnOk, false};
ghost use Rattle.sbl_token.specs.Lexemes.{lexeme_of};
ghost use Rattle.sbl_text.specs.Tokens.{placed_of};
ghost use Rattle.sbl_token.specs.Lexemes as lexemes;
ghost use Rattle.sbl_source_map.specs.SubjectTokens as spec;
ghost use Rattle.sbl_source_map.specs.Walks as walk;

use sbl_text::{Kind, Sign, Token, Word};
use std::alloc::{AllocError, Global};

/// The parentheses that are open before a token, and whether the token is right after `among`.
#[derive(Drop)]
pub struct Brackets {
    // For each open parenthesis whether it is an among's; the innermost is last.
    open: Vec<bool>,
    follows_among: bool,
}

/// Returns whether the token is the word `among`.
pub(crate) fn is_among(token: &Token<'_>) -> bool
    ensures { result ≡ spec.is_among (lexeme_of token.now) }
{
    match token.kind {
        Kind::Word(word) => is_among_word(word),
        _ => false,
    }
}

fn is_among_word(word: Word) -> bool
    ensures { result ≡ spec.is_among (lexemes.word word) }
{
    matches!(word, Word::Among)
}

/// Returns whether the checks look at the token, given whether it is right in the parentheses of an among.
fn is_subject(in_among: bool, token: &Token<'_>) -> bool
    ensures { result ≡ is_some (spec.subject_in in_among (lexeme_of token.now)) }
{
    match token.kind {
        Kind::Name => true,
        Kind::Literal => in_among,
        Kind::Word(word) => is_subject_word(word),
        _ => false,
    }
}

fn is_subject_word(word: Word) -> bool
    ensures { (in_among : Bool) → result ≡ is_some (spec.subject_in in_among (lexemes.word word)) }
{
    matches!(word, Word::Substring | Word::Among | Word::Backwards)
}

impl Brackets {
    /// Returns the state before the first token. Does not allocate.
    fn new(alloc: Global) -> Brackets
        ensures open { walk.open_in result ≡ [] }
        ensures follows { result.follows_among ≡ false }
    {
        Brackets {
            open: Vec::new(alloc),
            follows_among: false,
        }
    }

    /// Returns whether the innermost parentheses are those of an among.
    fn is_in_among(&self) -> bool
        ensures { result ≡ spec.is_in_among (walk.open_in self.now) }
    {
        match self.open.last() {
            Some(is_among) => *is_among,
            None => false,
        }
    }

    /// Goes past a token. Returns `AllocError` if an allocation fails.
    fn pass(&mut self, token: &Token<'_>) -> Result<(), AllocError>
        ensures open { OnOk result (walk.open_in self.new ≡ spec.open_after self.old.follows_among (lexeme_of token.now) (walk.open_in self.old)) }
        ensures follows { OnOk result (self.new.follows_among ≡ spec.is_among (lexeme_of token.now)) }
    {
        match token.kind {
            Kind::Sign(Sign::Open) => self.open.push(self.follows_among)?,
            Kind::Sign(Sign::Close) => {
                self.open.pop();
            }
            _ => {}
        }
        self.follows_among = is_among(token);
        Ok(())
    }
}

/// Returns the byte range of the token that is the one with this number, from 0, of those that the checks look at.
/// Returns `None` if there are not so many, and `AllocError` if an allocation fails.
pub fn subject_at(
    alloc: Global,
    tokens: &[Token<'_>],
    number: usize,
) -> Result<Option<(usize, usize)>, AllocError>
    ensures { IfOk result (λ o. o ≡ walk.range_at number (spec.subject_tokens (map placed_of tokens.now))) }
{
    let mut brackets = Brackets::new(alloc);
    let mut left = number;
    for token in tokens {
        if is_subject(brackets.is_in_among(), token) {
            if left == 0 {
                return Ok(Some((token.start, token.end)));
            }
            left -= 1;
        }
        brackets.pass(token)?;
    }
    Ok(None)
}

/// Returns the byte ranges of the tokens that the checks look at, in order. Returns `AllocError` if an allocation fails.
pub fn subject_ranges(
    alloc: Global,
    tokens: &[Token<'_>],
) -> Result<Vec<(usize, usize)>, AllocError>
    ensures { IfOk result (λ ranges. ranges.items ≡ map walk.range_of (spec.subject_tokens (map placed_of tokens.now))) }
{
    let mut brackets = Brackets::new(alloc);
    let mut ranges = Vec::new(alloc);
    for token in tokens {
        if is_subject(brackets.is_in_among(), token) {
            ranges.push((token.start, token.end))?;
        }
        brackets.pass(token)?;
    }
    Ok(ranges)
}

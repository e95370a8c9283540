//! The part of a script's text that a block replaces.

ghost use Rattle.std.specs.Prelude.{◌≡◌, ◌≤◌, ◌<◌, ◌+◌, ◌^◌, ◌++◌, ℕ, IfOk, IfSome, MatchOption, None, Some, length, map};
ghost use Rattle.std.specs.Option.{option_map};
ghost use Rattle.sbl_script.specs.Parts.{view_part};
ghost use Rattle.sbl_token.specs.Lexemes.{lexeme_of};
ghost use Rattle.sbl_text.specs.Tokens.{placed_of};
ghost use Rattle.sbl_source_map.specs.ItemWords as spec;
ghost use Rattle.sbl_source_map.specs.PartTokens as parts;
ghost use Rattle.sbl_source_map.specs.PartTokens.{IsCutAt, IsCutAtPart, IsCutAtRange};
ghost use Rattle.sbl_source_map.specs.Walks.{InOrder};

use crate::fault_places::tokens_of;
use crate::subject_tokens::is_among;
use sbl_script::Part;
use sbl_text::{Kind, Sign, Token, Word};
use std::alloc::{AllocError, Global};

/// Tokens that were looked for; `None` if they are not there.
type Found<'t, 'a> = Option<&'t [Token<'a>]>;

/// A text that is cut at a part.
#[derive(Clone, Copy, Debug, PartialEq, Eq)]
pub struct Excerpt<'a> {
    /// The bytes before the part.
    pub before: &'a [u8],
    /// Those of the part.
    pub part: &'a [u8],
    /// Those after it.
    pub after: &'a [u8],
}

/// Returns whether an item can begin with this word. Does not allocate.
pub fn begins_item(word: Word) -> bool
    ensures { result ≡ spec.begins_item word }
{
    matches!(
        word,
        Word::BackwardMode
            | Word::Booleans
            | Word::Define
            | Word::Externals
            | Word::Groupings
            | Word::Integers
            | Word::Routines
            | Word::StringDef
            | Word::StringEscapes
            | Word::Strings
    )
}

/// Returns whether the token begins an item, or ends the parentheses that items are in.
fn ends_item(token: &Token<'_>) -> bool
    ensures { result ≡ parts.ends_item (lexeme_of token.now) }
{
    match token.kind {
        Kind::Word(word) => begins_item(word),
        _ => closes(token),
    }
}

fn is_define(token: &Token<'_>) -> bool
    ensures { result ≡ parts.is_define (lexeme_of token.now) }
{
    matches!(token.kind, Kind::Word(Word::Define))
}

fn is_as(token: &Token<'_>) -> bool
    ensures { result ≡ parts.is_as (lexeme_of token.now) }
{
    matches!(token.kind, Kind::Word(Word::As))
}

fn closes(token: &Token<'_>) -> bool
    ensures { result ≡ parts.closes (lexeme_of token.now) }
{
    matches!(token.kind, Kind::Sign(Sign::Close))
}

/// Returns how many parentheses are open after the token.
pub fn depth_after(token: &Token<'_>, depth: usize) -> usize
    requires { depth + 1 < 2 ^ 64 }
    ensures { result ≡ parts.depth_after (lexeme_of token.now) depth }
{
    match token.kind {
        Kind::Sign(Sign::Open) => depth + 1,
        Kind::Sign(Sign::Close) => depth.saturating_sub(1),
        _ => depth,
    }
}

/// Returns how many of these tokens come before the end of their item.
fn count_until_end(tokens: &[Token<'_>]) -> usize
    ensures { result ≡ length (parts.until_end 0 (map placed_of tokens.now)) }
{
    let mut depth: usize = 0;
    let mut count: usize = 0;
    for token in tokens {
        if depth == 0 && ends_item(token) {
            return count;
        }
        depth = depth_after(token, depth);
        count += 1;
    }
    count
}

/// Returns the tokens of an item from its first ones: those up to the next item, or to the parenthesis that items are in.
fn item_tokens<'t, 'a>(tokens: &'t [Token<'a>]) -> &'t [Token<'a>]
    ensures { map placed_of result.now ≡ parts.until_end 0 (map placed_of tokens.now) }
{
    &tokens[..count_until_end(tokens)]
}

/// Returns the tokens after `define NAME`, of a routine after `define NAME as`; `None` if these tokens begin otherwise.
fn after_head<'t, 'a>(tokens: &'t [Token<'a>], name: &str, is_routine: bool) -> Found<'t, 'a>
    ensures { option_map (λ ts. map placed_of ts.now) result ≡ parts.after_head is_routine name.now (map placed_of tokens.now) }
{
    let (define, rest) = tokens.split_first()?;
    let (named, rest) = rest.split_first()?;
    let (next, body) = rest.split_first()?;
    if !is_define(define) || named.text != name || is_as(next) != is_routine {
        return None;
    }
    Some(if is_routine { body } else { rest })
}

/// Returns the tokens of the first definition of this name: the body of a routine, or the terms of a grouping.
fn definition_tokens<'t, 'a>(tokens: &'t [Token<'a>], name: &str, is_routine: bool) -> Found<'t, 'a>
    ensures { option_map (λ ts. map placed_of ts.now) result ≡ parts.definition_tokens is_routine name.now (map placed_of tokens.now) }
{
    for i in 0..tokens.len() {
        if let Some(rest) = after_head(&tokens[i..], name, is_routine) {
            return Some(item_tokens(rest));
        }
    }
    None
}

/// Returns how many tokens there are up to the parenthesis that closes the first one that opens.
fn count_until_closed(tokens: &[Token<'_>]) -> usize
    ensures { result ≡ length (parts.until_closed 0 (map placed_of tokens.now)) }
{
    let mut depth: usize = 0;
    let mut count: usize = 0;
    for token in tokens {
        count += 1;
        if closes(token) && depth <= 1 {
            return count;
        }
        depth = depth_after(token, depth);
    }
    count
}

/// Returns these tokens up to the parenthesis that closes the first one that opens.
fn bracket_tokens<'t, 'a>(tokens: &'t [Token<'a>]) -> &'t [Token<'a>]
    ensures { map placed_of result.now ≡ parts.until_closed 0 (map placed_of tokens.now) }
{
    &tokens[..count_until_closed(tokens)]
}

/// Returns the tokens of the `k`-th among, counted from 1 by the words `among`.
fn among_tokens<'t, 'a>(tokens: &'t [Token<'a>], k: u64) -> Found<'t, 'a>
    ensures { option_map (λ ts. map placed_of ts.now) result ≡ option_map (parts.until_closed 0) (parts.from_among k (map placed_of tokens.now)) }
{
    let mut left = k;
    for i in 0..tokens.len() {
        if is_among(&tokens[i]) {
            if left == 1 {
                return Some(bracket_tokens(&tokens[i..]));
            }
            left = left.saturating_sub(1);
        }
    }
    None
}

/// Returns the tokens of a part.
fn part_tokens<'t, 'a>(tokens: &'t [Token<'a>], part: Part<'_>) -> Found<'t, 'a>
    ensures { option_map (λ ts. map placed_of ts.now) result ≡ parts.part_tokens (view_part part.entry) (map placed_of tokens.now) }
{
    match part {
        Part::Routine(name) => definition_tokens(tokens, name, true),
        Part::Among(name, k) => among_tokens(definition_tokens(tokens, name, true)?, k),
        Part::Grouping(name) => definition_tokens(tokens, name, false),
    }
}

/// Returns the text cut at two offsets.
fn cut_at(text: &[u8], begin: usize, end: usize) -> Excerpt<'_>
    requires ordered { begin ≤ end }
    requires inside { end ≤ length text.now }
    ensures { IsCutAt text.now begin end result }
{
    let (before, rest) = text.split_at(begin);
    let (part, after) = rest.split_at(end - begin);
    Excerpt {
        before,
        part,
        after,
    }
}

/// Returns where the last of these tokens ends.
fn end_of(first: &Token<'_>, others: &[Token<'_>]) -> usize
    ensures { result ≡ parts.last_end (placed_of first.now) (map placed_of others.now) }
{
    match others.last() {
        Some(last) => last.end,
        None => first.end,
    }
}

/// Returns the text cut before the first of these tokens and after the last, or `None` if there is no token.
fn cut_at_tokens<'a>(text: &'a [u8], tokens: &[Token<'_>]) -> Option<Excerpt<'a>>
    requires { InOrder 0 (map placed_of tokens.now) (length text.now) }
    ensures { IsCutAtRange text.now (parts.range_of (map placed_of tokens.now)) result }
{
    match tokens {
        [first, others @ ..] => Some(cut_at(text, first.start, end_of(first, others))),
        [] => None,
    }
}

/// Returns the text of a script cut at a part, or `None` if it has no such part. The pieces together are the text. Returns
/// `AllocError` if an allocation fails.
pub fn cut_at_part<'a>(
    alloc: Global,
    text: &'a str,
    part: Part<'_>,
) -> Result<Option<Excerpt<'a>>, AllocError>
    ensures pieces { IfOk result (λ o. IfSome o (λ c. text.now ≡ c.before.now ++ c.part.now ++ c.after.now)) }
    ensures part { IfOk result (λ o. IsCutAtPart (view_part part.entry) text.now o) }
{
    let Some(tokens) = tokens_of(alloc, text)? else {
        return Ok(None);
    };
    match part_tokens(&tokens, part) {
        Some(found) => Ok(cut_at_tokens(text.as_bytes(), found)),
        None => Ok(None),
    }
}

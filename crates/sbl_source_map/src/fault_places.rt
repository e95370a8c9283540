//! The place of a fault of the checks.

ghost use Rattle.std.specs.Prelude.{◌≡◌, ◌≤◌, List, None, Some, IfOk, IfSome, MatchOption, length, map};
ghost use Rattle.std.specs.List.{All};
ghost use Rattle.std.specs.Str.{IsUtf8, chars};
ghost use Rattle.sbl_token.specs.Lexemes.{SaysFitting};
ghost use Rattle.sbl_text.specs.{Directives.start, Tokens.ArePlaced, Tokens.PlacedToken, Tokens.placed_of};
ghost use Rattle.sbl_ast.specs.View.{view_items};
ghost use Rattle.sbl_script.specs.Reading as spec;
ghost use Rattle.sbl_script.specs.Reading.{HasTokens, max_script};
ghost use Rattle.sbl_source_map.specs.FaultPlaces as places;
ghost use Rattle.sbl_source_map.specs.FaultPlaces.{HasNoFaultAt, IsOffset, IsPlaceIn, IsTokenOffset};
ghost use Rattle.sbl_source_map.specs.TokenTrees.{HaveNoTree, IsTreeOf};

use crate::fault_kinds::is_same;
use crate::laws::{faults_are_at_tokens, token_is_one};
use crate::subject_tokens::subject_at;
use sbl_ast::ScriptItem;
use sbl_parser::{is_left_out, one_fault, one_tree, parse};
use sbl_resolver::first_fault;
use sbl_script::MAX_SCRIPT;
use sbl_text::laws::{first_fault_is_one, tokens_are_one};
use sbl_text::{ScriptFault, Token, tokens};
use std::alloc::{AllocError, Global};

/// A fault of the checks, and the byte range of the token at which it is.
#[derive(Clone, Copy, Debug, PartialEq, Eq)]
pub struct FaultPlace {
    /// The fault.
    pub fault: ScriptFault,
    /// The byte offset at which the token begins.
    pub begin: usize,
    /// The byte offset at which the token ends (exclusive).
    pub end: usize,
}

/// Returns the bytes as text, or `None` if they are too long or not UTF-8.
fn text_of(bytes: &[u8]) -> Option<&str>
    ensures { MatchOption result ((ts : List PlacedToken) → HasTokens start bytes.now ts → ⊥) (λ s. (s.now ≡ bytes.now) × (length bytes.now ≤ max_script) × IsUtf8 bytes.now) }
{
    if bytes.len() > MAX_SCRIPT {
        return None;
    }
    std::str::from_utf8(bytes).ok()
}

/// Returns the tokens of a text, or `None` if it has none. Returns `AllocError` if an allocation fails.
pub fn tokens_of<'a>(alloc: Global, text: &'a str) -> Result<Option<Vec<Token<'a>>>, AllocError>
    ensures placed { IfOk result (λ o. MatchOption o ((ts : List PlacedToken) → ArePlaced (chars text.now) ts → ⊥) (λ ts. ArePlaced (chars text.now) (map placed_of ts.items))) }
    ensures fitting { IfOk result (λ o. IfSome o (λ ts. All SaysFitting ts.items)) }
{
    first_fault_is_one();
    match tokens(alloc, text) {
        Ok(found) => Ok(Some(found)),
        Err(fault) => match fault {
            ScriptFault::OutOfMemory => Err(AllocError),
            _ => Ok(None),
        },
    }
}

/// Returns the byte offset of the first token that the workbench does not support; `None` if it supports all.
pub(crate) fn first_left_out(tokens: &[Token<'_>]) -> Option<usize>
    ensures { result ≡ spec.first_left_out (map placed_of tokens.now) }
{
    for token in tokens {
        if is_left_out(token) {
            return Some(token.start);
        }
    }
    None
}

/// Returns the tree of these tokens, or `None` if one is not supported or they have no tree. `end` is the length of
/// their text in bytes. Returns `AllocError` if an allocation fails.
fn tree_of(
    alloc: Global,
    tokens: &[Token<'_>],
    end: usize,
) -> Result<Option<Vec<ScriptItem>>, AllocError>
    ensures { IfOk result (λ o. MatchOption o (HaveNoTree (map placed_of tokens.now)) (λ items. IsTreeOf (map placed_of tokens.now) (view_items items.items))) }
{
    one_fault();
    if let Some(_place) = first_left_out(tokens) {
        return Ok(None);
    }
    match parse(alloc, tokens, end) {
        Ok(items) => Ok(Some(items)),
        Err(fault) => match fault {
            ScriptFault::OutOfMemory => Err(AllocError),
            _ => Ok(None),
        },
    }
}

/// Returns the fault with which `Script::parse` refuses a text, and the byte range of its token, if it is a fault of
/// the checks at a token: one of `DeclaredTwice`, `Undeclared`, `WrongKind`, `DefinedTwice`, `Undefined`, `WrongMode`,
/// `Substring`, `Starter`, `RepeatedString`, `EmptyAmong` and `NestedBackwards`.
///
/// Returns `None` exactly if the text has no such fault, and `AllocError` if an allocation fails.
pub fn place_of_fault(alloc: Global, text: &[u8]) -> Result<Option<FaultPlace>, AllocError>
    ensures { IfOk result (λ o. MatchOption o (HasNoFaultAt text.now) (λ p. IsPlaceIn text.now p)) }
{
    tokens_are_one();
    one_tree();
    let Some(text) = text_of(text) else {
        return Ok(None);
    };
    let Some(tokens) = tokens_of(alloc, text)? else {
        return Ok(None);
    };
    let Some(items) = tree_of(alloc, &tokens, text.len())? else {
        return Ok(None);
    };
    let Some((number, fault)) = first_fault(alloc, &items)? else {
        return Ok(None);
    };
    match subject_at(alloc, &tokens, number)? {
        Some((begin, end)) => Ok(Some(FaultPlace { fault, begin, end })),
        None => Ok(None),
    }
}

/// Returns the byte offset of the token at which the checks find this fault, or `None` if they do not find it in this text. Returns
/// `AllocError` if an allocation fails.
pub(crate) fn token_offset(
    alloc: Global,
    text: &[u8],
    fault: ScriptFault,
) -> Result<Option<usize>, AllocError>
    ensures { IfOk result (λ o. IsTokenOffset text.now fault o) }
{
    token_is_one();
    faults_are_at_tokens();
    match place_of_fault(alloc, text)? {
        Some(place) if is_same(place.fault, fault) => Ok(Some(place.begin)),
        _ => Ok(None),
    }
}

/// Returns the place that a fault has. Does not allocate.
pub(crate) fn place_in(fault: ScriptFault) -> Option<usize>
    ensures { result ≡ places.place_in fault }
{
    match fault {
        ScriptFault::BadCharacter { place }
        | ScriptFault::UnclosedString { place }
        | ScriptFault::UnclosedComment { place }
        | ScriptFault::UnknownEscape { place }
        | ScriptFault::BadCode { place }
        | ScriptFault::NumberTooLarge { place }
        | ScriptFault::Syntax { place }
        | ScriptFault::TooDeep { place }
        | ScriptFault::OutOfProfile { place } => Some(place),
        _ => None,
    }
}

/// Returns the byte offset of a fault: the place that the fault has, or that of the token at which the checks find this fault in
/// this text. Returns `None` if the fault has no place and the checks do not find it in this text, and `AllocError` if an
/// allocation fails.
pub fn offset_of_fault(
    alloc: Global,
    text: &[u8],
    fault: ScriptFault,
) -> Result<Option<usize>, AllocError>
    ensures { IfOk result (λ o. IsOffset text.now fault o) }
{
    match place_in(fault) {
        Some(place) => Ok(Some(place)),
        None => token_offset(alloc, text, fault),
    }
}

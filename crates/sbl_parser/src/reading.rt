//! Parses all tokens of a text.

ghost use Rattle.std.specs.Prelude.{◌≡◌, ◌⊎◌, ◌≤◌, ◌∷◌, [], List, IfOk, IfErr, length, map};
ghost use Rattle.sbl_token.specs.Lexemes.{lexeme_of};
ghost use Rattle.sbl_ast.specs.Terminal.{terminals_of};
ghost use Rattle.sbl_ast.specs.Tree as trees;
ghost use Rattle.sbl_ast.specs.Texts.{script, body};
ghost use Rattle.sbl_parser.specs.FirstStack.{first_stack};
ghost use Rattle.sbl_ast.specs.Texts as texts;
ghost use Rattle.sbl_parser.specs.Reading.{IsReadAs};
ghost use Rattle.sbl_parser.specs.TerminalReading as roles;
ghost use Rattle.sbl_ast.specs.View.{view_among, view_argument, view_items, view_row, view_term};
ghost use Rattle.sbl_ast.specs.Counts.{count_in_among};
ghost use Rattle.sbl_parser.specs.FaultOffsets.{IsFaultOf, place_at, fault_at_offset};
ghost use Rattle.sbl_parser.specs.Gives.{Fails};
ghost use Rattle.sbl_parser.specs.Laws.{FaultIsOne, TreeOrFault, TreesAreOne};
ghost use Rattle.sbl_ast.specs.Places.{lexemes_of, max_depth};
ghost use Rattle.sbl_parser.specs.Steps.{fault};
ghost use Rattle.sbl_parser.specs.Steps as wanted;

use crate::commands::{among, row};
use crate::cursor::{Cursor, at_end};
use crate::error::ReadError;
use crate::items::{items, terms};
use crate::role::Role;
use sbl_ast::{Among, Argument, RowOfCommands, ScriptItem, Term};
use sbl_text::{ScriptFault, Token};
use std::alloc::Global;

/// Returns the byte offset at which the token at index `at` starts, or `end` if there is no such token.
fn place(tokens: &[Token<'_>], at: usize, end: usize) -> usize
    ensures { result ≡ place_at tokens.now at end }
{
    match tokens.get(at) {
        Some(token) => token.start,
        None => end,
    }
}

/// Returns the fault of a script for an error of the parser, with its byte offset. It is at the `$` if a name has no
/// operator after it.
fn fault_at_offset(tokens: &[Token<'_>], end: usize, error: ReadError) -> ScriptFault
    ensures { result ≡ fault_at_offset tokens.now end error }
{
    match error {
        ReadError::Memory => ScriptFault::OutOfMemory,
        ReadError::Syntax(left) => ScriptFault::Syntax {
            place: place(tokens, tokens.len().saturating_sub(left), end),
        },
        ReadError::TooDeep(left) => ScriptFault::TooDeep {
            place: place(tokens, tokens.len().saturating_sub(left), end),
        },
        ReadError::OutOfProfile(left) => {
            let dollar = tokens.len().saturating_sub(left).saturating_sub(2);
            ScriptFault::OutOfProfile {
                place: place(tokens, dollar, end),
            }
        }
    }
}

/// Parses the tokens of a script (Snowball manual, "Syntax of Snowball"). `end` is the length of the script in bytes.
///
/// Returns the first of these faults, with its byte offset:
/// * `Syntax` if a token cannot follow those before it in any script, or if more tokens are needed at the end;
/// * `TooDeep` at the first token at depth 65 (our own choice);
/// * `OutOfProfile` at a `$` with a name but no operator after it (our own choice).
///
/// Returns `OutOfMemory` if an allocation fails.
pub fn parse(
    alloc: Global,
    tokens: &[Token<'_>],
    end: usize,
) -> Result<Vec<ScriptItem>, ScriptFault>
    ensures read { IfOk result (λ items. IsReadAs script (map lexeme_of tokens.now) (view_items items.items)) }
    ensures fault { IfErr result (λ f. (f ≡ ScriptFault.OutOfMemory) ⊎ IsFaultOf script tokens.now end f) }
{
    match all_items(alloc, tokens) {
        Ok(items) => Ok(items),
        Err(error) => Err(fault_at_offset(tokens, end, error)),
    }
}

/// Parses all tokens as items.
fn all_items(alloc: Global, tokens: &[Token<'_>]) -> Result<Vec<ScriptItem>, ReadError>
    ensures read { IfOk result (λ items. roles.IsReadAs script (terminals_of tokens.now) (view_items items.items)) }
    ensures fault { IfErr result (λ e. Fails e (fault (terminals_of tokens.now) (wanted.items ∷ []))) }
{
    let mut cursor = Cursor::new(alloc, tokens);
    let found = items(&mut cursor)?;
    at_end!(cursor, found)
}

/// Parses all tokens as the body of a routine. `end` is the length of the text in bytes.
///
/// Returns the same errors as `parse`.
pub fn parse_body(
    alloc: Global,
    tokens: &[Token<'_>],
    end: usize,
) -> Result<RowOfCommands, ScriptFault>
    ensures read { IfOk result (λ r. IsReadAs body (map lexeme_of tokens.now) (view_row r)) }
    ensures fault { IfErr result (λ f. (f ≡ ScriptFault.OutOfMemory) ⊎ IsFaultOf body tokens.now end f) }
{
    match whole_body(alloc, tokens) {
        Ok(row) => Ok(row),
        Err(error) => Err(fault_at_offset(tokens, end, error)),
    }
}

/// Parses all tokens as the body of a routine.
fn whole_body(alloc: Global, tokens: &[Token<'_>]) -> Result<RowOfCommands, ReadError>
    ensures read { IfOk result (λ r. roles.IsReadAs body (terminals_of tokens.now) (view_row r)) }
    ensures fault { IfErr result (λ e. Fails e (fault (terminals_of tokens.now) (first_stack body))) }
{
    let mut cursor = Cursor::new(alloc, tokens);
    let found = row(&mut cursor, 1)?;
    at_end!(cursor, found)
}

/// Parses all tokens as an among at nesting depth `depth`. `end` is the length of the text in bytes.
///
/// Returns the same errors as `parse`.
pub fn parse_among(
    alloc: Global,
    tokens: &[Token<'_>],
    end: usize,
    depth: u8,
) -> Result<Among, ScriptFault>
    requires { depth ≤ max_depth }
    ensures read { IfOk result (λ a. IsReadAs (texts.among depth) (map lexeme_of tokens.now) (view_among a)) }
    ensures few { IfOk result (λ a. count_in_among (view_among a) ≤ length tokens.now) }
    ensures fault { IfErr result (λ f. (f ≡ ScriptFault.OutOfMemory) ⊎ IsFaultOf (texts.among depth) tokens.now end f) }
{
    match whole_among(alloc, tokens, depth) {
        Ok(among) => Ok(among),
        Err(error) => Err(fault_at_offset(tokens, end, error)),
    }
}

/// Parses all tokens as an among at nesting depth `depth`.
fn whole_among(alloc: Global, tokens: &[Token<'_>], depth: u8) -> Result<Among, ReadError>
    requires { depth ≤ max_depth }
    ensures read { IfOk result (λ a. roles.IsReadAs (texts.among depth) (terminals_of tokens.now) (view_among a)) }
    ensures fault { IfErr result (λ e. Fails e (fault (terminals_of tokens.now) (first_stack (texts.among depth)))) }
{
    let mut cursor = Cursor::new(alloc, tokens);
    let Role::Among = cursor.role() else {
        return Err(ReadError::Syntax(cursor.count_ahead()));
    };
    let found = among(&mut cursor, depth)?;
    at_end!(cursor, found)
}

/// Parses all tokens as the terms of a grouping and returns the first one and those after it. `end` is the length of
/// the text in bytes.
///
/// Returns the same errors as `parse`.
pub fn parse_terms(
    alloc: Global,
    tokens: &[Token<'_>],
    end: usize,
) -> Result<(Argument, Vec<Term>), ScriptFault>
    ensures read { IfOk result (λ x. IsReadAs texts.terms (map lexeme_of tokens.now) (view_argument x.0, map view_term x.1.items)) }
    ensures fault { IfErr result (λ f. (f ≡ ScriptFault.OutOfMemory) ⊎ IsFaultOf texts.terms tokens.now end f) }
{
    match whole_terms(alloc, tokens) {
        Ok(terms) => Ok(terms),
        Err(error) => Err(fault_at_offset(tokens, end, error)),
    }
}

/// Parses all tokens as the terms of a grouping.
fn whole_terms(alloc: Global, tokens: &[Token<'_>]) -> Result<(Argument, Vec<Term>), ReadError>
    ensures read { IfOk result (λ x. roles.IsReadAs texts.terms (terminals_of tokens.now) (view_argument x.0, map view_term x.1.items)) }
    ensures fault { IfErr result (λ e. Fails e (fault (terminals_of tokens.now) (first_stack texts.terms))) }
{
    let mut cursor = Cursor::new(alloc, tokens);
    let found = terms(&mut cursor)?;
    at_end!(cursor, found)
}

/// Two trees with the same tokens are equal. The same holds for the trees of each text that replaces a part of a
/// script.
pub fn one_tree()
    ensures script { (t u : List trees.Item) → lexemes_of t ≡ lexemes_of u → t ≡ u }
    ensures text { TreesAreOne }
{}

/// Tokens have at most one fault, at one position; the tokens of a tree that is nowhere too deep have none.
pub fn one_fault()
    ensures one { FaultIsOne }
    ensures none { TreeOrFault }
{}

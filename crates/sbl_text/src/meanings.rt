//! The meaning of a piece, and the fault if there is no piece.

ghost use Rattle.std.specs.Prelude.{◌+◌, ◌^◌, length, ◌≡◌, ◌≤◌, ◌<◌, ◌⊎◌, MatchOption, MatchResult, IfOk, Some, None, Bool, true, false, ◌∷◌, [], List, ℕ, ◌++◌};
ghost use Rattle.std.specs.Str.{chars};
ghost use Rattle.sbl_text.specs.Pieces as pieces;
ghost use Rattle.sbl_text.specs.Tokens as spec;
ghost use Rattle.sbl_text.specs.Tokens.{fault_at};
ghost use Rattle.sbl_text.specs.inside.TokenParts as parts;
ghost use Rattle.sbl_token.specs.Lexemes.{fits, lexeme_by};
ghost use Rattle.sbl_text.specs.Directives as states;
ghost use Rattle.sbl_text.specs.declared.fault.ScriptFault.TheVariants.{OutOfMemory};
ghost use Rattle.sbl_text.specs.declared.pieces.Expectation.TheVariants as wants;

use crate::directives::Directives;
use crate::fault::ScriptFault;
use crate::literals::literal_value;
use crate::pieces::{Expectation, Shape};
use crate::prefix::{between_quotes, place_of};
use sbl_token::{Kind, Value, sign_of, split_first, word_of};
use std::alloc::Global;

/// The largest number in a script (our own choice: the largest 32-bit signed integer).
const MOST: u64 = 2147483647;

/// Returns the number that the digits write, or `None` if it is too large.
fn number(mut text: &str) -> Option<u32>
    ensures { MatchOption result (2147483647 < spec.number_of (chars text.entry.now)) (λ n. (n ≡ spec.number_of (chars text.entry.now)) × (n ≤ 2147483647)) }
{
    let mut value: u64 = 0;
    while let Some((c, rest)) = split_first(text) {
        value = value * 10 + (c as u64).saturating_sub(48);
        if MOST < value {
            return None;
        }
        text = rest;
    }
    Some(value as u32)
}

/// Returns the value of a literal: its spelling and its characters.
fn literal<'a>(
    alloc: Global,
    state: &Directives<'_>,
    text: &'a str,
    place: usize,
) -> Result<Value<'a>, ScriptFault>
    requires has { pieces.Has state.now.escapes.inserts Shape.Literal (chars text.now) }
    requires room { place + length text.now < 2 ^ 64 }
    ensures { MatchResult result (λ v. parts.HasMeaning state.now Shape.Literal Kind.Literal text.now v) (λ f. (f ≡ OutOfMemory) ⊎ spec.IsRefused state.now Shape.Literal (chars text.now) place f) }
{
    let spelling = between_quotes(text);
    let letters: Vec<char> = spelling.chars().collect(alloc)?;
    match literal_value(alloc, state.escapes(), &letters, place + 1) {
        Ok(value) => Ok(Value::Literal { spelling, value }),
        Err(fault) => Err(fault),
    }
}

fn word(state: &Directives<'_>, text: &str) -> Kind
    ensures told { (v : Value) → spec.IsLexeme state.now Shape.Word (chars text.now) (lexeme_by result text.now v) }
    ensures fits { fits result Value.None ≡ true }
{
    match word_of(text) {
        Some(word) => Kind::Word(word),
        None => Kind::Name,
    }
}

fn sign(state: &Directives<'_>, text: &str) -> Kind
    requires { pieces.Has None Shape.Sign (chars text.now) }
    ensures told { (v : Value) → spec.IsLexeme state.now Shape.Sign (chars text.now) (lexeme_by result text.now v) }
    ensures fits { fits result Value.None ≡ true }
{
    match sign_of(text) {
        Some(sign) => Kind::Sign(sign),
        None => Kind::Name,
    }
}

/// Returns the kind of a macro's name; such a token has no value beyond its text.
fn macro_name(text: &str) -> Kind
    ensures told { (s : states.Directives) (v : Value) → spec.IsLexeme s Shape.MacroName (chars text.now) (lexeme_by result text.now v) }
    ensures fits { fits result Value.None ≡ true }
{
    Kind::MacroName
}

/// Returns the two insert characters.
fn pair<'a>(text: &str) -> Value<'a>
    requires { pieces.Has None Shape.Inserts (chars text.now) }
    ensures told { (s : states.Directives) → spec.IsLexeme s Shape.Inserts (chars text.now) (lexeme_by Kind.Inserts text.now result) }
    ensures fits { fits Kind.Inserts result ≡ true }
{
    if let Some((a, rest)) = split_first(text) {
        if let Some((b, _)) = split_first(rest) {
            return Value::Inserts(a, b);
        }
    }
    Value::None
}

/// Returns the kind and value of a token. Returns a fault if a number is too large or a literal has a bad insertion,
/// and `OutOfMemory` if an allocation fails.
pub fn meaning<'a>(
    alloc: Global,
    state: &Directives<'_>,
    shape: Shape,
    text: &'a str,
    place: usize,
) -> Result<(Kind, Value<'a>), ScriptFault>
    requires token { pieces.is_gap shape ≡ false }
    requires has { pieces.Has state.now.escapes.inserts shape (chars text.now) }
    requires room { place + length text.now < 2 ^ 64 }
    ensures { MatchResult result (λ p. parts.HasMeaning state.now shape p.0 text.now p.1) (λ f. (f ≡ OutOfMemory) ⊎ spec.IsRefused state.now shape (chars text.now) place f) }
{
    match shape {
        Shape::Number => match number(text) {
            Some(n) => Ok((Kind::Number, Value::Number(n))),
            None => Err(ScriptFault::NumberTooLarge { place }),
        },
        Shape::Literal => match literal(alloc, state, text, place) {
            Ok(value) => Ok((Kind::Literal, value)),
            Err(fault) => Err(fault),
        },
        Shape::Sign => Ok((sign(state, text), Value::None)),
        Shape::Word => Ok((word(state, text), Value::None)),
        Shape::Inserts => Ok((Kind::Inserts, pair(text))),
        Shape::MacroName => Ok((macro_name(text), Value::None)),
        Shape::Blank | Shape::LineComment | Shape::BlockComment => unreachable!(),
    }
}

fn starts_star(text: &str) -> bool
    ensures { result ≡ parts.starts_star (chars text.now) }
{
    match split_first(text) {
        Some((c, _)) => c == '*',
        None => false,
    }
}

/// Returns the fault if insert characters are expected but not there.
fn pair_fault(text: &str, place: usize) -> ScriptFault
    requires { place + length text.now < 2 ^ 64 }
    ensures { result ≡ parts.pair_fault (chars text.now) place }
{
    match split_first(text) {
        Some((c, rest)) => {
            if c == '\'' {
                ScriptFault::BadCharacter { place }
            } else {
                ScriptFault::BadCharacter {
                    place: place + place_of(text, rest),
                }
            }
        }
        None => ScriptFault::BadCharacter { place },
    }
}

/// Returns `Ok` if the text is at its end and no insert characters are expected, otherwise the fault of a text that
/// does not begin with a piece.
pub fn end_or_fault(wanted: Expectation, text: &str, place: usize) -> Result<(), ScriptFault>
    requires { place + length text.now < 2 ^ 64 }
    ensures { MatchResult result (λ _. (chars text.now ≡ []) × (wanted ≡ wants.Inserts → ⊥)) (λ f. (chars text.now ≡ [] → wanted ≡ wants.Inserts) × (f ≡ fault_at wanted (chars text.now) place)) }
{
    if wanted == Expectation::Inserts {
        return Err(pair_fault(text, place));
    }
    let Some((c, rest)) = split_first(text) else {
        return Ok(());
    };
    Err(if c == '\'' {
        ScriptFault::UnclosedString { place }
    } else if c == '/' && starts_star(rest) {
        ScriptFault::UnclosedComment { place }
    } else {
        ScriptFault::BadCharacter { place }
    })
}

//! The characters that a literal means.

ghost use Rattle.std.specs.Prelude.{◌≡◌, ◌<◌, ◌+◌, ◌^◌, ◌⊎◌, MatchOption, MatchResult, Ok, Err, true, false, length};
ghost use Rattle.std.specs.List.{list_all, position};
ghost use Rattle.std.specs.Str.{chars};
ghost use Rattle.sbl_text.specs.Classes.{is_white};
ghost use Rattle.sbl_text.specs.Escapes as escaping;
ghost use Rattle.sbl_text.specs.Literals as spec;
ghost use Rattle.sbl_text.specs.inside.LiteralParts as parts;

use crate::classes::{CharKind, is_in};
use crate::codes::{MAX_HEX_DIGITS, code};
use crate::escapes::{Escapes, Inserts, closes, opens};
use crate::fault::ScriptFault;
use std::alloc::Global;

/// Returns whether each insertion has an end and there is no line feed outside of insertions.
pub fn is_closed(inserts: Option<Inserts>, mut chars: &[char]) -> bool
    ensures { result ≡ spec.is_closed inserts false chars.entry.now }
{
    let mut inside = false;
    while let [c, rest @ ..] = chars {
        if inside {
            inside = !closes(inserts, *c);
        } else if *c == '\'' {
            inside = false;
        } else if *c == '\n' {
            return false;
        } else {
            inside = opens(inserts, *c);
        }
        chars = rest;
    }
    !inside
}

fn is_blank(name: &[char]) -> bool
    ensures { result ≡ list_all is_white name.now }
{
    name.iter().all(|c| is_in(CharKind::White, *c))
}

/// Returns the character that an insertion names: a quote, the opening insert character, or the character with the code
/// point after `U+`.
fn character(inserts: Option<Inserts>, name: &[char], place: usize) -> Result<char, ScriptFault>
    ensures { MatchResult result (λ c. spec.character_named inserts name.now ≡ Ok c) (λ f. (g : parts.Refusal) × (spec.character_named inserts name.now ≡ Err g) × (f ≡ g place)) }
{
    match name {
        [c] => {
            if *c == '\'' || opens(inserts, *c) {
                return Ok(*c);
            }
        }
        [u, plus, digits @ ..] => {
            if *u == 'U' && *plus == '+' {
                return match code(16, MAX_HEX_DIGITS, digits) {
                    Some(c) => Ok(c),
                    None => Err(ScriptFault::BadCode { place }),
                };
            }
        }
        [] => {}
    }
    Err(ScriptFault::UnknownEscape { place })
}

/// Appends to `value` the characters of an insertion.
fn insert(
    value: &mut Vec<char>,
    escapes: &Escapes,
    name: &[char],
    place: usize,
) -> Result<(), ScriptFault>
    ensures { MatchResult result (λ _. parts.AddsValue escapes.now name.now value.old.items value.new.items) (λ f. (f ≡ ScriptFault.OutOfMemory) ⊎ parts.Refuses escapes.now name.now place f) }
{
    if is_blank(name) {
        return Ok(());
    }
    if let Some(found) = escapes.find(name) {
        value.extend_from_slice(found)?;
        return Ok(());
    }
    let c = character(escapes.inserts(), name, place)?;
    value.push(c)?;
    Ok(())
}

fn first_closing(inserts: Option<Inserts>, chars: &[char]) -> Option<usize>
    ensures { result ≡ position (escaping.closes inserts) chars.now }
{
    chars.iter().position(|c| closes(inserts, *c))
}

/// Splits the text after an opening insert character into the name, the closing character and the text after it.
fn split_name(inserts: Option<Inserts>, chars: &[char]) -> Option<(&[char], char, &[char])>
    ensures { MatchOption result (spec.is_closed inserts true chars.now ≡ false) (λ p. parts.IsSplit inserts chars.now p.0.now p.1 p.2.now) }
{
    let end = first_closing(inserts, chars)?;
    let (name, rest) = chars.split_at(end);
    match rest {
        [closing, after @ ..] => Some((name, *closing, after)),
        [] => None,
    }
}

/// Returns the length of the characters in UTF-8 bytes.
fn bytes_of(mut chars: &[char]) -> usize
    requires { spec.byte_length chars.now < 2 ^ 64 }
    ensures { result ≡ spec.byte_length chars.entry.now }
{
    let mut total = 0;
    while let [c, rest @ ..] = chars {
        total += c.len_utf8();
        chars = rest;
    }
    total
}

/// Returns the characters that a spelling means, or its first fault. `place` is the byte offset of the spelling.
pub fn literal_value(
    alloc: Global,
    escapes: &Escapes,
    spelling: &[char],
    place: usize,
) -> Result<Vec<char>, ScriptFault>
    requires closed { spec.is_closed escapes.now.inserts false spelling.now ≡ true }
    requires room { place + spec.byte_length spelling.now < 2 ^ 64 }
    ensures { MatchResult result (λ v. spec.Means escapes.now spelling.now v.items) (λ f. (f ≡ ScriptFault.OutOfMemory) ⊎ spec.FirstWrong escapes.now spelling.now place f) }
{
    let inserts = escapes.inserts();
    let mut value = Vec::new(alloc);
    let mut at = place;
    let mut rest = spelling;
    while let [c, following @ ..] = rest {
        if *c == '\'' {
            return Err(ScriptFault::BadCharacter { place: at });
        }
        if !opens(inserts, *c) {
            value.push(*c)?;
            at += c.len_utf8();
            rest = following;
            continue;
        }
        let Some((name, closing, after)) = split_name(inserts, following) else {
            return Err(ScriptFault::UnclosedString { place });
        };
        insert(&mut value, escapes, name, at)?;
        at += c.len_utf8() + bytes_of(name) + closing.len_utf8();
        rest = after;
    }
    Ok(value)
}

/// Returns the characters of a literal, given its spelling without the outer quotes.
///
/// Returns `UnclosedString` at 0 if an insertion has no end or there is a line feed outside of insertions. Otherwise
/// returns the first of these faults: `BadCharacter` at a quote outside of insertions, `UnknownEscape` or `BadCode` at
/// the character that opens the insertion (Snowball manual, "stringescapes"; what is refused is our own choice).
/// Returns `OutOfMemory` if an allocation fails.
pub fn read_literal(
    alloc: Global,
    escapes: &Escapes,
    spelling: &str,
) -> Result<Vec<char>, ScriptFault>
    ensures { MatchResult result (λ v. spec.IsLiteral escapes.now (chars spelling.now) (Ok v.items)) (λ f. (f ≡ ScriptFault.OutOfMemory) ⊎ spec.IsLiteral escapes.now (chars spelling.now) (Err f)) }
{
    let letters: Vec<char> = spelling.chars().collect(alloc)?;
    if !is_closed(escapes.inserts(), &letters) {
        return Err(ScriptFault::UnclosedString { place: 0 });
    }
    literal_value(alloc, escapes, &letters, 0)
}

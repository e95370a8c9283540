//! Where what is wrong with a text begins and ends.

ghost use Rattle.std.specs.Prelude.{◌≡◌, ◌≢◌, ◌≤◌, ◌++◌, ℕ, IfOk, List, MatchOption, None, false, length, map};
ghost use Rattle.std.specs.Str.{chars};
ghost use Rattle.sbl_token.specs.Lexemes.{inserts_in, lexeme_of};
ghost use Rattle.sbl_text.specs.{Directives.Directives, Directives.after};
ghost use Rattle.sbl_text.specs.Escapes as escapes;
ghost use Rattle.sbl_text.specs.Literals.{byte_length};
ghost use Rattle.sbl_text.specs.Tokens.{placed_of};
ghost use Rattle.sbl_source_map.specs.FaultLists.{IsUnreadText};
ghost use Rattle.sbl_source_map.specs.FaultRanges as spec;
ghost use Rattle.sbl_source_map.specs.LexerStops.{IsStep, IsStopOf};

use crate::fault_places::{place_in, tokens_of};
use sbl_text::{Inserts, Kind, Lexer, ScriptFault, Token, Value};
use sbl_token::split_first;
use std::alloc::{AllocError, Global};

/// Returns where the token ends that begins at a byte; the byte itself if none does.
fn token_end(tokens: &[Token<'_>], place: usize) -> usize
    ensures { result ≡ spec.token_end place (map placed_of tokens.now) }
{
    for token in tokens {
        if token.start == place {
            return token.end;
        }
    }
    place
}

fn opens(inserts: Option<Inserts>, c: char) -> bool
    ensures { result ≡ escapes.opens inserts c }
{
    match inserts {
        None => false,
        Some(pair) => c == pair.opening,
    }
}

fn closes(inserts: Option<Inserts>, c: char) -> bool
    ensures { result ≡ escapes.closes inserts c }
{
    match inserts {
        None => false,
        Some(pair) => c == pair.closing,
    }
}

/// Returns the text after a literal, given the text after its opening quote.
fn past_literal(inserts: Option<Inserts>, mut text: &str) -> &str
    ensures value { chars result.now ≡ spec.past_literal inserts false (chars text.entry.now) }
    ensures within { length result.now ≤ length text.entry.now }
{
    let mut inside = false;
    while let Some((c, rest)) = split_first(text) {
        if inside {
            inside = !closes(inserts, c);
        } else {
            if c == '\'' {
                return rest;
            }
            inside = opens(inserts, c);
        }
        text = rest;
    }
    text
}

fn is_bad_code(fault: ScriptFault) -> bool
    ensures { result ≡ spec.is_bad_code fault }
{
    matches!(fault, ScriptFault::BadCode { .. })
}

/// Returns the text after what the lexer refuses, given its fault and the text from the place of the fault on.
fn past_refused(inserts: Option<Inserts>, fault: ScriptFault, text: &str) -> &str
    ensures value { chars result.now ≡ spec.past_refused inserts fault (chars text.now) }
    ensures within { length result.now ≤ length text.now }
{
    match split_first(text) {
        Some((c, rest)) => {
            if is_bad_code(fault) && c == '\'' {
                past_literal(inserts, rest)
            } else {
                rest
            }
        }
        None => text,
    }
}

/// Returns the text from a byte on; nothing if the byte is inside a character or after the end.
fn rest_from(text: &str, place: usize) -> &str
    ensures rest { (x rest : List ℕ) → chars text.now ≡ x ++ rest → place ≡ byte_length x → chars result.now ≡ rest }
    ensures within { length result.now ≤ length text.now }
{
    match text.get(place..) {
        Some(rest) => rest,
        None => "",
    }
}

/// Returns where ends what the lexer refuses from a byte on.
fn refused_end(text: &str, stop: Stop, place: usize) -> usize
    ensures { spec.IsRefusedEnd (chars text.now) stop.inserts stop.fault place result }
{
    let rest = past_refused(stop.inserts, stop.fault, rest_from(text, place));
    text.len() - rest.len()
}

/// The fault at which the lexer stops, and the insert characters that are set there.
#[derive(Clone, Copy, Debug)]
struct Stop {
    fault: ScriptFault,
    inserts: Option<Inserts>,
}

/// What the lexer returns next.
#[derive(Drop)]
enum Step<'a> {
    Next(Token<'a>),
    End,
    Fault(ScriptFault),
}

/// Reads the next token. Returns `AllocError` if an allocation fails.
fn next_step<'a>(lexer: &mut Lexer<'a>) -> Result<Step<'a>, AllocError>
    requires { lexer.old.fault ≡ None }
    ensures same_text { lexer.new.text ≡ lexer.old.text }
    ensures step { IfOk result (λ s. IsStep lexer.old lexer.new s) }
{
    match lexer.next() {
        Ok(Some(token)) => Ok(Step::Next(token)),
        Ok(None) => Ok(Step::End),
        Err(fault) => match fault {
            ScriptFault::OutOfMemory => Err(AllocError),
            _ => Ok(Step::Fault(fault)),
        },
    }
}

/// Returns the insert characters that are set after a token.
fn inserts_after(inserts: Option<Inserts>, token: &Token<'_>) -> Option<Inserts>
    ensures { (s : Directives) → s.escapes.inserts ≡ inserts → (after s (lexeme_of token.now)).escapes.inserts ≡ result }
{
    match token.kind {
        Kind::Inserts => Some(pair_of(&token.value)),
        _ => inserts,
    }
}

/// Returns the two insert characters of a token.
fn pair_of(value: &Value<'_>) -> Inserts
    ensures opening { result.opening ≡ (inserts_in value.now).0 }
    ensures closing { result.closing ≡ (inserts_in value.now).1 }
{
    match value {
        Value::Inserts(opening, closing) => Inserts {
            opening: *opening,
            closing: *closing,
        },
        _ => Inserts {
            opening: '\0',
            closing: '\0',
        },
    }
}

/// Returns where the lexer stops in a text; `None` if it reads all of it. Returns `AllocError` if an allocation fails.
fn stop_of(alloc: Global, text: &str) -> Result<Option<Stop>, AllocError>
    ensures { IfOk result (λ o. IsStopOf (chars text.now) o) }
{
    let mut lexer = Lexer::new(alloc, text);
    let mut inserts = None;
    'tokens: loop {
        match next_step(&mut lexer)? {
            Step::Next(token) => inserts = inserts_after(inserts, &token),
            Step::End => return Ok(None),
            Step::Fault(fault) => return Ok(Some(Stop { fault, inserts })),
        }
    }
}

/// Returns where ends what is at a byte of a text: the token there, or what the lexer refuses. Returns `AllocError` if an allocation
/// fails.
pub(crate) fn end_at(alloc: Global, text: &str, place: usize) -> Result<usize, AllocError>
    ensures { IfOk result (λ end. spec.IsEndAt (chars text.now) place end) }
{
    if let Some(tokens) = tokens_of(alloc, text)? {
        return Ok(token_end(&tokens, place));
    }
    match stop_of(alloc, text)? {
        Some(stop) => Ok(refused_end(text, stop, place)),
        None => Ok(place),
    }
}

/// Returns the range of the first byte that is not UTF-8.
fn bad_byte(bytes: &[u8]) -> Option<(usize, usize)>
    ensures { IsUnreadText bytes.now ScriptFault.NotUtf8 → spec.IsRange bytes.now ScriptFault.NotUtf8 result }
{
    match str::from_utf8(bytes) {
        Ok(_) => None,
        Err(error) => {
            let place = error.valid_up_to();
            Some((place, place + 1))
        }
    }
}

/// Returns the range of a fault of the lexer or the grammar.
fn placed_range(
    alloc: Global,
    bytes: &[u8],
    fault: ScriptFault,
) -> Result<Option<(usize, usize)>, AllocError>
    requires { fault ≢ ScriptFault.NotUtf8 }
    ensures { IfOk result (λ range. IsUnreadText bytes.now fault → spec.IsRange bytes.now fault range) }
{
    let Some(place) = place_in(fault) else {
        return Ok(None);
    };
    match str::from_utf8(bytes) {
        Ok(text) => Ok(Some((place, end_at(alloc, text, place)?))),
        Err(_) => Ok(None),
    }
}

/// Returns the range of the fault for which bytes are not read as a script; `None` if it is at no place. Returns `AllocError` if an
/// allocation fails.
pub(crate) fn range_of(
    alloc: Global,
    bytes: &[u8],
    fault: ScriptFault,
) -> Result<Option<(usize, usize)>, AllocError>
    ensures { IfOk result (λ range. IsUnreadText bytes.now fault → spec.IsRange bytes.now fault range) }
{
    match fault {
        ScriptFault::NotUtf8 => Ok(bad_byte(bytes)),
        _ => placed_range(alloc, bytes, fault),
    }
}

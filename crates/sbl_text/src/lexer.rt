//! The lexer: returns the tokens of a text one at a time.

ghost use Rattle.std.specs.Prelude.{◌≡◌, ◌≤◌, ◌<◌, ◌⊎◌, length, MatchOption, MatchResult, IfOk, IfErr, Some, None, Bool, true, ◌∷◌, [], List, ℕ, ◌++◌, map};
ghost use Rattle.std.specs.Str.{chars};
ghost use Rattle.sbl_text.specs.Pieces as pieces;
ghost use Rattle.sbl_text.specs.Scan.{Token_at};
ghost use Rattle.sbl_text.specs.Tokens as spec;
ghost use Rattle.sbl_text.specs.Tokens.{Comes, Reading, Stops};
ghost use Rattle.std.specs.List.{All};
ghost use Rattle.sbl_token.specs.Lexemes.{lexeme_of, SaysFitting};
ghost use Rattle.sbl_text.specs.Directives.{setting_of, start_under};
ghost use Rattle.sbl_text.specs.declared.fault.ScriptFault.TheVariants.{OutOfMemory};

use crate::directives::Directives;
use crate::escapes::Escapes;
use crate::fault::ScriptFault;
use crate::meanings::{end_or_fault, meaning};
use crate::pieces::{Shape, past_gaps};
use crate::prefix::{place_of, prefix_before};
use sbl_token::Token;
use std::alloc::Global;
use std::marker::Model;

/// Reads the tokens of a text, one after another.
#[derive(Drop)]
pub struct Lexer<'a> {
    alloc: Global,
    source: &'a str,
    rest: &'a str,
    state: Directives<'a>,
    fault: Option<ScriptFault>,
}

impl<'a> Model for Lexer<'a> {
    ghost Value = { Reading };

    ghost view = { λ s. record { text = chars s.source.now; rest = chars s.rest.now; state = s.state; fault = s.fault } };

    ghost invariant = { λ s. (x : List ℕ) × (chars s.source.now ≡ x ++ chars s.rest.now) };
}

/// Skips white space and comments. Returns the text after them, and the token there as its shape and the text after it.
fn cut_after<'a>(state: &Directives<'_>, from: &'a str) -> (&'a str, Option<(Shape, &'a str)>)
    ensures gaps { pieces.AfterGaps (setting_of state.now) (chars from.now) (chars result.0.now) }
    ensures next { MatchOption result.1 (pieces.NoPiece (setting_of state.now) (chars result.0.now)) (λ p. Token_at (setting_of state.now) p.0 (chars result.0.now) (chars p.1.now)) }
{
    past_gaps(state.escapes().inserts(), state.next_wanted(), from)
}

/// Returns the next token of `source` at or after `from`, and the text after it; `None` at the end of the text.
fn token_after<'a>(
    alloc: Global,
    state: &Directives<'_>,
    source: &'a str,
    from: &'a str,
) -> Result<(Option<Token<'a>>, &'a str), ScriptFault>
    requires { (x : List ℕ) × (chars source.now ≡ x ++ chars from.now) }
    ensures { MatchResult result (λ p. Comes (chars source.now) state.now (chars from.now) (chars p.1.now) p.0) (λ f. (f ≡ OutOfMemory) ⊎ Stops (chars source.now) state.now (chars from.now) f) }
{
    let (at, found) = cut_after(state, from);
    let start = place_of(source, at);
    match found {
        None => {
            end_or_fault(state.next_wanted(), at, start)?;
            Ok((None, at))
        }
        Some((shape, rest)) => {
            let text = prefix_before(at, rest);
            let (kind, value) = meaning(alloc, state, shape, text, start)?;
            let end = place_of(source, rest);
            Ok((
                Some(Token {
                    kind,
                    text,
                    start,
                    end,
                    value,
                }),
                rest,
            ))
        }
    }
}

impl<'a> Lexer<'a> {
    ghost use Rattle.sbl_text.specs.Directives.{start};

    /// Starts at the beginning of the text, with no insert characters and no macros. `alloc` is used for the values of
    /// tokens.
    pub fn new(alloc: Global, text: &'a str) -> Lexer<'a>
        ensures { result ≡ spec.beginning start (chars text.now) }
    {
        Lexer::under(alloc, text, Escapes::new(alloc))
    }

    /// Starts at the beginning of the text, with copies of the insert characters and macros. Returns `OutOfMemory` if
    /// an allocation for them fails. `alloc` is used for the values of tokens.
    pub fn with_escapes(
        alloc: Global,
        text: &'a str,
        escapes: &Escapes,
    ) -> Result<Lexer<'a>, ScriptFault>
        ensures lexer { IfOk result (λ l. l ≡ spec.beginning (start_under escapes.now) (chars text.now)) }
        ensures fault { IfErr result (λ f. f ≡ OutOfMemory) }
    {
        Ok(Lexer::under(alloc, text, escapes.copy()?))
    }

    /// Starts at the beginning of the text, with these insert characters and macros.
    fn under(alloc: Global, text: &'a str, escapes: Escapes) -> Lexer<'a>
        ensures { result ≡ spec.beginning (start_under escapes) (chars text.now) }
    {
        Lexer {
            alloc,
            source: text,
            rest: text,
            state: Directives::new(escapes),
            fault: None,
        }
    }

    /// Reads the next token. On an error the lexer is unchanged.
    fn advance(&mut self) -> Result<Option<Token<'a>>, ScriptFault>
        ensures next { spec.Advances self.old.text self.old.state self.old.rest self.new.state self.new.rest result }
        ensures same_text { self.new.text ≡ self.old.text }
        ensures same_fault { self.new.fault ≡ self.old.fault }
    {
        match token_after(self.alloc, &self.state, self.source, self.rest) {
            Err(fault) => Err(fault),
            Ok((found, rest)) => match found {
                None => {
                    self.rest = rest;
                    Ok(None)
                }
                Some(token) => match self.state.after_token(self.alloc, &token) {
                    Err(fault) => Err(fault),
                    Ok(()) => {
                        self.rest = rest;
                        Ok(Some(token))
                    }
                },
            },
        }
    }

    /// Returns the next token, or `None` at the end.
    ///
    /// Skips white space and comments, then takes the longest token under the insert characters and macros that the
    /// earlier tokens have set (Snowball manual, "The language").
    ///
    /// Returns a fault with its position if no token begins there, a number is too large, or a literal inserts
    /// something that is not defined or gives no value to its macro. After that each call returns the same fault,
    /// whether or not memory is left. Returns `OutOfMemory` if an allocation fails; the next call reads the same token
    /// again.
    pub fn next(&mut self) -> Result<Option<Token<'a>>, ScriptFault>
        ensures next { spec.IsNext self.old self.new result }
        ensures same_text { self.new.text ≡ self.old.text }
    {
        if let Some(fault) = self.fault {
            return Err(fault);
        }
        match self.advance() {
            Ok(found) => Ok(found),
            Err(fault) => {
                if fault != ScriptFault::OutOfMemory {
                    self.fault = Some(fault);
                }
                Err(fault)
            }
        }
    }
}

/// Returns all tokens of a text, in order.
///
/// Returns the first fault if the text has one (Snowball manual, "The language"; positions and numbers are our own
/// choice), and `OutOfMemory` if an allocation fails.
pub fn tokens<'a>(alloc: Global, text: &'a str) -> Result<Vec<Token<'a>>, ScriptFault>
    ensures fitting { IfOk result (λ ts. All SaysFitting ts.items) }
    ensures all { IfOk result (λ ts. spec.AreTokens (chars text.now) (map lexeme_of ts.items)) }
    ensures placed { IfOk result (λ ts. spec.ArePlaced (chars text.now) (map spec.placed_of ts.items)) }
    ensures fault { IfErr result (λ f. (f ≡ OutOfMemory) ⊎ spec.IsFirstFault (chars text.now) f) }
{
    tokens_under(alloc, text, Escapes::new(alloc))
}

/// Returns all tokens of a text that is read with these insert characters and macros; otherwise like `tokens`.
pub fn tokens_under<'a>(
    alloc: Global,
    text: &'a str,
    escapes: Escapes,
) -> Result<Vec<Token<'a>>, ScriptFault>
    ensures fitting { IfOk result (λ ts. All SaysFitting ts.items) }
    ensures all { IfOk result (λ ts. spec.AreTokensFrom (start_under escapes) (chars text.now) (map lexeme_of ts.items)) }
    ensures placed { IfOk result (λ ts. spec.ArePlacedFrom (start_under escapes) (chars text.now) (map spec.placed_of ts.items)) }
    ensures fault { IfErr result (λ f. (f ≡ OutOfMemory) ⊎ spec.IsFirstFaultFrom (start_under escapes) (chars text.now) f) }
{
    let mut lexer = Lexer::under(alloc, text, escapes);
    let mut tokens = Vec::new(alloc);
    while let Some(token) = lexer.next()? {
        tokens.push(token)?;
    }
    Ok(tokens)
}

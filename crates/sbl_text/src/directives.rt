//! The state of the lexer that earlier tokens have set.

ghost use Rattle.std.specs.Prelude.{◌≡◌, option_map, Some};
ghost use Rattle.std.specs.Str.{chars};
ghost use Rattle.sbl_token.specs.Lexemes.{characters_in, inserts_in};
ghost use Rattle.sbl_text.specs.Codes.{GivesCharacters};
ghost use Rattle.sbl_text.specs.Escapes.{with_inserts};
ghost use Rattle.sbl_text.specs.Directives as spec;
ghost use Rattle.sbl_text.specs.Directives.{with_coding};
ghost use Rattle.sbl_text.specs.inside.DirectiveParts as parts;

use crate::codes::{Characters, MAX_DECIMAL_DIGITS, MAX_HEX_DIGITS, codes};
use crate::escapes::Escapes;
use crate::fault::ScriptFault;
use crate::pieces::Expectation;
use sbl_token::{Kind, Token, Value, Word};
use std::alloc::Global;
use std::marker::Model;

/// How the literal of a macro is read: as it is, or as code points.
#[derive(Clone, Copy, Debug, PartialEq, Eq)]
pub enum Coding {
    /// Its characters.
    Plain,
    /// Hexadecimal codes.
    Hex,
    /// Decimal codes.
    Decimal,
}

/// A macro whose value has not been read yet.
#[derive(Clone, Copy, Debug)]
struct Defining<'a> {
    name: &'a str,
    coding: Coding,
}

/// The insert characters and macros in force, what may come next, and the macro that is being defined.
#[derive(Drop)]
pub struct Directives<'a> {
    escapes: Escapes,
    wanted: Expectation,
    defining: Option<Defining<'a>>,
}

impl<'a> Model for Directives<'a> {
    ghost Value = { spec.Directives };

    ghost view = { λ s. record { escapes = s.escapes; wanted = s.wanted; defining = option_map (λ d. record { name = chars d.name.now; coding = d.coding }) s.defining } };
}

fn with_coding<'a>(defining: Option<Defining<'a>>, coding: Coding) -> Option<Defining<'a>>
    ensures { option_map (λ d. record { name = chars d.name.now; coding = d.coding }) result ≡ with_coding (option_map (λ d. record { name = chars d.name.now; coding = d.coding }) defining.entry) coding }
{
    match defining {
        Some(
            Defining {
                name,
                coding: Coding::Plain,
            },
        ) => Some(Defining { name, coding }),
        _ => None,
    }
}

/// Returns the value that a literal with these characters gives to a macro: the characters, or the characters with
/// these codes (Snowball manual, "stringdef").
///
/// Returns `BadCode` at `place` if the literal should have codes and has anything else, and `OutOfMemory` if an
/// allocation fails. The value may have any number of characters.
pub fn macro_value(alloc: Global, coding: Coding, characters: &[char], place: usize) -> Characters
    ensures { GivesCharacters (spec.value_for_macro coding characters.now) place result }
{
    match coding {
        Coding::Plain => match Vec::from_slice(alloc, characters) {
            Ok(value) => Ok(value),
            Err(_) => Err(ScriptFault::OutOfMemory),
        },
        Coding::Hex => codes(alloc, 16, MAX_HEX_DIGITS, characters, place),
        Coding::Decimal => codes(alloc, 10, MAX_DECIMAL_DIGITS, characters, place),
    }
}

/// Returns the characters of a literal, or none for another value.
fn characters_of<'b>(value: &'b Value<'_>) -> &'b [char]
    ensures { result.now ≡ characters_in value.now }
{
    match value {
        Value::Literal { value, .. } => value.as_slice(),
        _ => &[],
    }
}

/// Returns the two insert characters.
fn inserts_of(value: &Value<'_>) -> (char, char)
    ensures { result ≡ inserts_in value.now }
{
    match value {
        Value::Inserts(a, b) => (*a, *b),
        _ => ('\0', '\0'),
    }
}

impl<'a> Directives<'a> {
    ghost use Rattle.sbl_token.specs.Lexemes.{lexeme_of};
    ghost use Rattle.sbl_text.specs.inside.TokenParts.{AfterToken};

    /// Returns the state at the start of a text.
    pub fn new(escapes: Escapes) -> Directives<'a>
        ensures { result ≡ spec.start_under escapes }
    {
        Directives {
            escapes,
            wanted: Expectation::Token,
            defining: None,
        }
    }

    /// Returns the insert characters and macros in force.
    pub fn escapes(&self) -> &Escapes
        ensures { result.now ≡ self.now.escapes }
    {
        &self.escapes
    }

    /// Returns what may come next.
    pub fn next_wanted(&self) -> Expectation
        ensures { result ≡ self.now.wanted }
    {
        self.wanted
    }

    fn settle(&mut self)
        ensures { self.new ≡ parts.no_directive self.old.escapes }
    {
        self.wanted = Expectation::Token;
        self.defining = None;
    }

    /// Updates the state after a reserved word.
    pub fn after_word(&mut self, word: Word)
        ensures { self.new ≡ parts.after_word self.old word }
    {
        match word {
            Word::StringEscapes => {
                self.wanted = Expectation::Inserts;
                self.defining = None;
            }
            Word::StringDef => {
                self.wanted = Expectation::MacroName;
                self.defining = None;
            }
            Word::Hex => {
                self.wanted = Expectation::Token;
                self.defining = with_coding(self.defining, Coding::Hex);
            }
            Word::Decimal => {
                self.wanted = Expectation::Token;
                self.defining = with_coding(self.defining, Coding::Decimal);
            }
            _ => self.settle(),
        }
    }

    /// Updates the state after two insert characters.
    pub fn after_inserts(&mut self, pair: (char, char))
        ensures { self.new ≡ parts.no_directive (with_inserts self.old.escapes pair.0 pair.1) }
    {
        self.escapes.set(pair.0, pair.1);
        self.settle();
    }

    /// Updates the state after the name of a macro.
    pub fn after_name(&mut self, name: &'a str)
        ensures { self.new ≡ record { escapes = self.old.escapes; wanted = Expectation.Token; defining = Some (record { name = chars name.now; coding = Coding.Plain }) } }
    {
        self.wanted = Expectation::Token;
        self.defining = Some(Defining {
            name,
            coding: Coding::Plain,
        });
    }

    /// Updates the state after a literal with these characters, which may define a macro. Returns `BadCode` at `place`
    /// if the literal gives no value to its macro, and `OutOfMemory` if an allocation fails. On an error the state is
    /// unchanged.
    pub fn after_literal(
        &mut self,
        alloc: Global,
        characters: &[char],
        place: usize,
    ) -> Result<(), ScriptFault>
        ensures { parts.AfterLiteral self.old characters.now place result self.new }
    {
        match self.defining {
            None => {
                self.settle();
                Ok(())
            }
            Some(defining) => {
                let value = macro_value(alloc, defining.coding, characters, place)?;
                self.escapes.define(defining.name, &value)?;
                self.settle();
                Ok(())
            }
        }
    }

    /// Updates the state after a token. Returns `BadCode` at the start of the token if it is the literal of a macro and
    /// gives it no value, and `OutOfMemory` if an allocation fails. On an error the state is unchanged.
    pub fn after_token(&mut self, alloc: Global, token: &Token<'a>) -> Result<(), ScriptFault>
        ensures { AfterToken self.old (lexeme_of token.now) token.now.start result self.new }
    {
        match token.kind {
            Kind::Word(word) => self.after_word(word),
            Kind::Inserts => self.after_inserts(inserts_of(&token.value)),
            Kind::MacroName => self.after_name(token.text),
            Kind::Literal => return self.after_literal(
                alloc,
                characters_of(&token.value),
                token.start,
            ),
            Kind::Sign(_) | Kind::Name | Kind::Number => self.settle(),
        }
        Ok(())
    }
}

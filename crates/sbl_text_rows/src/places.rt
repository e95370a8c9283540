//! The rows of what is in a text, with the places.

ghost use Rattle.std.specs.Prelude.{◌≡◌, ◌<◌, ◌+◌, ◌^◌, ◌++◌, [], IfOk, OnOk, map};
ghost use Rattle.std.specs.List.{All};
ghost use Rattle.csv.specs.Records.{fields_of, partial_of};
ghost use Rattle.sbl_io.specs.Records.{record_line};
ghost use Rattle.sbl_token.specs.Lexemes.{SaysFitting, lexeme_of};
ghost use Rattle.sbl_text.specs.Tokens.{placed_of};
ghost use Rattle.sbl_source_map.specs.PartTokens.{is_as};
ghost use Rattle.sbl_text_rows.specs.PlaceRows as spec;
ghost use Rattle.sbl_text_rows.specs.Rows.{line_if};
ghost use Rattle.sbl_text_rows.specs.Views.{Measures, TakesLine, context_of};

use crate::extents::{closed_end, item_end};
use crate::fields::{push_numbers, record_of};
use crate::rulers::Ruler;
use crate::walks::Walk;
use csv::ByteRecord;
use sbl_io::{push_line, push_number, text_of};
use sbl_source_map::tokens_of;
use sbl_text::{Kind, Token, Value, Word};
use std::alloc::{AllocError, Global};

/// The rows so far, the position that was asked for last, and what the tokens so far say of the next one.
#[derive(Drop)]
struct Rows<'a> {
    alloc: Global,
    out: Vec<u8>,
    ruler: Ruler<'a>,
    walk: Walk<'a>,
}

/// Whether a token is the word `as`.
fn is_as(token: &Token<'_>) -> bool
    ensures { result ≡ is_as (lexeme_of token.now) }
{
    matches!(token.kind, Kind::Word(Word::As))
}

/// Returns what a definition defines, given the token after its name.
fn definition_kind(next: &Token<'_>) -> &'static str
    ensures { result.now ≡ spec.definition_kind (lexeme_of next.now) }
{
    if is_as(next) { "routine" } else { "grouping" }
}

impl Rows<'_> {
    /// Appends a row: these fields, the two ends, and the position of the first one. Returns `AllocError` if an allocation fails.
    fn push(
        &mut self,
        csv_record: &mut ByteRecord,
        from: usize,
        to: usize,
    ) -> Result<(), AllocError>
        requires ruler { Measures self.old.ruler }
        requires whole { partial_of csv_record.old ≡ [] }
        ensures { OnOk result (TakesLine self.old self.new (record_line (fields_of csv_record.old ++ spec.place_fields self.old.ruler.text.now from to))) }
    {
        let position = self.ruler.position(from);
        push_numbers(self.alloc, csv_record, from, to)?;
        push_numbers(self.alloc, csv_record, position.line, position.column)?;
        push_line(self.alloc, &mut self.out, csv_record)
    }

    /// Appends the row of a definition, given its first token and the tokens after that. Returns `AllocError` if an allocation fails.
    fn push_definition(&mut self, define: &Token<'_>, after: &[Token<'_>]) -> Result<(), AllocError>
        requires { Measures self.old.ruler }
        ensures { OnOk result (TakesLine self.old self.new (line_if (spec.definition_row self.old.ruler.text.now (placed_of define.now) (map placed_of after.now)))) }
    {
        let Some((name, rest)) = after.split_first() else {
            return Ok(());
        };
        let Some((next, _)) = rest.split_first() else {
            return Ok(());
        };
        let mut csv_record = record_of(self.alloc, definition_kind(next), name.text)?;
        self.push(&mut csv_record, define.start, item_end(define.end, after))
    }

    /// Appends the row of an among, given its first token and the tokens after that. Returns `AllocError` if an allocation fails.
    #[tactic(auto, unfolding(crate::specs::PlaceRows::among_row))]
    fn push_among(&mut self, among: &Token<'_>, after: &[Token<'_>]) -> Result<(), AllocError>
        requires ruler { Measures self.old.ruler }
        requires few { (context_of self.old.walk).amongs + 1 < 2 ^ 64 }
        ensures { OnOk result (TakesLine self.old self.new (record_line (spec.among_row self.old.ruler.text.now (context_of self.old.walk) (placed_of among.now) (map placed_of after.now)))) }
    {
        let mut csv_record = record_of(self.alloc, "among", self.walk.name())?;
        push_number(self.alloc, &mut csv_record, self.walk.next_among())?;
        self.push(&mut csv_record, among.start, closed_end(among.end, after))
    }

    /// Appends the row of a literal if it is a string of the among with this number, which is 0 if there is none. Returns `AllocError`
    /// if an allocation fails.
    #[tactic(auto, unfolding(crate::specs::PlaceRows::entry_row))]
    fn push_string(
        &mut self,
        literal: &Token<'_>,
        string: &[char],
        number: usize,
    ) -> Result<(), AllocError>
        requires { Measures self.old.ruler }
        ensures { OnOk result (TakesLine self.old self.new (line_if (spec.string_row self.old.ruler.text.now (context_of self.old.walk) (placed_of literal.now) string.now number))) }
    {
        if number == 0 {
            return Ok(());
        }
        let mut csv_record = record_of(self.alloc, "entry", self.walk.name())?;
        push_number(self.alloc, &mut csv_record, number)?;
        let text = text_of(self.alloc, string)?;
        csv_record.push_field(text.as_bytes())?;
        self.push(&mut csv_record, literal.start, literal.end)
    }

    /// Appends the row of a name. Returns `AllocError` if an allocation fails.
    #[tactic(auto, unfolding(crate::specs::PlaceRows::name_row))]
    fn push_name(&mut self, name: &Token<'_>) -> Result<(), AllocError>
        requires { Measures self.old.ruler }
        ensures { OnOk result (TakesLine self.old self.new (record_line (spec.name_row self.old.ruler.text.now (context_of self.old.walk) (placed_of name.now)))) }
    {
        let mut csv_record = record_of(self.alloc, "name", name.text)?;
        csv_record.push_field(self.walk.role().as_bytes())?;
        self.push(&mut csv_record, name.start, name.end)
    }

    /// Appends the row of a token, if it has one, given the tokens after it. Returns `AllocError` if an allocation fails.
    fn push_token(&mut self, token: &Token<'_>, after: &[Token<'_>]) -> Result<(), AllocError>
        requires ruler { Measures self.old.ruler }
        requires few { (context_of self.old.walk).amongs + 1 < 2 ^ 64 }
        requires fitting { SaysFitting token.now }
        ensures { OnOk result (TakesLine self.old self.new (line_if (spec.row_at self.old.ruler.text.now (context_of self.old.walk) (placed_of token.now) (map placed_of after.now) (lexeme_of token.now)))) }
    {
        match token.kind {
            Kind::Word(Word::Define) => self.push_definition(token, after),
            Kind::Word(Word::Among) => self.push_among(token, after),
            Kind::Literal => match &token.value {
                Value::Literal { value, .. } => {
                    let number = self.walk.among();
                    self.push_string(token, value, number)
                }
                _ => Ok(()),
            },
            Kind::Name => self.push_name(token),
            _ => Ok(()),
        }
    }
}

/// Returns the rows of these tokens of a text.
fn rows_of<'a>(alloc: Global, text: &'a str, tokens: &[Token<'a>]) -> Result<Vec<u8>, AllocError>
    requires { All SaysFitting tokens.now }
    ensures { IfOk result (λ report. report.items ≡ spec.lines_after text.now spec.beginning (map placed_of tokens.now)) }
{
    let mut rows = Rows {
        alloc,
        out: Vec::new(alloc),
        ruler: Ruler::new(text.as_bytes()),
        walk: Walk::new(alloc),
    };
    for i in 0..tokens.len() {
        rows.push_token(&tokens[i], &tokens[i + 1..])?;
        rows.walk.pass(&tokens[i])?;
    }
    Ok(rows.out)
}

/// Returns the rows of what is in the text of a script, in the order of the text: each definition, each among and its strings, and
/// each name. A row has the two ends of what it is about, in bytes, and the line and the column of the first. A text without tokens,
/// as one with a fault of the lexer, has no rows.
///
/// Returns `AllocError` if an allocation fails.
pub fn places_text(alloc: Global, text: &str) -> Result<Vec<u8>, AllocError>
    ensures { IfOk result (λ report. spec.IsPlacesText text.now report.items) }
{
    match tokens_of(alloc, text)? {
        Some(tokens) => rows_of(alloc, text, &tokens),
        None => Ok(Vec::new(alloc)),
    }
}

//! The rows of the tokens and comments of a text.

ghost use Rattle.std.specs.Prelude.{◌≡◌, ◌++◌, ℕ, true, false, IfOk, List, MatchOption, None, OnOk};
ghost use Rattle.std.specs.Str.{chars};
ghost use Rattle.sbl_io.specs.Records.{record_line};
ghost use Rattle.sbl_token.specs.Lexemes as lexemes;
ghost use Rattle.sbl_token.specs.Lexemes.{lexeme_of};
ghost use Rattle.sbl_text.specs.declared.pieces.Expectation.TheVariants as wanted;
ghost use Rattle.sbl_text.specs.Directives.{Directives, after};
ghost use Rattle.sbl_text.specs.Literals.{byte_length};
ghost use Rattle.sbl_text_rows.specs.Gaps.{AddsGaps};
ghost use Rattle.sbl_text_rows.specs.TokenRows as spec;
ghost use Rattle.sbl_text_rows.specs.Lexing.{AddsAfter, AddsGap, EndsAfter, TakesToken};

use crate::comments::{GapEnd, next_gap};
use crate::fields::push_numbers;
use csv::ByteRecord;
use sbl_io::push_line;
use sbl_text::{Kind, Lexer, ScriptFault, Token, Word};
use std::alloc::{AllocError, Global};

/// Returns the name of the kind of a token.
fn kind_field(token: &Token<'_>) -> &'static str
    ensures { result.now ≡ spec.kind_field (lexeme_of token.now) }
{
    match token.kind {
        Kind::Word(_) => "word",
        Kind::Sign(_) => "sign",
        Kind::Name => "name",
        Kind::Number => "number",
        Kind::Literal => "literal",
        Kind::Inserts => "inserts",
        Kind::MacroName => "macro",
    }
}

/// Whether insert characters or the name of a macro have to come after a word, and no comment can.
fn is_directive(word: Word) -> bool
    ensures yes { result ≡ true → (s : Directives) → (after s (lexemes.word word)).wanted ≡ wanted.Token → ⊥ }
    ensures no { result ≡ false → (s : Directives) → (after s (lexemes.word word)).wanted ≡ wanted.Token }
{
    matches!(word, Word::StringEscapes | Word::StringDef)
}

/// Whether comments can come after a token.
fn allows_comments(token: &Token<'_>) -> bool
    ensures yes { result ≡ true → (s : Directives) → (after s (lexeme_of token.now)).wanted ≡ wanted.Token }
    ensures no { result ≡ false → (s : Directives) → (after s (lexeme_of token.now)).wanted ≡ wanted.Token → ⊥ }
{
    match token.kind {
        Kind::Word(word) => !is_directive(word),
        _ => true,
    }
}

/// Appends the line of a token. Returns `AllocError` if an allocation fails.
#[tactic(auto, unfolding(crate::specs::TokenRows::token_row))]
fn push_token(alloc: Global, out: &mut Vec<u8>, token: &Token<'_>) -> Result<(), AllocError>
    ensures { OnOk result (out.new.items ≡ out.old.items ++ record_line (spec.token_row token.now.start token.now.end token.now.text.now (lexeme_of token.now))) }
{
    let mut csv_record = ByteRecord::new(alloc);
    csv_record.push_field(kind_field(token).as_bytes())?;
    push_numbers(alloc, &mut csv_record, token.start, token.end)?;
    csv_record.push_field(token.text.as_bytes())?;
    push_line(alloc, out, &csv_record)
}

/// Appends the line of a comment. Returns `AllocError` if an allocation fails.
#[tactic(auto, unfolding(crate::specs::TokenRows::comment_row))]
fn push_comment(alloc: Global, out: &mut Vec<u8>, from: usize, to: usize) -> Result<(), AllocError>
    ensures { OnOk result (out.new.items ≡ out.old.items ++ record_line (spec.comment_row from to)) }
{
    let mut csv_record = ByteRecord::new(alloc);
    csv_record.push_field(b"comment")?;
    push_numbers(alloc, &mut csv_record, from, to)?;
    push_line(alloc, out, &csv_record)
}

/// Returns the text from an offset on; nothing if the offset is inside a character or after the end.
fn rest_from(text: &str, from: usize) -> &str
    ensures { (x rest : List ℕ) → chars text.now ≡ x ++ rest → from ≡ byte_length x → chars result.now ≡ rest }
{
    match text.get(from..) {
        Some(rest) => rest,
        None => "",
    }
}

/// Returns the offset at which the rest of a text begins.
fn offset_of(text: &str, rest: &str) -> usize
    requires { (x : List ℕ) × (chars text.now ≡ x ++ chars rest.now) }
    ensures { (x : List ℕ) → chars text.now ≡ x ++ chars rest.now → result ≡ byte_length x }
{
    text.len() - rest.len()
}

/// Appends the line of a comment, or nothing for white space. Returns `AllocError` if an allocation fails.
fn push_gap(
    alloc: Global,
    out: &mut Vec<u8>,
    text: &str,
    rest: &str,
    gap: &GapEnd<'_>,
) -> Result<(), AllocError>
    requires rest { (x : List ℕ) × (chars text.now ≡ x ++ chars rest.now) }
    requires gap { (x : List ℕ) × (chars text.now ≡ x ++ chars gap.now.rest.now) }
    ensures { OnOk result (AddsGap (chars text.now) (chars rest.now) gap.now.is_comment (chars gap.now.rest.now) out.old.items out.new.items) }
{
    if gap.is_comment {
        push_comment(alloc, out, offset_of(text, rest), offset_of(text, gap.rest))
    } else {
        Ok(())
    }
}

/// Appends the lines of the comments that the rest of a text begins with. Returns `AllocError` if an allocation fails.
fn push_comments(
    alloc: Global,
    out: &mut Vec<u8>,
    text: &str,
    mut rest: &str,
) -> Result<(), AllocError>
    requires { (x : List ℕ) × (chars text.now ≡ x ++ chars rest.now) }
    ensures { OnOk result (AddsGaps (chars text.now) (chars rest.entry.now) out.old.items out.new.items) }
{
    while let Some(gap) = next_gap(rest) {
        push_gap(alloc, out, text, rest, &gap)?;
        rest = gap.rest;
    }
    Ok(())
}

/// Appends the lines of the comments that come after a token. Returns `AllocError` if an allocation fails.
fn push_after(
    alloc: Global,
    out: &mut Vec<u8>,
    text: &str,
    token: &Token<'_>,
) -> Result<(), AllocError>
    requires { (x rest : List ℕ) × (chars text.now ≡ x ++ rest) × (token.now.end ≡ byte_length x) }
    ensures { OnOk result (AddsAfter (chars text.now) token.now out.old.items out.new.items) }
{
    if allows_comments(token) {
        push_comments(alloc, out, text, rest_from(text, token.end))
    } else {
        Ok(())
    }
}

/// Returns the next token; `None` at the end of the text or at a fault. Returns `AllocError` if an allocation fails.
fn next_token<'a>(lexer: &mut Lexer<'a>) -> Result<Option<Token<'a>>, AllocError>
    requires { lexer.old.fault ≡ None }
    ensures same_text { lexer.new.text ≡ lexer.old.text }
    ensures next { IfOk result (λ o. MatchOption o (EndsAfter lexer.old) (λ token. TakesToken lexer.old lexer.new token)) }
{
    match lexer.next() {
        Ok(found) => Ok(found),
        Err(fault) => match fault {
            ScriptFault::OutOfMemory => Err(AllocError),
            _ => Ok(None),
        },
    }
}

/// Returns the rows of the tokens and comments of a text, up to its first fault: for each token its kind, its two ends and its text,
/// for each comment its two ends. The fault is one of the lexer; whether the tokens form a script does not matter.
///
/// Returns `AllocError` if an allocation fails.
pub fn tokens_text(alloc: Global, text: &str) -> Result<Vec<u8>, AllocError>
    ensures { IfOk result (λ report. spec.IsTokensText text.now report.items) }
{
    let mut out = Vec::new(alloc);
    let mut lexer = Lexer::new(alloc, text);
    push_comments(alloc, &mut out, text, text)?;
    while let Some(token) = next_token(&mut lexer)? {
        push_token(alloc, &mut out, &token)?;
        push_after(alloc, &mut out, text, &token)?;
    }
    Ok(out)
}

//! The first of some tokens.

ghost use Rattle.std.specs.Prelude.{◌≡◌, IfOk, string_bytes};
ghost use Rattle.sbl_ast.specs.Terminal.{terminals_of, word_terminal, sign_terminal};
ghost use Rattle.sbl_token.specs.Lexemes.{lexeme_of};
ghost use Rattle.sbl_parser.specs.Profile as profile;
ghost use Rattle.sbl_parser.specs.Roles.{role_of, role_as};
ghost use Rattle.sbl_parser.specs.First as spec;
ghost use Rattle.sbl_parser.specs.First.{kind_role, quoted_in};
ghost use Rattle.sbl_ast.specs.View.{view_literal};

use crate::role::Role;
use sbl_ast::{
    Additive, Assignment, Base, Comparison, Constant, Count, DeclarationKind, Joiner, Literal,
    Move, Multiplicative, Naming, Prefix, Simple, Splice,
};
use sbl_text::{Kind, Sign, Token, Value, Word};
use std::alloc::{AllocError, Global};

fn word_role(word: Word) -> Role
    ensures { result ≡ role_as (word_terminal word) }
{
    match word {
        Word::Among => Role::Among,
        Word::And => Role::Joiner(Joiner::And),
        Word::As => Role::As,
        Word::AtLeast => Role::Count(Count::AtLeast),
        Word::AtLimit => Role::Simple(Simple::AtLimit),
        Word::AtMark => Role::Move(Move::AtMark),
        Word::Attach => Role::Splice(Splice::Attach),
        Word::BackwardMode => Role::BackwardMode,
        Word::Backwards => Role::Prefix(Prefix::Backwards),
        Word::Booleans => Role::Declares(DeclarationKind::Booleans),
        Word::Cursor => Role::Constant(Constant::Cursor),
        Word::Decimal => Role::Base(Base::Decimal),
        Word::Define => Role::Define,
        Word::Delete => Role::Simple(Simple::Delete),
        Word::Do => Role::Prefix(Prefix::Do),
        Word::Externals => Role::Declares(DeclarationKind::Externals),
        Word::Fail => Role::Prefix(Prefix::Fail),
        Word::False => Role::Simple(Simple::False),
        Word::For => Role::For,
        Word::Get => Role::Other,
        Word::GoPast => Role::Prefix(Prefix::GoPast),
        Word::GoTo => Role::Prefix(Prefix::GoTo),
        Word::Groupings => Role::Declares(DeclarationKind::Groupings),
        Word::Hex => Role::Base(Base::Hex),
        Word::Hop => Role::Move(Move::Hop),
        Word::Insert => Role::Splice(Splice::Insert),
        Word::Integers => Role::Declares(DeclarationKind::Integers),
        Word::Len => Role::Constant(Constant::Len),
        Word::LenOf => Role::LenOf,
        Word::Limit => Role::Constant(Constant::Limit),
        Word::Loop => Role::Count(Count::Loop),
        Word::MaxInt => Role::Constant(Constant::MaxInt),
        Word::MinInt => Role::Constant(Constant::MinInt),
        Word::Next => Role::Simple(Simple::Next),
        Word::Non => Role::Non,
        Word::Not => Role::Prefix(Prefix::Not),
        Word::Or => Role::Joiner(Joiner::Or),
        Word::Repeat => Role::Prefix(Prefix::Repeat),
        Word::Reverse => Role::Other,
        Word::Routines => Role::Declares(DeclarationKind::Routines),
        Word::Set => Role::Naming(Naming::Set),
        Word::SetLimit => Role::SetLimit,
        Word::SetMark => Role::Naming(Naming::SetMark),
        Word::Size => Role::Other,
        Word::SizeOf => Role::Other,
        Word::StringDef => Role::StringDef,
        Word::StringEscapes => Role::StringEscapes,
        Word::Strings => Role::Declares(DeclarationKind::Strings),
        Word::Substring => Role::Simple(Simple::Substring),
        Word::Test => Role::Prefix(Prefix::Test),
        Word::ToLimit => Role::Simple(Simple::ToLimit),
        Word::ToMark => Role::Move(Move::ToMark),
        Word::True => Role::Simple(Simple::True),
        Word::Try => Role::Prefix(Prefix::Try),
        Word::Unset => Role::Naming(Naming::Unset),
    }
}

fn sign_role(sign: Sign) -> Role
    ensures { result ≡ role_as (sign_terminal sign) }
{
    match sign {
        Sign::Open => Role::Open,
        Sign::Close => Role::Close,
        Sign::LeftBracket => Role::Simple(Simple::LeftBracket),
        Sign::RightBracket => Role::Simple(Simple::RightBracket),
        Sign::Dollar => Role::Dollar,
        Sign::Plus => Role::Additive(Additive::Plus),
        Sign::Minus => Role::Additive(Additive::Minus),
        Sign::Star => Role::Multiplicative(Multiplicative::Times),
        Sign::Slash => Role::Multiplicative(Multiplicative::Over),
        Sign::Equals => Role::Assignment(Assignment::Equals),
        Sign::Question => Role::Other,
        Sign::Less => Role::Comparison(Comparison::Less),
        Sign::Greater => Role::Comparison(Comparison::Greater),
        Sign::Same => Role::Comparison(Comparison::Same),
        Sign::Differs => Role::Comparison(Comparison::Differs),
        Sign::AtMost => Role::Comparison(Comparison::AtMost),
        Sign::AtLeast => Role::Comparison(Comparison::AtLeast),
        Sign::LessMinus => Role::Splice(Splice::Replace),
        Sign::LessPlus => Role::Splice(Splice::InsertSign),
        Sign::Arrow => Role::Naming(Naming::Arrow),
        Sign::PlusEquals => Role::Assignment(Assignment::Plus),
        Sign::MinusEquals => Role::Assignment(Assignment::Minus),
        Sign::StarEquals => Role::Assignment(Assignment::Times),
        Sign::SlashEquals => Role::Assignment(Assignment::Over),
        Sign::EqualsGreater => Role::Other,
    }
}

fn role_of_kind(kind: Kind) -> Role
    ensures { result ≡ kind_role kind }
{
    match kind {
        Kind::Word(word) => word_role(word),
        Kind::Sign(sign) => sign_role(sign),
        Kind::Name => Role::Name,
        Kind::Number => Role::Number,
        Kind::Literal => Role::Literal,
        Kind::Inserts => Role::Inserts,
        Kind::MacroName => Role::MacroName,
    }
}

/// Returns whether the token belongs to a part of the language that is not supported: it occurs in no tree.
#[tactic(auto, using(crate::proofs::LeftOut::left_out_if_other, crate::proofs::LeftOut::kept_if_not_other))]
pub fn is_left_out(token: &Token<'_>) -> bool
    ensures { result ≡ profile.is_left_out (lexeme_of token.now) }
{
    matches!(role_of_kind(token.kind), Role::Other)
}

/// Returns the role of the first token, or `End` if there is none.
pub(crate) fn first_role(tokens: &[Token<'_>]) -> Role
    ensures { result ≡ role_of (terminals_of tokens.now) }
{
    match tokens.first() {
        None => Role::End,
        Some(token) => role_of_kind(token.kind),
    }
}

/// Returns a copy of the text of the first token.
pub fn first_text(alloc: Global, tokens: &[Token<'_>]) -> Result<String, AllocError>
    ensures { IfOk result (λ s. string_bytes s ≡ spec.first_text tokens.now) }
{
    match tokens.first() {
        None => Ok(String::new(alloc)),
        Some(token) => String::from_str(alloc, token.text),
    }
}

/// Returns the number that the first token is.
pub fn first_number(tokens: &[Token<'_>]) -> u32
    ensures { result ≡ spec.first_number tokens.now }
{
    match tokens.first() {
        None => 0,
        Some(token) => match &token.value {
            Value::Number(n) => *n,
            _ => 0,
        },
    }
}

/// Returns the insert characters that the first token is.
pub fn first_inserts(tokens: &[Token<'_>]) -> (char, char)
    ensures { result ≡ spec.first_inserts tokens.now }
{
    match tokens.first() {
        None => ('\0', '\0'),
        Some(token) => match &token.value {
            Value::Inserts(a, b) => (*a, *b),
            _ => ('\0', '\0'),
        },
    }
}

fn literal_in(alloc: Global, value: &Value<'_>) -> Result<Literal, AllocError>
    ensures { IfOk result (λ l. view_literal l ≡ quoted_in value.now) }
{
    match value {
        Value::Literal { spelling, value } => Ok(Literal {
            spelling: String::from_str(alloc, spelling)?,
            value: value.clone()?,
        }),
        _ => Ok(Literal {
            spelling: String::new(alloc),
            value: Vec::new(alloc),
        }),
    }
}

/// Returns a copy of the literal that the first token is.
pub fn first_literal(alloc: Global, tokens: &[Token<'_>]) -> Result<Literal, AllocError>
    ensures { IfOk result (λ l. view_literal l ≡ spec.first_literal tokens.now) }
{
    match tokens.first() {
        None => Ok(Literal {
            spelling: String::new(alloc),
            value: Vec::new(alloc),
        }),
        Some(token) => literal_in(alloc, &token.value),
    }
}

//! The first piece of a text. A piece is one token, one comment or one white space character.

ghost use Rattle.std.specs.Prelude.{◌≡◌, ◌≤◌, ◌<◌, length, MatchOption, IfSome, Some, None, Bool, true, false, ◌∷◌, [], List, ℕ};
ghost use Rattle.std.specs.Str.{chars};
ghost use Rattle.sbl_text.specs.Pieces as pieces;
ghost use Rattle.sbl_text.specs.inside.PieceParts.{setting};
ghost use Rattle.sbl_text.specs.Scan as spec;

use crate::classes::{CharKind, is_in, past};
use crate::escapes::{Inserts, closes, opens};
use sbl_token::{sign_prefix, split_first};

/// The shape of a piece.
#[derive(Clone, Copy, Debug, PartialEq, Eq)]
pub enum Shape {
    Blank,
    LineComment,
    BlockComment,
    Word,
    Number,
    Sign,
    Literal,
    Inserts,
    MacroName,
}

/// What may come next, apart from white space: an ordinary piece, or what a word before it requires.
#[derive(Clone, Copy, Debug, PartialEq, Eq)]
pub enum Expectation {
    Token,
    Inserts,
    MacroName,
}

/// The class of the first character of a piece.
#[derive(Clone, Copy, Debug)]
pub enum Start {
    White,
    Letter,
    Digit,
    Quote,
    Slash,
    Other,
}

fn start_of(c: char) -> Start
    ensures { result ≡ spec.start_of c }
{
    if is_in(CharKind::White, c) {
        Start::White
    } else if is_in(CharKind::Letter, c) {
        Start::Letter
    } else if is_in(CharKind::Digit, c) {
        Start::Digit
    } else if c == '\'' {
        Start::Quote
    } else if c == '/' {
        Start::Slash
    } else {
        Start::Other
    }
}

fn past_literal(inserts: Option<Inserts>, mut text: &str) -> Option<&str>
    ensures value { MatchOption result (spec.past_literal inserts false (chars text.entry.now) ≡ None) (λ r. spec.past_literal inserts false (chars text.entry.now) ≡ Some (chars r.now)) }
    ensures within { IfSome result (λ r. length r.now < length text.entry.now) }
{
    let mut inside = false;
    while let Some((c, rest)) = split_first(text) {
        if inside {
            inside = !closes(inserts, c);
        } else if c == '\'' {
            return Some(rest);
        } else if c == '\n' {
            return None;
        } else {
            inside = opens(inserts, c);
        }
        text = rest;
    }
    None
}

fn past_block(mut text: &str) -> Option<&str>
    ensures value { MatchOption result (spec.past_block (chars text.entry.now) ≡ None) (λ r. spec.past_block (chars text.entry.now) ≡ Some (chars r.now)) }
    ensures within { IfSome result (λ r. length r.now < length text.entry.now) }
{
    let mut after_star = false;
    while let Some((c, rest)) = split_first(text) {
        if after_star && c == '/' {
            return Some(rest);
        }
        after_star = c == '*';
        text = rest;
    }
    None
}

fn sign(text: &str) -> Option<(Shape, &str)>
    ensures { spec.IsCut text.now (spec.sign_cut (chars text.now)) result }
{
    match sign_prefix(text) {
        Some((_, rest)) => Some((Shape::Sign, rest)),
        None => None,
    }
}

fn slash<'a>(text: &'a str, rest: &'a str) -> Option<(Shape, &'a str)>
    requires { length rest.now < length text.now }
    ensures { spec.IsCut text.now (spec.slash_cut (chars text.now) (chars rest.now)) result }
{
    match split_first(rest) {
        Some(('/', following)) => Some((Shape::LineComment, past(CharKind::Line, following))),
        Some(('*', following)) => match past_block(following) {
            Some(end) => Some((Shape::BlockComment, end)),
            None => None,
        },
        _ => sign(text),
    }
}

/// Returns the shape of the ordinary piece at the start of the text and the text after it, or `None` if there is none.
#[tactic(auto, unfolding(crate::specs::Scan::cut))]
pub fn cut(inserts: Option<Inserts>, text: &str) -> Option<(Shape, &str)>
    ensures { spec.IsCut text.now (spec.cut inserts (chars text.now)) result }
{
    let (c, rest) = split_first(text)?;
    match start_of(c) {
        Start::White => Some((Shape::Blank, rest)),
        Start::Letter => Some((Shape::Word, past(CharKind::Word, rest))),
        Start::Digit => Some((Shape::Number, past(CharKind::Digit, rest))),
        Start::Quote => match past_literal(inserts, rest) {
            Some(end) => Some((Shape::Literal, end)),
            None => None,
        },
        Start::Slash => slash(text, rest),
        Start::Other => sign(text),
    }
}

/// Reads two insert characters or a white space character.
#[tactic(auto, unfolding(crate::specs::Scan::pair_cut))]
fn pair_cut(text: &str) -> Option<(Shape, &str)>
    ensures { spec.IsCut text.now (spec.pair_cut (chars text.now)) result }
{
    let (a, rest) = split_first(text)?;
    if is_in(CharKind::White, a) {
        return Some((Shape::Blank, rest));
    }
    let (b, following) = split_first(rest)?;
    if a == '\'' || is_in(CharKind::White, b) {
        None
    } else {
        Some((Shape::Inserts, following))
    }
}

/// Reads the name of a macro or a white space character.
#[tactic(auto, unfolding(crate::specs::Scan::name_cut))]
fn name_cut(text: &str) -> Option<(Shape, &str)>
    ensures { spec.IsCut text.now (spec.name_cut (chars text.now)) result }
{
    let (c, rest) = split_first(text)?;
    if is_in(CharKind::White, c) {
        Some((Shape::Blank, rest))
    } else {
        Some((Shape::MacroName, past(CharKind::Black, rest)))
    }
}

fn cut_in(inserts: Option<Inserts>, wanted: Expectation, text: &str) -> Option<(Shape, &str)>
    ensures { spec.IsCut text.now (spec.cut_in inserts wanted (chars text.now)) result }
{
    match wanted {
        Expectation::Token => cut(inserts, text),
        Expectation::Inserts => pair_cut(text),
        Expectation::MacroName => name_cut(text),
    }
}

/// Returns the shape of the longest piece at the start of the text and the text after it, or `None` if there is none.
pub fn piece(inserts: Option<Inserts>, wanted: Expectation, text: &str) -> Option<(Shape, &str)>
    ensures value { MatchOption result (pieces.NoPiece (setting inserts wanted) (chars text.now)) (λ p. spec.Piece_at (setting inserts wanted) p.0 (chars text.now) (chars p.1.now)) }
    ensures within { IfSome result (λ p. length p.1.now < length text.now) }
{
    cut_in(inserts, wanted, text)
}

fn is_gap(shape: Shape) -> bool
    ensures { result ≡ pieces.is_gap shape }
{
    match shape {
        Shape::Blank | Shape::LineComment | Shape::BlockComment => true,
        _ => false,
    }
}

/// Skips white space and comments. Returns the text after them, and the token there as its shape and the text after it.
pub fn past_gaps(
    inserts: Option<Inserts>,
    wanted: Expectation,
    mut text: &str,
) -> (&str, Option<(Shape, &str)>)
    ensures gaps { pieces.AfterGaps (setting inserts wanted) (chars text.entry.now) (chars result.0.now) }
    ensures next { MatchOption result.1 (pieces.NoPiece (setting inserts wanted) (chars result.0.now)) (λ p. spec.Token_at (setting inserts wanted) p.0 (chars result.0.now) (chars p.1.now)) }
{
    while let Some((shape, rest)) = piece(inserts, wanted, text) {
        if !is_gap(shape) {
            return (text, Some((shape, rest)));
        }
        text = rest;
    }
    (text, None)
}

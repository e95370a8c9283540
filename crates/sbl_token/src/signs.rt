//! The signs of the language.

ghost use Rattle.std.specs.Prelude.{◌≡◌, ◌≤◌, ◌<◌, length, MatchOption, IfSome, Some, None};
ghost use Rattle.std.specs.Str.{chars};
ghost use Rattle.sbl_token.specs.SignCuts as spec;
ghost use Rattle.sbl_token.specs.Signs.{sign_text};

use crate::first_char::split_first;

/// A sign of the language (Snowball manual, "The language").
#[derive(Clone, Copy, Debug, PartialEq, Eq)]
pub enum Sign {
    /// `(`
    Open,
    /// `)`
    Close,
    /// `[`
    LeftBracket,
    /// `]`
    RightBracket,
    /// `$`
    Dollar,
    /// `+`
    Plus,
    /// `-`
    Minus,
    /// `*`
    Star,
    /// `/`
    Slash,
    /// `=`
    Equals,
    /// `?`
    Question,
    /// `<`
    Less,
    /// `>`
    Greater,
    /// `==`
    Same,
    /// `!=`
    Differs,
    /// `<=`
    AtMost,
    /// `>=`
    AtLeast,
    /// `<-`
    LessMinus,
    /// `<+`
    LessPlus,
    /// `->`
    Arrow,
    /// `+=`
    PlusEquals,
    /// `-=`
    MinusEquals,
    /// `*=`
    StarEquals,
    /// `/=`
    SlashEquals,
    /// `=>`
    EqualsGreater,
}

impl Sign {
    /// Returns the text of the sign.
    pub fn text(self) -> &'static str
        ensures { result.now ≡ sign_text self }
    {
        match self {
            Sign::Open => "(",
            Sign::Close => ")",
            Sign::LeftBracket => "[",
            Sign::RightBracket => "]",
            Sign::Dollar => "$",
            Sign::Plus => "+",
            Sign::Minus => "-",
            Sign::Star => "*",
            Sign::Slash => "/",
            Sign::Equals => "=",
            Sign::Question => "?",
            Sign::Less => "<",
            Sign::Greater => ">",
            Sign::Same => "==",
            Sign::Differs => "!=",
            Sign::AtMost => "<=",
            Sign::AtLeast => ">=",
            Sign::LessMinus => "<-",
            Sign::LessPlus => "<+",
            Sign::Arrow => "->",
            Sign::PlusEquals => "+=",
            Sign::MinusEquals => "-=",
            Sign::StarEquals => "*=",
            Sign::SlashEquals => "/=",
            Sign::EqualsGreater => "=>",
        }
    }
}

fn one(a: char) -> Option<Sign>
    ensures { result ≡ spec.one a }
{
    match a {
        '(' => Some(Sign::Open),
        ')' => Some(Sign::Close),
        '[' => Some(Sign::LeftBracket),
        ']' => Some(Sign::RightBracket),
        '$' => Some(Sign::Dollar),
        '+' => Some(Sign::Plus),
        '-' => Some(Sign::Minus),
        '*' => Some(Sign::Star),
        '/' => Some(Sign::Slash),
        '=' => Some(Sign::Equals),
        '?' => Some(Sign::Question),
        '<' => Some(Sign::Less),
        '>' => Some(Sign::Greater),
        _ => None,
    }
}

fn two(a: char, b: char) -> Option<Sign>
    ensures { result ≡ spec.two a b }
{
    match b {
        '=' => match a {
            '=' => Some(Sign::Same),
            '!' => Some(Sign::Differs),
            '<' => Some(Sign::AtMost),
            '>' => Some(Sign::AtLeast),
            '+' => Some(Sign::PlusEquals),
            '-' => Some(Sign::MinusEquals),
            '*' => Some(Sign::StarEquals),
            '/' => Some(Sign::SlashEquals),
            _ => None,
        },
        '>' => match a {
            '-' => Some(Sign::Arrow),
            '=' => Some(Sign::EqualsGreater),
            _ => None,
        },
        '-' if a == '<' => Some(Sign::LessMinus),
        '+' if a == '<' => Some(Sign::LessPlus),
        _ => None,
    }
}

/// Returns the longest sign that the text begins with and the text after it, or `None` if the text begins with no sign
/// (Snowball manual, "The language").
#[tactic(auto, unfolding(crate::specs::SignCuts::sign_prefix))]
pub fn sign_prefix(text: &str) -> Option<(Sign, &str)>
    ensures value { MatchOption result (spec.sign_prefix (chars text.now) ≡ None) (λ p. spec.sign_prefix (chars text.now) ≡ Some (p.0, chars p.1.now)) }
    ensures within { IfSome result (λ p. length p.1.now < length text.now) }
{
    let (a, rest) = split_first(text)?;
    if let Some((b, following)) = split_first(rest) {
        if let Some(sign) = two(a, b) {
            return Some((sign, following));
        }
    }
    match one(a) {
        Some(sign) => Some((sign, rest)),
        None => None,
    }
}

/// Returns the sign with exactly this text, or `None` if there is none (Snowball manual, "The language").
pub fn sign_of(text: &str) -> Option<Sign>
    ensures { result ≡ spec.sign_of (chars text.now) }
{
    let (a, rest) = split_first(text)?;
    match split_first(rest) {
        None => one(a),
        Some((b, end)) => match split_first(end) {
            None => two(a, b),
            Some(_) => None,
        },
    }
}

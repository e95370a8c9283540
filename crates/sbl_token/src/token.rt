//! The tokens of a script.

use crate::signs::Sign;
use crate::words::Word;

/// The kind of a token.
#[derive(Clone, Copy, Debug, PartialEq, Eq)]
pub enum Kind {
    /// A reserved word.
    Word(Word),
    /// A sign.
    Sign(Sign),
    /// An ASCII letter, then ASCII letters, digits and underscores. Never a reserved word.
    Name,
    /// One or more decimal digits.
    Number,
    /// A string in single quotes.
    Literal,
    /// The two insert characters after `stringescapes`.
    Inserts,
    /// The name of a macro after `stringdef`.
    MacroName,
}

/// What a token means beyond its kind and its text.
#[derive(Debug, Drop)]
pub enum Value<'a> {
    /// The value of a word, a sign, a name or the name of a macro.
    None,
    /// The value of a number, at most 2147483647.
    Number(u32),
    /// The value of a literal.
    Literal {
        /// The text between the quotes.
        spelling: &'a str,
        /// The characters that the literal means.
        value: Vec<char>,
    },
    /// The two insert characters.
    Inserts(char, char),
}

/// A token and its position: its text is the slice `start..end` of the source, in bytes.
#[derive(Debug, Drop)]
pub struct Token<'a> {
    /// The kind of the token.
    pub kind: Kind,
    /// The text of the token.
    pub text: &'a str,
    /// The byte offset at which the token starts.
    pub start: usize,
    /// The byte offset at which the token ends (exclusive).
    pub end: usize,
    /// What the token means beyond its kind and its text.
    pub value: Value<'a>,
}

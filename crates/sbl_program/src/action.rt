//! Commands that contain no command, and their parts. Names are numbers.

use sbl_ast::{Additive, Multiplicative};

/// A string: a literal, or the value of a string variable.
#[derive(Drop)]
pub enum StringTerm {
    /// `'abc'`
    Literal(Vec<char>),
    /// A string variable, by its number.
    Variable(usize),
}

/// An arithmetic expression.
#[cycle(arithmetic)]
#[derive(Drop)]
pub enum Arithmetic {
    /// A number.
    Number(u32),
    /// An integer variable, by its number.
    Integer(usize),
    /// `cursor`
    Cursor,
    /// `limit`
    Limit,
    /// `len`
    Length,
    /// `lenof S`
    LengthOf(StringTerm),
    /// `maxint`
    Greatest,
    /// `minint`
    Least,
    /// `- A`
    Negative(Box<Arithmetic>),
    /// `A + B - C ..`: added and subtracted from left to right.
    Sum {
        /// The first term.
        first: Box<Arithmetic>,
        /// The terms after it.
        others: Vec<Addend>,
    },
    /// `A * B / C ..`: multiplied and divided from left to right.
    Product {
        /// The first factor.
        first: Box<Arithmetic>,
        /// The factors after it.
        others: Vec<Multiplicand>,
    },
}

/// A term after the first one of a sum.
#[cycle(arithmetic)]
#[derive(Drop)]
pub struct Addend {
    /// The sign before it.
    pub operator: Additive,
    /// The term.
    pub number: Arithmetic,
}

/// A factor after the first one of a product.
#[cycle(arithmetic)]
#[derive(Drop)]
pub struct Multiplicand {
    /// The sign before it.
    pub operator: Multiplicative,
    /// The factor.
    pub number: Arithmetic,
}

/// How an assignment changes an integer variable.
#[derive(Clone, Copy, Debug, PartialEq, Eq)]
pub enum Change {
    /// `=`
    Becomes,
    /// `+=`
    Plus,
    /// `-=`
    Minus,
    /// `*=`
    Times,
    /// `/=`
    Over,
}

/// A comparison of two numbers.
#[derive(Clone, Copy, Debug, PartialEq, Eq)]
pub enum Relation {
    /// `==`
    Equal,
    /// `!=`
    Unequal,
    /// `<`
    Less,
    /// `<=`
    LessOrEqual,
    /// `>`
    Greater,
    /// `>=`
    GreaterOrEqual,
}

/// A command that contains no command.
#[derive(Drop)]
pub enum Action {
    /// A literal or a string variable: matches the text.
    Match(StringTerm),
    /// A grouping, by its number.
    Grouping(usize),
    /// `non` and a grouping, by its number.
    NonGrouping(usize),
    /// `next`
    Next,
    /// `hop AE`
    Hop(Arithmetic),
    /// `tolimit`
    ToLimit,
    /// `atlimit`
    AtLimit,
    /// `setmark x`
    SetMark(usize),
    /// `atmark AE`
    AtMark(Arithmetic),
    /// `tomark AE`
    ToMark(Arithmetic),
    /// `set b`
    Set(usize),
    /// `unset b`
    Unset(usize),
    /// The name of a boolean variable, by its number.
    Boolean(usize),
    /// `[`
    LeftBracket,
    /// `]`
    RightBracket,
    /// `<- S`
    Replace(StringTerm),
    /// `delete`
    Delete,
    /// `-> s`
    Keep(usize),
    /// `insert S` or `<+ S`
    Insert(StringTerm),
    /// `attach S`
    Attach(StringTerm),
    /// `$x = AE` and similar commands.
    Assign(usize, Change, Arithmetic),
    /// `$x == AE` and similar commands, or `$( AE == AE )`.
    Compare(Arithmetic, Relation, Arithmetic),
    /// `true`
    True,
    /// `false`
    False,
}

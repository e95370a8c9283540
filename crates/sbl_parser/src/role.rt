//! The role of a token in the grammar.

use sbl_ast::{
    Additive, Assignment, Base, Comparison, Constant, Count, DeclarationKind, Joiner, Move,
    Multiplicative, Naming, Prefix, Simple, Splice,
};

/// The role of a token in the grammar, without its text or its value.
#[derive(Clone, Copy)]
pub(crate) enum Role {
    /// `(`
    Open,
    /// `)`
    Close,
    /// `$`
    Dollar,
    /// `as`
    As,
    /// `for`
    For,
    /// `non`
    Non,
    /// `among`
    Among,
    /// `define`
    Define,
    /// `backwardmode`
    BackwardMode,
    /// `setlimit`
    SetLimit,
    /// `stringdef`
    StringDef,
    /// `stringescapes`
    StringEscapes,
    /// `lenof`
    LenOf,
    /// `strings` and the other words for declarations
    Declares(DeclarationKind),
    /// `hex` or `decimal`
    Base(Base),
    /// `or` or `and`
    Joiner(Joiner),
    /// A command of one token.
    Simple(Simple),
    /// `not` and other words before a command
    Prefix(Prefix),
    /// `loop` or `atleast`
    Count(Count),
    /// `hop`, `atmark` or `tomark`
    Move(Move),
    /// `set` and other words or signs before the name of a variable
    Naming(Naming),
    /// `<-` and other words or signs before a string
    Splice(Splice),
    /// `+` or `-`
    Additive(Additive),
    /// `*` or `/`
    Multiplicative(Multiplicative),
    /// `=`, `+=`, `-=`, `*=` or `/=`
    Assignment(Assignment),
    /// `==`, `!=`, `<`, `<=`, `>` or `>=`
    Comparison(Comparison),
    /// `cursor` and other words for a number
    Constant(Constant),
    /// A name.
    Name,
    /// A number.
    Number,
    /// A literal.
    Literal,
    /// The two insert characters.
    Inserts,
    /// A macro's name.
    MacroName,
    /// A word or sign that occurs in no tree.
    Other,
    /// No token is left.
    End,
}

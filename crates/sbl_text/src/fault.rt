//! The faults of a script.

ghost use Rattle.std.specs.Prelude.{◌≡◌};
ghost use Rattle.sbl_text.specs.declared.fault.ScriptFault.TheVariants.{OutOfMemory};

use std::alloc::{AllocError, AllocFailed};
use thiserror::Error;

/// The first fault of a script, with its number and its position.
///
/// A `place` is a byte offset in the text. An `item` is the number of an item, counted from 1 in the order of the text.
/// Numbers, names and order of the faults are our own choice.
#[derive(Debug, Clone, Copy, PartialEq, Eq, Error)]
pub enum ScriptFault {
    /// No token begins at the byte offset.
    #[error("1 BadCharacter at {place}")]
    BadCharacter { place: usize },
    /// The literal whose opening quote is at the byte offset has no end.
    #[error("2 UnclosedString at {place}")]
    UnclosedString { place: usize },
    /// The comment that begins at the byte offset has no `*/`.
    #[error("3 UnclosedComment at {place}")]
    UnclosedComment { place: usize },
    /// A literal inserts a name that is not defined.
    #[error("4 UnknownEscape at {place}")]
    UnknownEscape { place: usize },
    /// What should be the code point of a character is not one.
    #[error("5 BadCode at {place}")]
    BadCode { place: usize },
    /// The number at the byte offset is above 2147483647.
    #[error("6 NumberTooLarge at {place}")]
    NumberTooLarge { place: usize },
    /// The token at the byte offset cannot follow the tokens before it, or more tokens are needed at the end.
    #[error("7 Syntax at {place}")]
    Syntax { place: usize },
    /// The token at the byte offset is nested too deep.
    #[error("8 TooDeep at {place}")]
    TooDeep { place: usize },
    /// A name is declared twice.
    #[error("9 DeclaredTwice in item {item}")]
    DeclaredTwice { item: usize },
    /// A name is not declared before its use.
    #[error("10 Undeclared in item {item}")]
    Undeclared { item: usize },
    /// A name is of a kind that is not allowed there.
    #[error("11 WrongKind in item {item}")]
    WrongKind { item: usize },
    /// A name is defined twice.
    #[error("12 DefinedTwice in item {item}")]
    DefinedTwice { item: usize },
    /// A routine or grouping is used but not defined.
    #[error("13 Undefined in item {item}")]
    Undefined { item: usize },
    /// A routine is defined in one mode and used in the other.
    #[error("14 WrongMode in item {item}")]
    WrongMode { item: usize },
    /// A `substring` has no `among`.
    #[error("15 Substring in item {item}")]
    Substring { item: usize },
    /// An `among` after a `substring` has a starter.
    #[error("16 Starter in item {item}")]
    Starter { item: usize },
    /// Two strings of an `among` are equal.
    #[error("17 RepeatedString in item {item}")]
    RepeatedString { item: usize },
    /// An `among` has no string.
    #[error("18 EmptyAmong in item {item}")]
    EmptyAmong { item: usize },
    /// A `backwards` is used in backward mode.
    #[error("19 NestedBackwards in item {item}")]
    NestedBackwards { item: usize },
    /// The token at the byte offset belongs to a part of the language that is not supported.
    #[error("20 OutOfProfile at {place}")]
    OutOfProfile { place: usize },
    /// The requested external is not declared as an external or not defined.
    #[error("21 NoExternal")]
    NoExternal,
    /// The bytes are not UTF-8.
    #[error("23 NotUtf8")]
    NotUtf8,
    /// The script is longer than 1,048,576 bytes.
    #[error("24 ScriptTooLong")]
    ScriptTooLong,
    /// An allocation failed.
    #[error("49 OutOfMemory")]
    OutOfMemory,
}

impl<T: Drop> From<AllocFailed<T>> for ScriptFault {
    ghost from_gives = { λ _ e. e ≡ OutOfMemory };

    fn from(_e: AllocFailed<T>) -> ScriptFault {
        ScriptFault::OutOfMemory
    }
}

impl From<AllocError> for ScriptFault {
    ghost from_gives = { λ _ e. e ≡ OutOfMemory };

    fn from(_e: AllocError) -> ScriptFault {
        ScriptFault::OutOfMemory
    }
}

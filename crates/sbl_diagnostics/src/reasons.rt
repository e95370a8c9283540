//! What is wrong at the place of a script's fault.

use sbl_source_map::ScriptFault;

/// Returns whether the reason is a sentence of its own. Otherwise it follows what is at the place.
pub(crate) fn begins_sentence(fault: ScriptFault) -> bool {
    matches!(
        fault,
        ScriptFault::UnclosedString { .. }
            | ScriptFault::UnclosedComment { .. }
            | ScriptFault::UnknownEscape { .. }
            | ScriptFault::BadCode { .. }
            | ScriptFault::NumberTooLarge { .. }
            | ScriptFault::TooDeep { .. }
            | ScriptFault::Substring { .. }
            | ScriptFault::Starter { .. }
            | ScriptFault::EmptyAmong { .. }
            | ScriptFault::NestedBackwards { .. }
            | ScriptFault::NoExternal
            | ScriptFault::NotUtf8
            | ScriptFault::ScriptTooLong
            | ScriptFault::OutOfMemory
    )
}

/// Returns what is wrong, and what to do.
pub(crate) fn reason(fault: ScriptFault) -> &'static str {
    match fault {
        ScriptFault::BadCharacter { .. } => { "can only be in a literal or a comment" }
        ScriptFault::UnclosedString { .. } => {
            "the literal that begins here has no closing quote. Look for a missing quote before \
             it, too"
        }
        ScriptFault::UnclosedComment { .. } => "the comment that begins here has no */",
        ScriptFault::UnknownEscape { .. } => {
            "no stringdef before this defines the name that is inserted here"
        }
        ScriptFault::BadCode { .. } => {
            "this is no code of a character: hex needs 1 to 6 digits of 0-9 and A-F, decimal needs \
             1 to 7 digits of 0-9"
        }
        ScriptFault::NumberTooLarge { .. } => "a number may be 2147483647 at most",
        ScriptFault::Syntax { .. } => "cannot follow what is before it",
        ScriptFault::TooDeep { .. } => {
            "this is inside more than 64 others: put a part into a routine of its own"
        }
        ScriptFault::DeclaredTwice { .. } => "is declared twice: take one of the two away",
        ScriptFault::Undeclared { .. } => "is not declared.",
        ScriptFault::WrongKind { .. } => "is declared as something that cannot be used here",
        ScriptFault::DefinedTwice { .. } => "is defined twice: take one of the two away",
        ScriptFault::Undefined { .. } => {
            "is declared, but not defined here: add its define, or move it before this"
        }
        ScriptFault::WrongMode { .. } => {
            "is defined in another mode than it is used in: move its define into or out of \
             backwardmode"
        }
        ScriptFault::Substring { .. } => {
            "a substring here has no among after it in its routine or parentheses"
        }
        ScriptFault::Starter { .. } => {
            "an among here has commands before its first string, but its substring is elsewhere: \
             put them before the among"
        }
        ScriptFault::RepeatedString { .. } => "is in this among twice: take one of the two away",
        ScriptFault::EmptyAmong { .. } => "this among has no string",
        ScriptFault::NestedBackwards { .. } => {
            "backward mode is on here already: take this backwards away"
        }
        ScriptFault::OutOfProfile { .. } => {
            "is of Snowball, but left out here: docs/LANGUAGE.md says what to write"
        }
        ScriptFault::NoExternal => "the script does not define the external",
        ScriptFault::NotUtf8 => "the text is not UTF-8",
        ScriptFault::ScriptTooLong => "a script may have 1048576 bytes at most",
        ScriptFault::OutOfMemory => "an allocation failed",
    }
}

//! The numbers of the faults of a script.

ghost use Rattle.std.specs.Prelude.{◌≡◌};
ghost use Rattle.sbl_source_map.specs.FaultNumbers as spec;

use sbl_text::ScriptFault;

/// Returns the number of a fault, with which its `Display` begins. Does not allocate.
pub fn number_of(fault: ScriptFault) -> usize
    ensures { result ≡ spec.number_of fault }
{
    match fault {
        ScriptFault::BadCharacter { .. } => 1,
        ScriptFault::UnclosedString { .. } => 2,
        ScriptFault::UnclosedComment { .. } => 3,
        ScriptFault::UnknownEscape { .. } => 4,
        ScriptFault::BadCode { .. } => 5,
        ScriptFault::NumberTooLarge { .. } => 6,
        ScriptFault::Syntax { .. } => 7,
        ScriptFault::TooDeep { .. } => 8,
        ScriptFault::DeclaredTwice { .. } => 9,
        ScriptFault::Undeclared { .. } => 10,
        ScriptFault::WrongKind { .. } => 11,
        ScriptFault::DefinedTwice { .. } => 12,
        ScriptFault::Undefined { .. } => 13,
        ScriptFault::WrongMode { .. } => 14,
        ScriptFault::Substring { .. } => 15,
        ScriptFault::Starter { .. } => 16,
        ScriptFault::RepeatedString { .. } => 17,
        ScriptFault::EmptyAmong { .. } => 18,
        ScriptFault::NestedBackwards { .. } => 19,
        ScriptFault::OutOfProfile { .. } => 20,
        ScriptFault::NoExternal => 21,
        ScriptFault::NotUtf8 => 23,
        ScriptFault::ScriptTooLong => 24,
        ScriptFault::OutOfMemory => 49,
    }
}

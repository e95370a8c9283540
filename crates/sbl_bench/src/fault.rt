//! Why an edit is refused.

ghost use Rattle.std.specs.Prelude.{◌≡◌};
ghost use Rattle.sbl_bench.specs.Names as spec;

use sbl_machine::RunStop;
use sbl_script::ScriptFault;
use std::alloc::AllocError;
use thiserror::Error;

/// Why an edit is refused. A refused edit changes nothing, except that the count of runs may be higher after `OutOfMemory` and
/// `BrokenOff`. Every error but `AmongCount`, `Script`, `OutOfMemory`, `MeterFull` and `BrokenOff` is found without an allocation.
/// The numbers and names are our own choice.
#[derive(Debug, Drop, Clone, Copy, PartialEq, Eq, Error)]
pub enum EditFault {
    /// The word is in the vocabulary.
    #[error("40 Present")]
    Present,
    /// The word is not in the vocabulary.
    #[error("41 Absent")]
    Absent,
    /// The word has no character.
    #[error("42 EmptyWord")]
    EmptyWord,
    /// The word has more than 255 characters.
    #[error("43 WordTooLong")]
    WordTooLong,
    /// The vocabulary has 100,000 words.
    #[error("44 Full")]
    Full,
    /// The script defines no routine and no external of this name.
    #[error("45 NoRoutine")]
    NoRoutine,
    /// The routine has no among of this number.
    #[error("46 NoAmong")]
    NoAmong,
    /// The text and the among that it replaces have different numbers of amongs.
    #[error("47 AmongCount")]
    AmongCount,
    /// The text, or the script with it, has this fault. `Display` shows the name of the fault, without its position or item.
    #[error("48 {}", script_name(*.0))]
    Script(ScriptFault),
    /// An allocation failed.
    #[error("49 OutOfMemory")]
    OutOfMemory,
    /// Fewer counts of runs are left than the edit has words to run.
    #[error("50 MeterFull")]
    MeterFull,
    /// The limit is 0 or above 10,000,000.
    #[error("51 BadLimit")]
    BadLimit,
    /// The script defines no grouping of this name.
    #[error("53 NoGrouping")]
    NoGrouping,
    /// The edit was broken off before one of its runs, since its `BreakOff` said so. Only the calls that take one return this.
    #[error("68 BrokenOff")]
    BrokenOff,
}

/// The name of a fault of a script between two texts, without the fault's position or item.
#[macro_export]
macro_rules! script_name_between {
    ($before:literal, $fault:expr, $after:literal) => {
        match $fault {
            $crate::ScriptFault::BadCharacter { place: _ } => concat!($before, "BadCharacter", $after),
            $crate::ScriptFault::UnclosedString { place: _ } => concat!($before, "UnclosedString", $after),
            $crate::ScriptFault::UnclosedComment { place: _ } => concat!($before, "UnclosedComment", $after),
            $crate::ScriptFault::UnknownEscape { place: _ } => concat!($before, "UnknownEscape", $after),
            $crate::ScriptFault::BadCode { place: _ } => concat!($before, "BadCode", $after),
            $crate::ScriptFault::NumberTooLarge { place: _ } => concat!($before, "NumberTooLarge", $after),
            $crate::ScriptFault::Syntax { place: _ } => concat!($before, "Syntax", $after),
            $crate::ScriptFault::TooDeep { place: _ } => concat!($before, "TooDeep", $after),
            $crate::ScriptFault::DeclaredTwice { item: _ } => concat!($before, "DeclaredTwice", $after),
            $crate::ScriptFault::Undeclared { item: _ } => concat!($before, "Undeclared", $after),
            $crate::ScriptFault::WrongKind { item: _ } => concat!($before, "WrongKind", $after),
            $crate::ScriptFault::DefinedTwice { item: _ } => concat!($before, "DefinedTwice", $after),
            $crate::ScriptFault::Undefined { item: _ } => concat!($before, "Undefined", $after),
            $crate::ScriptFault::WrongMode { item: _ } => concat!($before, "WrongMode", $after),
            $crate::ScriptFault::Substring { item: _ } => concat!($before, "Substring", $after),
            $crate::ScriptFault::Starter { item: _ } => concat!($before, "Starter", $after),
            $crate::ScriptFault::RepeatedString { item: _ } => concat!($before, "RepeatedString", $after),
            $crate::ScriptFault::EmptyAmong { item: _ } => concat!($before, "EmptyAmong", $after),
            $crate::ScriptFault::NestedBackwards { item: _ } => concat!($before, "NestedBackwards", $after),
            $crate::ScriptFault::OutOfProfile { place: _ } => concat!($before, "OutOfProfile", $after),
            $crate::ScriptFault::NoExternal => concat!($before, "NoExternal", $after),
            $crate::ScriptFault::NotUtf8 => concat!($before, "NotUtf8", $after),
            $crate::ScriptFault::ScriptTooLong => concat!($before, "ScriptTooLong", $after),
            $crate::ScriptFault::OutOfMemory => concat!($before, "OutOfMemory", $after),
        }
    };
}

/// Returns the name of a fault of a script, without its position or item.
pub fn script_name(fault: ScriptFault) -> &'static str
    ensures { result.now ≡ spec.script_name fault }
{
    script_name_between!("", fault, "")
}

impl From<AllocError> for EditFault {
    ghost use Rattle.sbl_bench.specs.declared.fault.EditFault.TheVariants.{OutOfMemory};

    ghost from_gives = { λ _ fault. fault ≡ OutOfMemory };

    fn from(_error: AllocError) -> EditFault {
        EditFault::OutOfMemory
    }
}

impl From<sbl_script::EditFault> for EditFault {
    ghost use Rattle.sbl_bench.specs.Edits.{fault_of_script};

    ghost from_gives = { λ fault result. result ≡ fault_of_script fault };

    fn from(fault: sbl_script::EditFault) -> EditFault {
        match fault {
            sbl_script::EditFault::NoRoutine => EditFault::NoRoutine,
            sbl_script::EditFault::NoGrouping => EditFault::NoGrouping,
            sbl_script::EditFault::NoAmong => EditFault::NoAmong,
            sbl_script::EditFault::AmongCount => EditFault::AmongCount,
            sbl_script::EditFault::Script(fault) => EditFault::Script(fault),
            sbl_script::EditFault::OutOfMemory => EditFault::OutOfMemory,
        }
    }
}

impl From<ScriptFault> for EditFault {
    ghost use Rattle.sbl_bench.specs.inside.Stops.{IsFaultOfText};

    ghost from_gives = { λ fault result. IsFaultOfText fault result };

    fn from(fault: ScriptFault) -> EditFault {
        sbl_script::EditFault::from(fault).into()
    }
}

impl From<RunStop> for EditFault {
    ghost use Rattle.sbl_bench.specs.inside.Stops.{fault_of_stop};

    ghost from_gives = { λ stop fault. fault ≡ fault_of_stop stop };

    fn from(stop: RunStop) -> EditFault {
        match stop {
            RunStop::OutOfMemory => EditFault::OutOfMemory,
            RunStop::MeterFull => EditFault::MeterFull,
        }
    }
}

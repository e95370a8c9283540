//! Why an edit of a script is refused.

ghost use Rattle.std.specs.Prelude.{◌≡◌};
ghost use Rattle.sbl_script.specs.Refusals.{Refuses};
ghost use Rattle.sbl_script.specs.declared.edit_fault.EditFault.TheVariants.{OutOfMemory};

use sbl_text::ScriptFault;
use std::alloc::AllocError;
use thiserror::Error;

/// Why an edit is refused, with its number. Numbers and names are our own choice.
#[derive(Debug, Clone, Copy, PartialEq, Eq, Error)]
pub enum EditFault {
    /// The script defines no routine or external with this name.
    #[error("45 NoRoutine")]
    NoRoutine,
    /// The script defines no grouping with this name.
    #[error("53 NoGrouping")]
    NoGrouping,
    /// The number is 0, or greater than the number of amongs in the routine.
    #[error("46 NoAmong")]
    NoAmong,
    /// The new among and the one it replaces hold different numbers of amongs, counting those inside them.
    #[error("47 AmongCount")]
    AmongCount,
    /// The text has a fault, or the script with the text in it has one.
    #[error("48 {0}")]
    Script(ScriptFault),
    /// An allocation failed.
    #[error("49 OutOfMemory")]
    OutOfMemory,
}

impl From<ScriptFault> for EditFault {
    ghost from_gives = { λ fault refused. Refuses fault refused };

    fn from(fault: ScriptFault) -> EditFault {
        match fault {
            ScriptFault::OutOfMemory => EditFault::OutOfMemory,
            _ => EditFault::Script(fault),
        }
    }
}

impl From<AllocError> for EditFault {
    ghost from_gives = { λ _ refused. refused ≡ OutOfMemory };

    fn from(_error: AllocError) -> EditFault {
        EditFault::OutOfMemory
    }
}

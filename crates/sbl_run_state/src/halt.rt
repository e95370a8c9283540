//! Why a command has no signal.

ghost use Rattle.std.specs.Prelude.{◌≡◌};
ghost use Rattle.sbl_run_state.specs.Halts.{fault_of, halt_of};

use sbl_semantics::RunFault;
use std::alloc::AllocError;

/// Why a command has no signal. The faults are variants of this type and not of one inside it, so that a result has two
/// bytes and is returned in registers.
#[derive(Debug, Drop)]
pub enum Halt {
    /// An allocation failed, or a number to be touched is above `u32::MAX`.
    OutOfMemory,
    /// The run is refused with `RunFault::Steps`, and so on.
    Steps,
    Depth,
    Slice,
    Cursor,
    Integer,
    Divide,
    TooLong,
}

impl Halt {
    /// Returns the fault with which the run is refused; `None` if memory was refused.
    pub fn fault(self) -> Option<RunFault>
        ensures { result ≡ fault_of self }
    {
        match self {
            Halt::OutOfMemory => None,
            Halt::Steps => Some(RunFault::Steps),
            Halt::Depth => Some(RunFault::Depth),
            Halt::Slice => Some(RunFault::Slice),
            Halt::Cursor => Some(RunFault::Cursor),
            Halt::Integer => Some(RunFault::Integer),
            Halt::Divide => Some(RunFault::Divide),
            Halt::TooLong => Some(RunFault::TooLong),
        }
    }
}

impl From<AllocError> for Halt {
    ghost use Rattle.sbl_run_state.specs.declared.halt.Halt.TheVariants.{OutOfMemory};

    ghost from_gives = { λ _ r. r ≡ OutOfMemory };

    fn from(_error: AllocError) -> Halt {
        Halt::OutOfMemory
    }
}

impl From<RunFault> for Halt {
    ghost from_gives = { λ fault r. r ≡ halt_of fault };

    fn from(fault: RunFault) -> Halt {
        halt_of(fault)
    }
}

/// Returns why a run with this fault ended.
#[inline(always)]
fn halt_of(fault: RunFault) -> Halt
    ensures { result ≡ halt_of fault }
{
    match fault {
        RunFault::Steps => Halt::Steps,
        RunFault::Depth => Halt::Depth,
        RunFault::Slice => Halt::Slice,
        RunFault::Cursor => Halt::Cursor,
        RunFault::Integer => Halt::Integer,
        RunFault::Divide => Halt::Divide,
        RunFault::TooLong => Halt::TooLong,
    }
}

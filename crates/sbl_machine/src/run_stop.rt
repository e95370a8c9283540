//! Why a run gives no result.

ghost use Rattle.std.specs.Prelude.{◌≡◌};

use std::alloc::AllocError;
use thiserror::Error;

/// Why `Machine::run` returns no result.
#[derive(Clone, Copy, Debug, Drop, PartialEq, Eq, Error)]
pub enum RunStop {
    /// An allocation failed.
    #[error("49 OutOfMemory")]
    OutOfMemory,
    /// The meter cannot count another run.
    #[error("50 MeterFull")]
    MeterFull,
}

impl From<AllocError> for RunStop {
    ghost use Rattle.sbl_machine.specs.declared.run_stop.RunStop.TheVariants.{OutOfMemory};

    ghost from_gives = { λ _ r. r ≡ OutOfMemory };

    fn from(_error: AllocError) -> RunStop {
        RunStop::OutOfMemory
    }
}

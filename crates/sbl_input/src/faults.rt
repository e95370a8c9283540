//! Why there is no bench.
ghost use Rattle.sbl_io.specs.Faults.{serve_fault_of};
ghost use Rattle.std.specs.Prelude.{◌≡◌};

use sbl_bench::EditFault;
use sbl_io::{LineFault, ServeFault};
use sbl_script::ScriptFault;
use std::alloc::{AllocError, AllocFailed};
use thiserror::Error;

/// Why there is no bench. `Display` shows the number and the name of the fault, and its position or item if it has one.
#[derive(Clone, Copy, Debug, PartialEq, Eq, Drop, Error)]
pub enum LoadFault {
    /// The input could not be read, ended inside the script block, or has a line that is too long or not UTF-8; or an
    /// allocation failed.
    #[error(transparent)]
    Input(ServeFault),
    /// The script is refused: its first fault.
    #[error(transparent)]
    Script(ScriptFault),
    /// The vocabulary is refused.
    #[error(transparent)]
    Open(EditFault),
}

impl From<LineFault> for LoadFault {
    ghost use Rattle.sbl_input.specs.declared.faults.LoadFault.TheVariants as load;

    ghost from_gives = { λ fault e. e ≡ load.Input (serve_fault_of fault) };

    fn from(fault: LineFault) -> LoadFault {
        LoadFault::Input(fault.into())
    }
}

impl From<ServeFault> for LoadFault {
    ghost use Rattle.sbl_input.specs.declared.faults.LoadFault.TheVariants as load;

    ghost from_gives = { λ fault e. e ≡ load.Input fault };

    fn from(fault: ServeFault) -> LoadFault {
        LoadFault::Input(fault)
    }
}

impl From<ScriptFault> for LoadFault {
    ghost use Rattle.sbl_input.specs.declared.faults.LoadFault.TheVariants as load;

    ghost from_gives = { λ fault e. e ≡ load.Script fault };

    fn from(fault: ScriptFault) -> LoadFault {
        LoadFault::Script(fault)
    }
}

impl From<AllocError> for LoadFault {
    ghost use Rattle.sbl_input.specs.declared.faults.LoadFault.TheVariants as load;
    ghost use Rattle.sbl_io.specs.declared.faults.ServeFault.TheVariants as serve;

    ghost from_gives = { λ _ e. e ≡ load.Input serve.OutOfMemory };

    fn from(_: AllocError) -> LoadFault {
        LoadFault::Input(ServeFault::OutOfMemory)
    }
}

impl<T: Drop> From<AllocFailed<T>> for LoadFault {
    ghost use Rattle.sbl_input.specs.declared.faults.LoadFault.TheVariants as load;
    ghost use Rattle.sbl_io.specs.declared.faults.ServeFault.TheVariants as serve;

    ghost from_gives = { λ _ e. e ≡ load.Input serve.OutOfMemory };

    fn from(_: AllocFailed<T>) -> LoadFault {
        LoadFault::Input(ServeFault::OutOfMemory)
    }
}

//! Why there is no next line, and why a session ends early.
ghost use Rattle.sbl_io.specs.Faults.{serve_fault_of};
ghost use Rattle.std.specs.Prelude.{◌≡◌};

use std::alloc::AllocError;
use thiserror::Error;

/// Why there is no next line.
#[derive(Clone, Copy, Debug, PartialEq, Eq)]
pub enum LineFault {
    /// The reader failed, or the limit on reads or on interruptions was reached.
    Read,
    /// The line has more than 65,536 bytes.
    TooLong,
}

/// Why a session ended early. Each fault is displayed as its number and its name.
#[derive(Clone, Copy, Debug, PartialEq, Eq, Drop, Error)]
pub enum ServeFault {
    /// The reader failed, or the limit on reads or on interruptions was reached.
    #[error("70 Read")]
    Read,
    /// The writer failed, or it was interrupted more than 1,000 times in a row.
    #[error("71 Write")]
    Write,
    /// A line has more than 65,536 bytes.
    #[error("72 LineTooLong")]
    LineTooLong,
    /// The input ended inside a block.
    #[error("73 Cut")]
    Cut,
    /// One of two lists has more lines than the other.
    #[error("74 LengthsDiffer")]
    LengthsDiffer,
    /// A word or an expected stem is not UTF-8.
    #[error("75 NotText")]
    NotText,
    /// An allocation failed.
    #[error("49 OutOfMemory")]
    OutOfMemory,
}

impl From<LineFault> for ServeFault {
    ghost from_gives = { λ fault e. e ≡ serve_fault_of fault };

    fn from(fault: LineFault) -> ServeFault {
        if matches!(fault, LineFault::TooLong) {
            return ServeFault::LineTooLong;
        }
        ServeFault::Read
    }
}

impl From<AllocError> for ServeFault {
    ghost use Rattle.sbl_io.specs.declared.faults.ServeFault.TheVariants as serve;

    ghost from_gives = { λ _ e. e ≡ serve.OutOfMemory };

    fn from(_: AllocError) -> ServeFault {
        ServeFault::OutOfMemory
    }
}

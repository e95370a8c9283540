//! Why a text was not written to a file.

use std::alloc::AllocError;
use std::io;
use std::io::ErrorKind;

/// Why a text was not written to a file.
#[derive(Clone, Copy, Debug, PartialEq, Eq)]
pub enum SaveFault {
    /// The file does not have what it has to have. It was not written.
    Changed,
    /// The file cannot be written. It has its old text.
    NotWritten,
    /// The file has the new text, but after a stop of the machine it may have the old one.
    NotSettled,
    /// The file was written in place, and that failed; its old text could not be put back. A file beside it has that text, if one could
    /// be made.
    Torn,
    /// Memory was refused. The file was not written.
    OutOfMemory,
}

impl From<AllocError> for SaveFault {
    fn from(_: AllocError) -> SaveFault {
        SaveFault::OutOfMemory
    }
}

/// Returns the fault of an error of the system before anything was written.
pub(crate) fn fault_of(error: &io::Error) -> SaveFault {
    if error.kind() == ErrorKind::OutOfMemory {
        SaveFault::OutOfMemory
    } else {
        SaveFault::NotWritten
    }
}

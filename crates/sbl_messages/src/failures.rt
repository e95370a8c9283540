//! Why a run ends early, and with which status.

ghost use Rattle.std.specs.Prelude.{◌≡◌, ◌&&◌, ◌≢◌, IsTrue, Option, String, false, if◌then◌else◌, nat_lt};
ghost use Rattle.std.specs.declared.alloc.Global.{Global};

use crate::fault_texts::FaultText;
use sbl_diagnostics::plain_text;
use snowbench::{LoadFault, ServeFault, Verb, Wanted};
use std::alloc::AllocError;

/// The exit status if the command line is refused, and also after help.
pub const REFUSED: u8 = 2;

/// The exit status after a fault or a difference.
pub const FAILED: u8 = 1;

/// The line if the system gives no random numbers. The keys of the hash of words are made of them.
pub const NO_KEYS: &str = "error: the system gives no random numbers";

/// The exit status after the reader of a pipe has closed it, as of a program that the signal ends.
const CLOSED_PIPE: u8 = 141;

/// Why a run ends early.
#[derive(Drop)]
pub enum Failure {
    /// An allocation failed.
    OutOfMemory,
    /// The reader of a pipe has closed it, as `head` does. That is no fault.
    ClosedPipe,
    /// What a line says, with the exit status.
    Fixed(&'static str, u8),
    /// The same, of a line that was made.
    Line(String, u8),
    /// A fault, and what there is to say on it beside its line.
    Fault(LoadFault, Option<String>),
}

impl Failure {
    /// Returns the failure that a line says.
    pub(crate) fn of_line(line: Result<String, AllocError>, status: u8) -> Failure {
        match plain(line) {
            Ok(line) => Failure::Line(line, status),
            Err(_) => Failure::OutOfMemory,
        }
    }

    /// Returns the failure of a fault. `is_closed` is whether the reader of the output has closed it.
    pub(crate) fn of_fault(fault: LoadFault, is_closed: bool, text: FaultText) -> Failure
        ensures closed { IsTrue is_closed → fault ≡ LoadFault.Input ServeFault.Write → result ≡ Failure.ClosedPipe }
        ensures open { is_closed ≡ false → (said : Option (String Global)) × (result ≡ Failure.Fault fault said) }
    {
        if is_closed && fault == LoadFault::Input(ServeFault::Write) {
            return Failure::ClosedPipe;
        }
        Failure::Fault(fault, plain_if_any(text))
    }

    /// Returns the exit status.
    pub fn status(&self, verb: Verb) -> u8
        ensures closed { self.now ≡ Failure.ClosedPipe → result ≡ 141 }
        ensures compare { self.now ≢ Failure.ClosedPipe → verb ≡ Verb.Compare → result ≡ 2 }
        ensures memory { self.now ≡ Failure.OutOfMemory → verb ≢ Verb.Compare → result ≡ 1 }
    {
        match self {
            Failure::ClosedPipe => CLOSED_PIPE,
            // The other status is that of a difference.
            _ if verb == Verb::Compare => REFUSED,
            Failure::Fixed(_, status) | Failure::Line(_, status) => *status,
            Failure::OutOfMemory | Failure::Fault(_, _) => FAILED,
        }
    }
}

impl From<AllocError> for Failure {
    fn from(_: AllocError) -> Failure {
        Failure::OutOfMemory
    }
}

/// Returns a text without characters that a terminal obeys.
pub fn plain(text: Result<String, AllocError>) -> Result<String, AllocError> {
    let text = text?;
    plain_text(*text.allocator(), text.as_str())
}

/// Returns what there is to say on a fault, without characters that a terminal obeys. If there is no memory for it, the line of the fault is
/// enough.
pub(crate) fn plain_if_any(text: FaultText) -> Option<String> {
    let Ok(Some(text)) = text else {
        return None;
    };
    match plain(Ok(text)) {
        Ok(text) => Some(text),
        Err(_) => None,
    }
}

/// Returns the exit status after a session in which so many replies refused something.
pub fn strict_status(wanted: &Wanted, refusals: u64) -> u8
    ensures { result ≡ (if wanted.now.options.is_strict && nat_lt 0 refusals then 1 else 0) }
{
    if wanted.options.is_strict && refusals > 0 {
        FAILED
    } else {
        0
    }
}

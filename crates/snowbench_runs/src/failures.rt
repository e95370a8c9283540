//! Lines on standard error, and keys for the hash of words.

ghost use Rattle.std.specs.Prelude.{◌≡◌, ◌≢◌};

use sbl_messages::{FAILED, Failure, NO_KEYS};
use snowbench::{Verb, WordKeys};
use std::hash::RandomState;

/// The line if an allocation fails.
pub(crate) const NO_MEMORY: &str = "snowbench: 49 OutOfMemory";

/// Prints a line.
pub(crate) fn print_line(rt: &HostRuntime, line: &str) {
    let _ = eprintln!(rt; "{line}");
}

/// Prints what there is to say, if there is something.
pub(crate) fn print_if_any(rt: &HostRuntime, text: Option<String>) {
    if let Some(text) = text {
        print_line(rt, text.as_str());
    }
}

/// Prints why a run ended early, and returns the exit status.
pub fn print_failure(rt: &HostRuntime, verb: Verb, failure: Failure) -> u8
    ensures closed { failure ≡ Failure.ClosedPipe → result ≡ 141 }
    ensures compare { failure ≢ Failure.ClosedPipe → verb ≡ Verb.Compare → result ≡ 2 }
    ensures memory { failure ≡ Failure.OutOfMemory → verb ≢ Verb.Compare → result ≡ 1 }
{
    let status = failure.status(verb);
    match failure {
        Failure::ClosedPipe => {}
        Failure::OutOfMemory => print_line(rt, NO_MEMORY),
        Failure::Fixed(line, _) => print_line(rt, line),
        Failure::Line(line, _) => print_line(rt, line.as_str()),
        Failure::Fault(fault, text) => {
            let _ = eprintln!(rt; "snowbench: {fault}");
            print_if_any(rt, text);
        }
    }
    status
}

/// Returns keys for the hash of words.
pub(crate) fn word_keys(rt: &HostRuntime) -> Result<WordKeys, Failure> {
    match RandomState::new(rt) {
        Ok(keys) => Ok(WordKeys::new(keys)),
        Err(_) => Err(Failure::Fixed(NO_KEYS, FAILED)),
    }
}

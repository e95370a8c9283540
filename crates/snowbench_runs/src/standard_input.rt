//! Runs over standard input.

use crate::failures::{print_line, word_keys};
use crate::session_watch::PlaceWatch;
use sbl_diagnostics::STANDARD_INPUT;
use sbl_messages::{
    FAILED, Failure, FirstBytes, FirstBytesReader, Output, hint, input_failure, strict_status,
};
use snowbench::{Device, Lines, LoadFault, Progress, Wanted, WordKeys, answer};
use std::alloc::AllocError;
use std::cell::RefCell;
use std::io::Stdout;

/// How a run has ended: its result, what its output was, and how many replies refused something.
type Ended = (Result<u64, LoadFault>, Output<Stdout>, u64);

/// Runs what the command line asks for over standard input, and keeps its first bytes.
fn answer_input(
    rt: &HostRuntime,
    wanted: &Wanted,
    keys: WordKeys,
    kept: &RefCell<FirstBytes>,
) -> Result<Ended, AllocError> {
    let reader = FirstBytesReader::new(rt.stdin(), kept);
    let mut lines = Lines::new(rt.alloc(), Device::new(reader))?;
    let mut writer = Device::new(Output::new(rt.stdout()));
    let mut watch = PlaceWatch::new(rt, wanted, STANDARD_INPUT, Some(kept));
    let result = answer(wanted, keys, &mut lines, &mut writer, &mut watch);
    watch.see_end();
    Ok((result, writer.into_inner(), watch.refusals()))
}

/// Runs what the command line asks for over standard input, and returns the exit status.
pub(crate) fn run_input(rt: &HostRuntime, wanted: &Wanted) -> Result<u8, Failure> {
    let keys = word_keys(rt)?;
    let kept = RefCell::new(FirstBytes::new(rt.alloc(), wanted.options.shows_places));
    let (result, output, refusals) = answer_input(rt, wanted, keys, &kept)?;
    let kept = kept.into_inner();
    match result {
        Ok(0) => {
            print_hint(rt, wanted, &kept);
            Ok(strict_status(wanted, refusals))
        }
        Ok(_) => Ok(FAILED),
        Err(fault) => {
            let (rows, is_closed) = (output.lines(), output.is_closed());
            Err(input_failure(rt.alloc(), wanted, kept.bytes(), fault, rows, is_closed))
        }
    }
}

/// Prints a hint if the input is not read to its end.
fn print_hint(rt: &HostRuntime, wanted: &Wanted, kept: &FirstBytes) {
    if kept.is_whole() {
        if let Some(line) = hint(wanted.verb, kept.bytes()) {
            print_line(rt, line);
        }
    }
}

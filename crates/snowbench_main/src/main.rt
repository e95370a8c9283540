//! The program `snowbench`: does what its command line asks for, on files and on standard input, output and error.
#![tactic(auto)]

mod at_work;
mod places;

use crate::at_work::start_work;
use sbl_messages::Failure;
use snowbench::{Verb, Wanted};
use snowbench_runs::{print_failure, read_command_line, run_verb};
use std::io;
use std::process::ExitCode;

fn main(rt: HostRuntime) -> io::Result<ExitCode> {
    Ok(ExitCode::from(start(&rt)))
}

/// Reads the command line, does what it asks for, and returns the exit status.
fn start(rt: &HostRuntime) -> u8 {
    let wanted = match read_command_line(rt) {
        Ok(wanted) => wanted,
        Err(status) => return status,
    };
    let verb = wanted.verb;
    match run(rt, wanted) {
        Ok(status) => status,
        Err(failure) => print_failure(rt, verb, failure),
    }
}

/// Does what the command line asks for, and returns the exit status.
fn run(rt: &HostRuntime, wanted: Wanted) -> Result<u8, Failure> {
    match wanted.verb {
        Verb::Work => start_work(rt, wanted),
        _ => run_verb(rt, &wanted),
    }
}

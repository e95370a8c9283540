//! The words of the command line: what they ask for, or why they are refused.

ghost use Rattle.std.specs.Prelude.{◌≤◌, IfErr};

use crate::failures::{NO_MEMORY, print_line};
use clap::error::ErrorKind;
use sbl_messages::{FAILED, REFUSED, plain};
use snowbench::{Wanted, read_words};
use std::io;

/// The line if a word of the command line is not UTF-8.
const NOT_UTF8: &str = "error: a word of the command line is not UTF-8";

/// Returns what the words of the command line ask for. If they are refused or ask for help, prints why, or the help, and returns the exit
/// status.
pub fn read_command_line(rt: &HostRuntime) -> Result<Wanted, u8>
    ensures least { IfErr result (λ status. 1 ≤ status) }
    ensures most { IfErr result (λ status. status ≤ 2) }
{
    let words = match words_of(rt) {
        Ok(words) => words,
        Err(error) => return Err(refuse_words(rt, &error)),
    };
    match read_words(rt.alloc(), &words) {
        Ok(wanted) => Ok(wanted),
        Err(error) => Err(refuse_line(rt, &error)),
    }
}

/// Returns the words of the command line. Returns `OutOfMemory` if an allocation fails, and `InvalidData` if a word is not UTF-8.
fn words_of(rt: &HostRuntime) -> io::Result<Vec<String>> {
    Ok(std::env::args(rt)?.collect(rt.alloc())?)
}

/// Prints why the words of the command line cannot be read, and returns the exit status.
fn refuse_words(rt: &HostRuntime, error: &io::Error) -> u8
    ensures least { 1 ≤ result }
    ensures most { result ≤ 2 }
{
    if error.kind() == io::ErrorKind::OutOfMemory {
        print_line(rt, NO_MEMORY);
        return FAILED;
    }
    print_line(rt, NOT_UTF8);
    REFUSED
}

/// Prints why the command line is refused, or its help, and returns the exit status.
fn refuse_line(rt: &HostRuntime, error: &clap::Error) -> u8
    ensures least { 1 ≤ result }
    ensures most { result ≤ 2 }
{
    match plain(format!(in rt.alloc(); "{error}")) {
        Ok(text) if error.kind() != ErrorKind::OutOfMemory => {
            let _ = eprint!(rt; "{text}");
            REFUSED
        }
        _ => {
            print_line(rt, NO_MEMORY);
            FAILED
        }
    }
}

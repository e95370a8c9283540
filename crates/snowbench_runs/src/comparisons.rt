//! `compare` over files.

use crate::failures::word_keys;
use crate::files::read_file;
use crate::progress_line::ProgressLine;
use sbl_batch::{CompareInput, compare_status, open_pair, write_comparison};
use sbl_io::write_all;
use sbl_messages::{
    Failure, FileNames, Output, REFUSED, RunFiles, compare_failure, refuse_twice, words_of_pair,
};
use snowbench::{Device, Face, LoadFault, Progress, Verb, Wanted};
use std::io::IsTerminal;

/// The line if `compare` names standard input twice.
const NAMED_TWICE_BY_COMPARE: &str =
    "snowbench: standard input can be only one of OLD, NEW and WORDS";

/// Reads the old script, the words and the new script of a comparison.
fn read_compared<'a>(rt: &HostRuntime, names: FileNames<'a>) -> Result<RunFiles<'a>, Failure> {
    let script = read_file(rt, names.script, "lines of the old script")?;
    let rest = read_file(rt, names.rest.unwrap_or("-"), "lines of the new script")?;
    let words = read_file(rt, names.words, "words")?;
    Ok(RunFiles {
        script,
        words,
        rest,
    })
}

/// Compares the scripts of two files over the words of a third, and returns the exit status.
pub(crate) fn run_compare(rt: &HostRuntime, wanted: &Wanted) -> Result<u8, Failure> {
    let options = &wanted.options;
    let (Some(old), Some(new), Some(words)) = (&options.old, &options.new, &options.words) else {
        return Ok(REFUSED);
    };
    let names = FileNames {
        script: old.as_str(),
        words: words.as_str(),
        rest: Some(new.as_str()),
    };
    refuse_twice(names, NAMED_TWICE_BY_COMPARE)?;
    let files = read_compared(rt, names)?;
    let input = CompareInput {
        external: wanted.external.as_str(),
        old: &files.script.bytes,
        new: &files.rest.bytes,
        words: &files.words.bytes,
    };
    if options.face == Some(Face::Rows) || !rt.stdout().is_terminal() {
        compare_in_rows(rt, &files, &input)
    } else {
        compare_in_words(rt, &files, &input)
    }
}

/// Writes the rows of a comparison, and returns the exit status.
fn compare_in_rows(
    rt: &HostRuntime,
    files: &RunFiles<'_>,
    input: &CompareInput<'_>,
) -> Result<u8, Failure> {
    let mut writer = Device::new(Output::new(rt.stdout()));
    let keys = word_keys(rt)?;
    let mut progress = ProgressLine::new(rt, Verb::Compare);
    let written = write_comparison(rt.alloc(), keys, input, &mut writer, &mut progress);
    progress.see_end();
    match written {
        Ok(changed) => Ok(compare_status(changed)),
        Err(fault) => {
            let is_closed = writer.into_inner().is_closed();
            Err(compare_failure(rt.alloc(), files, input, fault, is_closed))
        }
    }
}

/// Writes a comparison in words, and returns the exit status.
fn compare_in_words(
    rt: &HostRuntime,
    files: &RunFiles<'_>,
    input: &CompareInput<'_>,
) -> Result<u8, Failure> {
    let keys = word_keys(rt)?;
    let mut progress = ProgressLine::new(rt, Verb::Compare);
    let opened = open_pair(rt.alloc(), keys, input, &mut progress);
    progress.see_end();
    let pair = match opened {
        Ok(pair) => pair,
        Err(fault) => return Err(compare_failure(rt.alloc(), files, input, fault, false)),
    };
    let made = words_of_pair(rt.alloc(), files, &pair);
    pair.leak();
    let (text, changed) = made?;
    match write_all(&mut Device::new(rt.stdout()), text.as_bytes()) {
        Ok(()) => Ok(compare_status(changed)),
        Err(fault) => Err(Failure::Fault(LoadFault::Input(fault), None)),
    }
}

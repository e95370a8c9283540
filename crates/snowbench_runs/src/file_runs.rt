//! Runs over files.

use crate::failures::{print_line, word_keys};
use crate::files::{open_named, read_file, read_files};
use crate::progress_line::ProgressLine;
use crate::session_watch::PlaceWatch;
use crate::standard_input::run_input;
use sbl_messages::{
    FAILED, Failure, FileNames, NamedFile, Output, REFUSED, RunFiles, counts_text, file_name,
    files_failure, reads_twice, refuse_twice, same_count, strict_status,
};
use snowbench::{
    Device, FilesFault, Lines, Progress, Wanted, WordKeys, check_files, filter_file, run_files,
    stem_files,
};
use std::alloc::AllocError;
use std::io::{Read, Stdout};

/// The line if `check` names standard input twice.
const NAMED_TWICE_BY_CHECK: &str =
    "snowbench: standard input can be only one of SCRIPT, WORDS and STEMS";

/// The line if `check` has one file or two.
const THREE_FILES: &str =
    "snowbench: check takes three files, SCRIPT, WORDS and STEMS, or all from standard input";

/// Runs the commands of a file over a script and words in files, and returns the exit status. Without a file of commands writes the rows.
pub(crate) fn run_session(
    rt: &HostRuntime,
    wanted: &Wanted,
    names: FileNames<'_>,
) -> Result<u8, Failure> {
    let files = read_files(rt, names, "commands")?;
    let keys = word_keys(rt)?;
    let (result, output, refusals) = answer_files(rt, wanted, keys, names.rest.is_some(), &files)?;
    match result {
        Ok(()) => Ok(strict_status(wanted, refusals)),
        Err(fault) => Err(files_failure(rt.alloc(), wanted, &files, fault, output.is_closed())),
    }
}

/// How a run has ended: its result, what its output was, and how many replies refused something.
type Ended = (Result<(), FilesFault>, Output<Stdout>, u64);

/// Answers the commands over the bench of the files, or writes its rows.
fn answer_files<'x>(
    rt: &'x HostRuntime,
    wanted: &'x Wanted,
    keys: WordKeys,
    has_commands: bool,
    files: &'x RunFiles<'_>,
) -> Result<Ended, AllocError> {
    let input = files.input(wanted.external.as_str());
    let mut writer = Device::new(Output::new(rt.stdout()));
    let mut watch = PlaceWatch::new(rt, wanted, files.rest.name, None);
    let result = if has_commands {
        let mut commands = Lines::new(rt.alloc(), Device::new(files.rest.bytes.as_slice()))?;
        run_files(keys, &input, &mut commands, &mut writer, &mut watch)
    } else {
        stem_files(rt.alloc(), keys, &input, &mut writer, &mut watch)
    };
    watch.see_end();
    Ok((result, writer.into_inner(), watch.refusals()))
}

/// Compares the stems of the words of a file with those of another, and returns the exit status. Prints how many differ.
pub(crate) fn run_check(
    rt: &HostRuntime,
    wanted: &Wanted,
    names: FileNames<'_>,
) -> Result<u8, Failure> {
    if names.rest.is_none() {
        return Err(Failure::Fixed(THREE_FILES, REFUSED));
    }
    refuse_twice(names, NAMED_TWICE_BY_CHECK)?;
    let files = read_files(rt, names, "stems")?;
    let count = same_count(rt.alloc(), &files)?;
    let input = files.input(wanted.external.as_str());
    let mut writer = Device::new(Output::new(rt.stdout()));
    let mut progress = ProgressLine::new(rt, wanted.verb);
    let stems = &files.rest.bytes;
    let checked = check_files(rt.alloc(), &input, stems, &mut writer, &mut progress);
    progress.see_end();
    match checked {
        Ok(differences) => {
            let line = counts_text(rt.alloc(), count, differences)?;
            print_line(rt, line.as_str());
            Ok(if differences == 0 { 0 } else { FAILED })
        }
        Err(fault) => {
            let is_closed = writer.into_inner().is_closed();
            Err(files_failure(rt.alloc(), wanted, &files, fault, is_closed))
        }
    }
}

/// Writes the row of each word of a file, or of standard input, by the script of a file, as they come. Returns the exit status.
/// With the name `-` for both, the script is at the beginning of standard input, and a line `.` may end the words.
pub(crate) fn run_filter(
    rt: &HostRuntime,
    wanted: &Wanted,
    names: FileNames<'_>,
) -> Result<u8, Failure> {
    if reads_twice(names) {
        return run_input(rt, wanted);
    }
    let script = read_file(rt, names.script, "lines of the script")?;
    let name = file_name(names.words);
    if names.words == "-" {
        return filter_words(rt, wanted, script, name, rt.stdin());
    }
    let words = open_named(rt, names.words)?;
    filter_words(rt, wanted, script, name, words)
}

/// Writes the row of each word, by this script. `name` is what the words are called. Returns the exit status.
fn filter_words<R: Read + Drop>(
    rt: &HostRuntime,
    wanted: &Wanted,
    script: NamedFile<'_>,
    name: &str,
    words: R,
) -> Result<u8, Failure> {
    let mut lines = Lines::new(rt.alloc(), Device::new(words))?;
    let mut writer = Device::new(Output::new(rt.stdout()));
    let external = wanted.external.as_str();
    let Err(fault) = filter_file(external, &script.bytes, &mut lines, &mut writer) else {
        return Ok(0);
    };
    // What was read of the line with the fault. Without memory for it nothing is said of its encoding.
    let line = Vec::from_slice(rt.alloc(), lines.line()).unwrap_or(Vec::new(rt.alloc()));
    let words = NamedFile { name, bytes: line };
    let rest = NamedFile {
        name,
        bytes: Vec::new(rt.alloc()),
    };
    let files = RunFiles {
        script,
        words,
        rest,
    };
    let is_closed = writer.into_inner().is_closed();
    Err(files_failure(rt.alloc(), wanted, &files, fault, is_closed))
}

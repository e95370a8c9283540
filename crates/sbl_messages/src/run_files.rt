//! The files of a run: their names and bytes, and why a run over them fails.

ghost use Rattle.std.specs.Prelude.{◌≡◌, ◌&&◌, IfErr, IfSome, None, Option, String, codes, false, if◌then◌else◌, is_err};
ghost use Rattle.sbl_messages.specs.InputNames.{is_input, two_of};
ghost use Rattle.snowbench.specs.ScriptFiles.{cause_of};

use crate::failures::{FAILED, Failure, REFUSED};
use crate::fault_texts::files_fault_text;
use sbl_diagnostics::STANDARD_INPUT;
use snowbench::{FilesFault, FilesInput, LoadFault, Wanted};
use std::alloc::Global;
use std::io;
use std::io::ErrorKind;

/// The names of the files: `-` is standard input.
#[derive(Clone, Copy)]
pub struct FileNames<'a> {
    pub script: &'a str,
    pub words: &'a str,
    /// The commands of `run`, the stems of `check` or the new script of `compare`, if there is such a file.
    pub rest: Option<&'a str>,
}

/// A file, its name and its bytes.
#[derive(Drop)]
pub struct NamedFile<'a> {
    /// What people call the file.
    pub name: &'a str,
    pub bytes: Vec<u8>,
}

/// The files of a run.
#[derive(Drop)]
pub struct RunFiles<'a> {
    pub script: NamedFile<'a>,
    pub words: NamedFile<'a>,
    /// The third file. Empty if there is none.
    pub rest: NamedFile<'a>,
}

impl RunFiles<'_> {
    /// Returns what is run of the files.
    pub fn input<'x>(&'x self, external: &'x str) -> FilesInput<'x>
        ensures external { result.external.now ≡ external.now }
        ensures script { result.script.now ≡ self.now.script.bytes.items }
        ensures words { result.words.now ≡ self.now.words.bytes.items }
    {
        FilesInput {
            external,
            script: &self.script.bytes,
            words: &self.words.bytes,
        }
    }
}

/// Returns whether more than one of the files is standard input.
pub fn reads_twice(names: FileNames<'_>) -> bool
    ensures two { names.entry.rest ≡ None → result ≡ (is_input names.entry.script.now && is_input names.entry.words.now) }
    ensures three { IfSome names.entry.rest (λ rest. result ≡ two_of (is_input names.entry.script.now) (is_input names.entry.words.now) (is_input rest.now)) }
{
    let script = names.script == "-";
    let words = names.words == "-";
    match names.rest {
        Some(rest) => are_two(script, words, rest == "-"),
        None => script && words,
    }
}

/// Returns whether at least two of these hold.
fn are_two(first: bool, second: bool, third: bool) -> bool
    ensures { result ≡ two_of first second third }
{
    (first && second) || (first && third) || (second && third)
}

/// Returns the failure with this line, and status 2, if more than one of the files is standard input.
pub fn refuse_twice(names: FileNames<'_>, line: &'static str) -> Result<(), Failure>
    ensures two { names.entry.rest ≡ None → is_err result ≡ (is_input names.entry.script.now && is_input names.entry.words.now) }
    ensures three { IfSome names.entry.rest (λ rest. is_err result ≡ two_of (is_input names.entry.script.now) (is_input names.entry.words.now) (is_input rest.now)) }
    ensures line { IfErr result (λ f. f ≡ Failure.Fixed line.entry 2) }
{
    if reads_twice(names) {
        return Err(Failure::Fixed(line, REFUSED));
    }
    Ok(())
}

/// Returns the name of a file, as people call it.
pub fn file_name(path: &str) -> &str
    ensures { result.now ≡ (if is_input path.now then codes "standard input" else path.now) }
{
    if path == "-" { STANDARD_INPUT } else { path }
}

/// Returns the failure of a file that cannot be read: `OutOfMemory` if there was no memory for it.
pub fn unread_failure(alloc: Global, path: &str, kind: ErrorKind) -> Failure
    ensures { kind ≡ ErrorKind.OutOfMemory → result ≡ Failure.OutOfMemory }
{
    match kind {
        ErrorKind::OutOfMemory => Failure::OutOfMemory,
        _ => {
            let line = format!(in alloc; "snowbench: {path} is no file that can be read");
            Failure::of_line(line, REFUSED)
        }
    }
}

/// Returns the failure of standard input that cannot be read: `OutOfMemory` if there was no memory for it.
pub fn unread_input_failure(alloc: Global, error: &io::Error) -> Failure {
    match error.kind() {
        ErrorKind::OutOfMemory => Failure::OutOfMemory,
        _ => {
            let line = format!(in alloc; "snowbench: standard input cannot be read: {error}");
            Failure::of_line(line, FAILED)
        }
    }
}

/// Returns the failure of a run over files. `is_closed` is whether the reader of the output has closed it.
pub fn files_failure(
    alloc: Global,
    wanted: &Wanted,
    files: &RunFiles<'_>,
    fault: FilesFault,
    is_closed: bool,
) -> Failure
    ensures { is_closed ≡ false → (said : Option (String Global)) × (result ≡ Failure.Fault (cause_of fault) said) }
{
    let text = files_fault_text(alloc, wanted.external.as_str(), files, fault);
    Failure::of_fault(LoadFault::from(fault), is_closed, text)
}

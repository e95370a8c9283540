//! `run` and `check` over the bytes of files.
ghost use Rattle.std.specs.Prelude.{◌≡◌, None, IfErr};
ghost use Rattle.sbl_io.specs.Devices.{HasStopped, WritesInTime};
ghost use Rattle.sbl_io.specs.HeldInput.{KeepsTime, input_of, reads_bound};
ghost use Rattle.snowbench.specs.FileRuns.{ChecksFiles, HasFilesReasons, IsFilesSession, WritesFilesRows, overlong_fault};

use crate::script_files::{
    FileFault, FilesFault, FilesInput, open_files, overlong_line, parse_file,
};
use sbl_batch::{CheckedLists, check_observed};
use sbl_bench::{Progress, WordKeys};
use sbl_input::LoadFault;
use sbl_io::{Lines, ServeFault, Sink, Source, write_all};
use sbl_reports::rows_text;
use sbl_sessions::{Watch, serve_watched};
use std::alloc::Global;

/// Runs a session over files: opens the bench of the script over the words, and answers the commands, as `serve_watched` does. The script
/// is the lines of its file, each followed by a line feed. The words are the lines of theirs; no line ends them. The keys are those of the
/// hash by which words are found. `watch` sees how many words were run, each reply, and each edit that is refused.
///
/// # Errors
///
/// Returns the fault of the script, or else that of the words; then no command is read and nothing is written. After that returns the
/// faults of `serve`.
pub fn run_files<R: Source + Drop, W: Sink, S: Watch + Progress>(
    keys: WordKeys,
    input: &FilesInput<'_>,
    commands: &mut Lines<R>,
    writer: &mut W,
    watch: &mut S,
) -> Result<(), FilesFault>
    ensures session { commands.old.fault ≡ None → IsFilesSession input.now (input_of R.left commands.old) (input_of R.left commands.new) (W.held writer.old) (W.held writer.new) result }
    ensures why { commands.old.fault ≡ None → IfErr result (λ fault. HasFilesReasons R.tally W.tally commands.old commands.new writer.old writer.new fault) }
    ensures bound { reads_bound R.tally commands.new ≡ reads_bound R.tally commands.old }
    ensures reads_in_time { KeepsTime R.tally commands.old commands.new }
    ensures writes_in_time { WritesInTime W.tally writer.old writer.new }
{
    let mut bench = match open_files(commands.alloc(), keys, input, watch) {
        Ok(bench) => bench,
        Err(fault) => return Err(fault),
    };
    watch.begin(&bench);
    let served = serve_watched(&mut bench, commands, writer, watch);
    bench.leak();
    match served {
        Ok(()) => Ok(()),
        Err(fault) => Err(FilesFault::Run(fault)),
    }
}

/// Writes the rows of the words of a file, by the script of a file: what the command `stems` replies in `run_files`. `progress` sees how
/// many words were run.
///
/// # Errors
///
/// Returns the fault of the script, or else that of the words; then nothing is written. Returns `Run` with `OutOfMemory` if there is no
/// memory for the rows, and with `Write` if the writer fails or is interrupted more than 1,000 times in a row; then a prefix of the rows is
/// written.
pub fn stem_files<W: Sink, P: Progress>(
    alloc: Global,
    keys: WordKeys,
    input: &FilesInput<'_>,
    writer: &mut W,
    progress: &mut P,
) -> Result<(), FilesFault>
    ensures rows { WritesFilesRows input.now (W.held writer.old) (W.held writer.new) result }
    ensures why { IfErr result (λ fault. fault ≡ FilesFault.Run ServeFault.Write → HasStopped W.tally writer.old writer.new) }
    ensures writes_in_time { WritesInTime W.tally writer.old writer.new }
{
    let bench = match open_files(alloc, keys, input, progress) {
        Ok(bench) => bench,
        Err(fault) => return Err(fault),
    };
    let made = rows_text(alloc, &bench);
    bench.leak();
    let Ok(text) = made else {
        return Err(FilesFault::Run(ServeFault::OutOfMemory));
    };
    match write_all(writer, &text) {
        Ok(()) => Ok(()),
        Err(fault) => Err(FilesFault::Run(fault)),
    }
}

/// Compares the stems of the words of a file with the expected stems of another, as `check` of sbl_batch does, and returns the number of
/// differences. `progress` sees how many lines were compared.
///
/// # Errors
///
/// Returns the fault of the script; or else `LineTooLong`, as that of the words or else as that of the stems, if they have a line of more
/// than 65,536 bytes. Nothing is written then. After that returns the faults of `check` as `Run`.
pub fn check_files<W: Sink, P: Progress>(
    alloc: Global,
    input: &FilesInput<'_>,
    stems: &[u8],
    writer: &mut W,
    progress: &mut P,
) -> Result<u64, FilesFault>
    ensures checked { ChecksFiles input.now stems.now (W.held writer.old) (W.held writer.new) result }
    ensures why { IfErr result (λ fault. fault ≡ FilesFault.Run ServeFault.Write → HasStopped W.tally writer.old writer.new) }
    ensures writes_in_time { WritesInTime W.tally writer.old writer.new }
{
    let script = match parse_file(alloc, input.script, input.external) {
        Ok(script) => script,
        Err(fault) => return Err(FilesFault::Script(fault)),
    };
    if let Some(fault) = too_long(input.words) {
        script.discard();
        return Err(FilesFault::Words(fault));
    }
    if let Some(fault) = too_long(stems) {
        script.discard();
        return Err(FilesFault::Stems(fault));
    }
    let lists = CheckedLists {
        words: input.words,
        expected: stems,
    };
    let checked = check_observed(alloc, &script, lists, writer, progress);
    script.discard();
    match checked {
        Ok(differences) => Ok(differences),
        Err(fault) => Err(FilesFault::Run(fault)),
    }
}

/// Returns the fault of the first line that is too long.
fn too_long(bytes: &[u8]) -> Option<FileFault>
    ensures { result ≡ overlong_fault bytes.now }
{
    match overlong_line(bytes) {
        Some(line) => Some(FileFault {
            line: Some(line),
            fault: LoadFault::Input(ServeFault::LineTooLong),
        }),
        None => None,
    }
}

//! The program over the lines of a reader and two writers.
ghost use Rattle.std.specs.Prelude.{◌≡◌, ◌≤◌, ◌++◌, ◌∷◌, [], ℕ, List, Result, Err, None, IfOk, IfErr, OnOk, string_bytes as bytes};
ghost use Rattle.std.specs.Fmt.InlineText.{inline_text};
ghost use Rattle.sbl_io.specs.Devices.{WritesInTime};
ghost use Rattle.sbl_io.specs.Faults.{left_by};
ghost use Rattle.sbl_io.specs.HeldInput.{KeepsTime, HasReason, input_of as input, reads_bound};
ghost use Rattle.sbl_script.specs.ParsedScript.{source_of};
ghost use Rattle.sbl_input.specs.declared.faults.LoadFault.{LoadFault};
ghost use Rattle.snowbench.specs.Answering.{Answering};
ghost use Rattle.snowbench.specs.Program.{HasReasons, IsAnswer, IsReported, Runs, RunsOver, fault_line};
ghost use Rattle.snowbench.specs.StemmedRows.{IsStemmed};
ghost use Rattle.snowbench.specs.WholeCheck.{ChecksLists, IsWholeCheck, ReadsExpected, ReadsWords};
ghost use Rattle.snowbench.specs.WholeSession.{IsWholeSession};

use sbl_batch::{CheckedLists, check_observed, filter};
use sbl_bench::{Progress, WordKeys};
use sbl_command_line::{Verb, Wanted};
use sbl_input::{LoadFault, load_observed, load_rows, read_script};
use sbl_io::{Lines, ServeFault, Sink, Source, write_all};
use sbl_script::Script;
use sbl_sessions::{NoWatch, Watch, serve_watched};
use std::alloc::{AllocError, Global};
use std::fmt::InlineText;

/// The beginning of the line of a fault.
const NAME: &str = "snowbench: ";

/// The line of the fault if there is no memory for the buffers of the lines.
const NO_MEMORY: &str = "snowbench: 49 OutOfMemory\n";

/// The greatest length of the text of a fault in bytes; the longest text is shorter.
const MAX_FAULT_TEXT: usize = 80;

/// The room for the line of a fault in bytes; the longest line is shorter.
const MAX_FAULT_LINE: usize = 96;

/// Runs the whole program: does what is wanted with the lines of `reader`, writes to `writer`, and returns the exit status: 0, or 1
/// after a fault or a difference. A fault is one line in `errors`: `snowbench: ` and the text of the fault. What was written
/// before the fault stays in `writer`. If there is no memory for the buffers of the lines, the fault is `49 OutOfMemory`, and nothing is
/// read.
///
/// The hash by which words are found has keys that are no secret, as in `Bench::open`. If the input comes from others, call
/// `run_with`.
///
/// `session` loads a bench and answers the commands after it. `stem` writes the row of each word of a vocabulary. `filter`
/// writes the row of each word, before it asks for more input.
/// `check` reads a script block, a block of words and the expected stems up to the end of input, all before it runs
/// anything, and then writes a row for each difference. `compare` and `work` read files, and have entries of their own: here they read
/// and write nothing.
pub fn run<R: Source + Drop, W: Sink, E: Sink>(
    alloc: Global,
    wanted: &Wanted,
    reader: R,
    writer: &mut W,
    errors: &mut E,
) -> u8
    ensures runs { RunsOver R.left R.tally W.held W.tally E.held E.tally wanted.now reader writer.old writer.new errors.old errors.new result }
    ensures status { result ≤ 1 }
    ensures writes_in_time { WritesInTime W.tally writer.old writer.new }
    ensures errors_in_time { WritesInTime E.tally errors.old errors.new }
{
    match Lines::new(alloc, reader) {
        Ok(mut lines) => run_with(
            wanted,
            WordKeys::constant(),
            &mut lines,
            writer,
            errors,
            &mut NoWatch {},
        ),
        Err(_) => {
            // The status reports the fault even if its line cannot be written.
            let _ = write_all(errors, NO_MEMORY.as_bytes());
            1
        }
    }
}

/// Does what `run` does, over lines and with keys: does what is wanted, reads `lines`, writes to `writer`, and returns the exit status.
/// The keys are those of the hash by which words are found, as in `Bench::open_with_keys`. `watch` sees each reply of a session and each
/// edit that it refuses, as by `serve_watched`, and for `session` and `check` how many words were run.
pub fn run_with<R: Source + Drop, W: Sink, E: Sink, S: Watch + Progress>(
    wanted: &Wanted,
    keys: WordKeys,
    lines: &mut Lines<R>,
    writer: &mut W,
    errors: &mut E,
    watch: &mut S,
) -> u8
    ensures runs { lines.old.fault ≡ None → Runs R.left R.tally W.held W.tally E.held E.tally wanted.now lines.old lines.new writer.old writer.new errors.old errors.new result }
    ensures status { result ≤ 1 }
    ensures bound { reads_bound R.tally lines.new ≡ reads_bound R.tally lines.old }
    ensures reads_in_time { KeepsTime R.tally lines.old lines.new }
    ensures writes_in_time { WritesInTime W.tally writer.old writer.new }
    ensures errors_in_time { WritesInTime E.tally errors.old errors.new }
{
    match answer(wanted, keys, lines, writer, watch) {
        Ok(0) => 0,
        Ok(_) => 1,
        Err(fault) => {
            push_fault(errors, fault);
            1
        }
    }
}

/// Writes the line of a fault. The status reports the fault even if its line cannot be written.
fn push_fault<E: Sink>(errors: &mut E, fault: LoadFault)
    ensures reported { (answer : Result ℕ LoadFault) → answer ≡ Err fault → IsReported E.held E.tally errors.old errors.new 1 answer }
    ensures in_time { WritesInTime E.tally errors.old errors.new }
{
    let line = line_of_fault(fault);
    let _ = write_all(errors, line.as_str().as_bytes());
}

/// Returns the line of a fault: `snowbench: `, the text of the fault, and a line feed.
fn line_of_fault(fault: LoadFault) -> InlineText<MAX_FAULT_LINE>
    ensures { (text : List ℕ) × (inline_text result ≡ fault_line text) }
{
    let text = InlineText::<MAX_FAULT_TEXT>::of(fault);
    InlineText::new()
        .and_str(NAME, NAME.len())
        .and_str(text.as_str(), MAX_FAULT_TEXT)
        .and_str("\n", 1)
}

/// Does what the command line asks for with the input of `lines`, and returns the number of differences; only `check` has some. `run` says
/// what each subcommand reads and writes, and `run_with` what `watch` sees. What was written before a fault stays in `writer`.
pub fn answer<R: Source + Drop, W: Sink, S: Watch + Progress>(
    wanted: &Wanted,
    keys: WordKeys,
    lines: &mut Lines<R>,
    writer: &mut W,
    watch: &mut S,
) -> Result<u64, LoadFault>
    ensures answers { lines.old.fault ≡ None → IsAnswer wanted.now.verb (bytes wanted.now.external) (input R.left lines.old) (input R.left lines.new) (W.held writer.old) (W.held writer.new) result }
    ensures answering { Answering R.tally W.tally lines.old lines.new writer.old writer.new result }
    ensures bound { reads_bound R.tally lines.new ≡ reads_bound R.tally lines.old }
{
    let external = wanted.external.as_str();
    match wanted.verb {
        Verb::Session => {
            session(lines, keys, external, writer, watch)?;
            Ok(0)
        }
        Verb::Stem => {
            stem(lines, external, keys, writer)?;
            Ok(0)
        }
        Verb::Filter => {
            filter(lines, external, writer)?;
            Ok(0)
        }
        Verb::Check => check_input(lines, external, writer, watch),
        // `compare` and `work` read files, and have entries of their own.
        Verb::Compare | Verb::Work => Ok(0),
    }
}

/// Loads a bench and answers the commands after it.
fn session<R: Source + Drop, W: Sink, S: Watch + Progress>(
    lines: &mut Lines<R>,
    keys: WordKeys,
    external: &str,
    writer: &mut W,
    watch: &mut S,
) -> Result<(), LoadFault>
    ensures session { lines.old.fault ≡ None → IsWholeSession (input R.left lines.old) (input R.left lines.new) external.now (W.held writer.old) (W.held writer.new) result }
    ensures answering { Answering R.tally W.tally lines.old lines.new writer.old writer.new result }
    ensures bound { reads_bound R.tally lines.new ≡ reads_bound R.tally lines.old }
{
    let mut bench = load_observed(lines, keys, external, watch)?;
    watch.begin(&bench);
    let served = serve_watched(&mut bench, lines, writer, watch);
    bench.leak();
    served?;
    Ok(())
}

/// Writes the rows of an input. The input after the vocabulary is not read.
fn stem<R: Source + Drop, W: Sink>(
    lines: &mut Lines<R>,
    external: &str,
    keys: WordKeys,
    writer: &mut W,
) -> Result<(), LoadFault>
    ensures stemmed { lines.old.fault ≡ None → IsStemmed (input R.left lines.old) (input R.left lines.new) external.now (W.held writer.old) (W.held writer.new) result }
    ensures answering { Answering R.tally W.tally lines.old lines.new writer.old writer.new result }
    ensures bound { reads_bound R.tally lines.new ≡ reads_bound R.tally lines.old }
{
    let text = load_rows(lines, keys, external)?;
    write_all(writer, &text)?;
    Ok(())
}

/// Reads a script block, a block of words and the expected stems, runs the script on the words and compares the results
/// with the expected stems. Returns the number of differences.
fn check_input<R: Source + Drop, W: Sink, P: Progress>(
    lines: &mut Lines<R>,
    external: &str,
    writer: &mut W,
    progress: &mut P,
) -> Result<u64, LoadFault>
    ensures checked { lines.old.fault ≡ None → IsWholeCheck (input R.left lines.old) (input R.left lines.new) external.now (W.held writer.old) (W.held writer.new) result }
    ensures answering { Answering R.tally W.tally lines.old lines.new writer.old writer.new result }
    ensures bound { reads_bound R.tally lines.new ≡ reads_bound R.tally lines.old }
{
    let text = read_script(lines)?;
    let script = Script::parse(lines.alloc(), &text, external)?;
    let differences = check_lists(lines, &script, writer, progress);
    script.discard();
    Ok(differences?)
}

/// Reads a block of words and the expected stems, runs the script on the words and compares the results with the
/// expected stems. Returns the number of differences.
fn check_lists<R: Source + Drop, W: Sink, P: Progress>(
    lines: &mut Lines<R>,
    script: &Script,
    writer: &mut W,
    progress: &mut P,
) -> Result<u64, ServeFault>
    ensures checked { lines.old.fault ≡ None → ChecksLists (source_of script.now) (input R.left lines.old) (input R.left lines.new) (W.held writer.old) (W.held writer.new) result }
    ensures why { lines.old.fault ≡ None → IfErr result (λ fault. HasReasons R.tally W.tally lines.old lines.new writer.old writer.new (LoadFault.Input fault)) }
    ensures bound { reads_bound R.tally lines.new ≡ reads_bound R.tally lines.old }
    ensures reads_in_time { KeepsTime R.tally lines.old lines.new }
    ensures writes_in_time { WritesInTime W.tally writer.old writer.new }
{
    let words = read_word_block(lines)?;
    let expected = read_expected(lines)?;
    let lists = CheckedLists {
        words: &words,
        expected: &expected,
    };
    check_observed(lines.alloc(), script, lists, writer, progress)
}

/// Reads the lines up to a line `.` and returns them, each as `push_line` appends it. Returns `Cut` if the input ends
/// before.
fn read_word_block<R: Source + Drop>(lines: &mut Lines<R>) -> Result<Vec<u8>, ServeFault>
    ensures reads { lines.old.fault ≡ None → ReadsWords (input R.left lines.old) (input R.left lines.new) result }
    ensures remembered { lines.new.fault ≡ left_by result }
    ensures steady { OnOk result ((R.tally lines.new.reader).failures ≡ (R.tally lines.old.reader).failures) }
    ensures bound { reads_bound R.tally lines.new ≡ reads_bound R.tally lines.old }
    ensures why { IfErr result (λ fault. HasReason R.tally lines.old lines.new fault) }
    ensures in_time { KeepsTime R.tally lines.old lines.new }
{
    let mut text = Vec::new(lines.alloc());
    while lines.next_line()? {
        if lines.line() == b".".as_slice() {
            return Ok(text);
        }
        push_line(&mut text, lines.line())?;
    }
    Err(ServeFault::Cut)
}

/// Reads the lines up to the end of input and returns them, each as `push_line` appends it.
fn read_expected<R: Source + Drop>(lines: &mut Lines<R>) -> Result<Vec<u8>, ServeFault>
    ensures reads { lines.old.fault ≡ None → ReadsExpected (input R.left lines.old) (input R.left lines.new) result }
    ensures why { IfErr result (λ fault. HasReason R.tally lines.old lines.new fault) }
    ensures bound { reads_bound R.tally lines.new ≡ reads_bound R.tally lines.old }
    ensures in_time { KeepsTime R.tally lines.old lines.new }
{
    let mut stems = Vec::new(lines.alloc());
    while lines.next_line()? {
        push_line(&mut stems, lines.line())?;
    }
    Ok(stems)
}

/// Appends a line, a carriage return and a line feed. If the line itself ends with a carriage return, that one is kept
/// when the text is split into lines again.
fn push_line(text: &mut Vec<u8>, line: &[u8]) -> Result<(), AllocError>
    ensures { OnOk result (text.new.items ≡ text.old.items ++ (line.now ++ 13 ∷ 10 ∷ [])) }
{
    text.extend_from_slice(line)?;
    text.extend_from_slice(b"\r\n")?;
    Ok(())
}

//! The bytes of the files of a run: a script, and words.
ghost use Rattle.std.specs.Prelude.{◌≡◌, ◌&&◌, ◌++◌, ◌∷◌, [], None, IfOk, IfErr, OnOk, length, map, nat_lt};
ghost use Rattle.std.specs.Str.{chars, is_utf8};
ghost use Rattle.sbl_bench.specs.KeptRuns.{contents_of};
ghost use Rattle.sbl_io.specs.LinesOf.{lines_of};
ghost use Rattle.sbl_script.specs.ParsedScript.{source_of};
ghost use Rattle.sbl_semantics.specs.Limit.{max_word_length};
ghost use Rattle.snowbench.specs.ScriptFiles as spec;
ghost use Rattle.snowbench.specs.inside.LineMeasures.{is_over};

use sbl_bench::{Bench, EditFault, MAX_WORD_LENGTH, Progress, WordKeys};
use sbl_input::{LoadFault, text_line};
use sbl_io::{MAX_LINE, ServeFault, first_line};
use sbl_reports::text_of_lines;
use sbl_script::Script;
use std::alloc::{AllocError, Global};

/// What is run: the bytes of the files of a script and of words, and the external.
#[derive(Clone, Copy, Debug)]
pub struct FilesInput<'a> {
    /// The name of the external.
    pub external: &'a str,
    /// The bytes of the script.
    pub script: &'a [u8],
    /// The bytes of the words, one a line.
    pub words: &'a [u8],
}

/// The fault of a file, and the line that has it.
#[derive(Clone, Copy, Debug, PartialEq, Eq, Drop)]
pub struct FileFault {
    /// The number of the line, from 1. `None` if no single line has the fault, and for a fault of the script that has a place of its own.
    pub line: Option<u64>,
    /// The fault.
    pub fault: LoadFault,
}

/// Why a run over files ends, by what has the fault.
#[derive(Clone, Copy, Debug, PartialEq, Eq, Drop)]
pub enum FilesFault {
    /// The script.
    Script(FileFault),
    /// The words.
    Words(FileFault),
    /// The expected stems: a line that is too long.
    Stems(FileFault),
    /// The run itself: the commands, the lists that are compared, or what is written.
    Run(ServeFault),
}

impl From<FilesFault> for LoadFault {
    ghost from_gives = { λ fault cause. cause ≡ spec.cause_of fault };

    /// Returns the fault without what has it.
    fn from(fault: FilesFault) -> LoadFault {
        match fault {
            FilesFault::Script(placed) | FilesFault::Words(placed) | FilesFault::Stems(placed) => {
                placed.fault
            }
            FilesFault::Run(fault) => LoadFault::Input(fault),
        }
    }
}

/// What a line may have too many of.
#[derive(Clone, Copy)]
enum Measure {
    Bytes,
    Characters,
}

/// Returns whether a line is UTF-8, with more characters than a word may have.
fn is_long(line: &[u8]) -> bool
    ensures { result ≡ spec.is_long line.now }
{
    match str::from_utf8(line) {
        Ok(text) => text.chars().count() > MAX_WORD_LENGTH,
        Err(_) => false,
    }
}

/// Returns whether a line has more bytes than a line may have, or, as UTF-8, more characters than a word may have.
fn is_over(measure: Measure, line: &[u8]) -> bool
    ensures { result ≡ is_over measure line.now }
{
    match measure {
        Measure::Bytes => line.len() > MAX_LINE,
        Measure::Characters => is_long(line),
    }
}

/// Returns the number of the first line, from 1, that has too many of these.
fn first_over(measure: Measure, bytes: &[u8]) -> Option<u64>
    ensures { result ≡ spec.first_after (is_over measure) 0 (lines_of bytes.now) }
{
    let mut rest = bytes;
    let mut number: u64 = 0;
    while let Some((line, after)) = first_line(rest) {
        number += 1;
        if is_over(measure, line) {
            return Some(number);
        }
        rest = after;
    }
    None
}

/// Returns the number of the first line, from 1, that has more bytes than a line may have.
pub fn overlong_line(bytes: &[u8]) -> Option<u64>
    ensures { result ≡ spec.overlong_line bytes.now }
{
    first_over(Measure::Bytes, bytes)
}

/// Returns the number of the first line, from 1, that is UTF-8 and has more characters than a word may have.
pub fn long_line(bytes: &[u8]) -> Option<u64>
    ensures { result ≡ spec.long_line bytes.now }
{
    first_over(Measure::Characters, bytes)
}

/// Returns the text of a script in a file: each line, followed by a line feed.
pub fn script_text(alloc: Global, bytes: &[u8]) -> Result<Vec<u8>, AllocError>
    ensures { IfOk result (λ text. text.items ≡ spec.script_text bytes.now) }
{
    text_of_lines(alloc, bytes)
}

/// Returns the script of a file, or why there is none.
pub(crate) fn parse_file(alloc: Global, bytes: &[u8], external: &str) -> Result<Script, FileFault>
    ensures { spec.ParsesFile bytes.now external.now result }
{
    if let Some(line) = overlong_line(bytes) {
        return Err(FileFault {
            line: Some(line),
            fault: LoadFault::Input(ServeFault::LineTooLong),
        });
    }
    let Ok(text) = script_text(alloc, bytes) else {
        return Err(FileFault {
            line: None,
            fault: LoadFault::Input(ServeFault::OutOfMemory),
        });
    };
    match Script::parse(alloc, &text, external) {
        Ok(script) => Ok(script),
        Err(fault) => Err(FileFault {
            line: None,
            fault: LoadFault::Script(fault),
        }),
    }
}

/// Returns the characters of a text. Returns `AllocError` if an allocation fails.
fn characters_of(alloc: Global, text: &str) -> Result<Vec<char>, AllocError>
    ensures { IfOk result (λ word. word.items ≡ chars text.now) }
{
    let mut word = Vec::with_capacity(alloc, text.chars().count())?;
    word.extend(text.chars())?;
    Ok(word)
}

/// Appends the word of a line. Returns `OutOfMemory` if an allocation fails.
fn push_word(words: &mut Vec<Vec<char>>, text: &str) -> Result<(), AllocError>
    ensures { OnOk result (map (λ w. w.items) words.new.items ≡ map (λ w. w.items) words.old.items ++ chars text.now ∷ []) }
{
    let word = characters_of(*words.allocator(), text)?;
    words.push(word)?;
    Ok(())
}

/// Returns the words of a file, one from each line, in order; or the fault of the first line that is no text, with its number.
fn words_of(alloc: Global, bytes: &[u8]) -> Result<Vec<Vec<char>>, FileFault>
    ensures words { IfOk result (λ words. map (λ w. w.items) words.items ≡ spec.line_words bytes.now) }
    ensures no_fault { OnOk result (spec.text_fault bytes.now ≡ None) }
    ensures fault { IfErr result (λ f. spec.LacksText bytes.now f) }
{
    let mut words = Vec::new(alloc);
    let mut rest = bytes;
    let mut number: u64 = 0;
    while let Some((line, after)) = first_line(rest) {
        number += 1;
        let text = match text_line(line) {
            Ok(text) => text,
            Err(fault) => return Err(FileFault {
                line: Some(number),
                fault: LoadFault::Input(fault),
            }),
        };
        if push_word(&mut words, text).is_err() {
            return Err(FileFault {
                line: None,
                fault: LoadFault::Input(ServeFault::OutOfMemory),
            });
        }
        rest = after;
    }
    Ok(words)
}

/// Returns the fault of words with which no bench opens, with the line of the first word that is too long.
fn place_of(words: &[u8], fault: EditFault) -> FileFault
    ensures { result ≡ spec.opening_place words.now fault }
{
    let line = match fault {
        EditFault::WordTooLong => long_line(words),
        _ => None,
    };
    FileFault {
        line,
        fault: LoadFault::Open(fault),
    }
}

/// Opens the bench of the files: of the script over the words, with the limit of 100,000 steps.
pub(crate) fn open_files<P: Progress>(
    alloc: Global,
    keys: WordKeys,
    input: &FilesInput<'_>,
    progress: &mut P,
) -> Result<Bench, FilesFault>
    ensures { spec.OpensFiles input.now result }
{
    let script = match parse_file(alloc, input.script, input.external) {
        Ok(script) => script,
        Err(fault) => return Err(FilesFault::Script(fault)),
    };
    let words = match words_of(alloc, input.words) {
        Ok(words) => words,
        Err(fault) => {
            script.discard();
            return Err(FilesFault::Words(fault));
        }
    };
    match Bench::open_observed(alloc, keys, script, words, progress) {
        Ok(bench) => Ok(bench),
        Err(fault) => Err(FilesFault::Words(place_of(input.words, fault))),
    }
}

//! The files of work: the script and the words, and files that the script is saved in.
ghost use Rattle.std.specs.Prelude.{IfOk, string_bytes};
ghost use Rattle.sbl_bench.specs.KeptRuns.{contents_of};
ghost use Rattle.sbl_work.specs.WholeWork.{IsOpened};

use crate::appending::{Added, lines_to_append};
use crate::folder::Folder;
use sbl_bench::{Bench, WordKeys};
use sbl_history::{has_crlf, push_crlf};
use sbl_input::{LoadFault, words_in};
use sbl_reports::stem_lines;
use sbl_saving::{Former, ReadFault, SaveFault, is_same_file, read_file, save_file};
use sbl_script::{Script, ScriptFault};
use std::alloc::{AllocError, Global};
use std::hash::RandomState;
use std::rt::Files;
use std::{fs, io};

/// The files of work, and the external that is run.
#[derive(Debug, Drop)]
pub struct Paths {
    /// The file of the script.
    pub script: String,
    /// The file of the words, if there is one.
    pub words: Option<String>,
    /// The external that is run.
    pub external: String,
    /// The file of the text that work begins with, if it is not that of the script.
    pub from: Option<String>,
    /// The file whose existence breaks an edit off, if there is one.
    pub stop: Option<String>,
}

/// The bytes that work begins with.
#[derive(Drop)]
pub(crate) struct Texts {
    /// The text of the current script.
    pub(crate) text: Vec<u8>,
    /// What was read from the file of the script.
    pub(crate) seen: Vec<u8>,
}

/// Why there is no desk.
#[derive(Debug, Drop)]
pub(crate) enum OpenFault {
    /// The file of this name cannot be read.
    File(String, io::Error),
    /// The script is refused for this text.
    Script(ScriptFault, Vec<u8>),
    /// The words are refused, or the input has a fault.
    Load(LoadFault),
}

impl From<LoadFault> for OpenFault {
    fn from(fault: LoadFault) -> OpenFault {
        OpenFault::Load(fault)
    }
}

impl From<AllocError> for OpenFault {
    fn from(fault: AllocError) -> OpenFault {
        OpenFault::Load(fault.into())
    }
}

/// Returns the bytes of a file. Returns the name of the file and why it cannot be read.
fn read_named<F: Files + AllocGlobal>(files: &F, path: &str) -> Result<Vec<u8>, OpenFault> {
    match fs::read(files, path) {
        Ok(bytes) => Ok(bytes),
        Err(error) => Err(OpenFault::File(String::from_str(files.alloc(), path)?, error)),
    }
}

/// Returns the text that work begins with, and what the file of the script has.
fn read_texts<F: Files + AllocGlobal>(files: &F, paths: &Paths) -> Result<Texts, OpenFault> {
    let seen = read_named(files, paths.script.as_str())?;
    let text = match &paths.from {
        Some(path) => read_named(files, path.as_str())?,
        None => Vec::from_slice(files.alloc(), &seen)?,
    };
    Ok(Texts { text, seen })
}

/// Returns the words of the file of words; none if there is no such file.
fn read_words<F: Files + AllocGlobal>(
    files: &F,
    paths: &Paths,
) -> Result<Vec<Vec<char>>, OpenFault> {
    let Some(path) = &paths.words else {
        return Ok(Vec::new(files.alloc()));
    };
    let bytes = read_named(files, path.as_str())?;
    Ok(words_in(files.alloc(), &bytes)?)
}

/// Returns the bench of a script and words.
fn bench_of(
    alloc: Global,
    keys: RandomState,
    text: &[u8],
    external: &str,
    words: Vec<Vec<char>>,
) -> Result<Bench, LoadFault>
    ensures { IfOk result (λ bench. IsOpened external.now text.now (contents_of bench)) }
{
    let script = match Script::parse(alloc, text, external) {
        Ok(script) => script,
        Err(fault) => return Err(LoadFault::Script(fault)),
    };
    match Bench::open_with_keys(alloc, WordKeys::new(keys), script, words) {
        Ok(bench) => Ok(bench),
        Err(fault) => Err(LoadFault::Open(fault)),
    }
}

/// Reads the files and opens the bench. Returns it with the bytes that work begins with.
pub(crate) fn open<F: Files + AllocGlobal>(
    files: &F,
    keys: RandomState,
    paths: &Paths,
) -> Result<(Bench, Texts), OpenFault>
    ensures { IfOk result (λ opened. IsOpened (string_bytes paths.now.external) opened.1.text.items (contents_of opened.0)) }
{
    let texts = read_texts(files, paths)?;
    let words = read_words(files, paths)?;
    let external = paths.external.as_str();
    match bench_of(files.alloc(), keys, &texts.text, external, words) {
        Ok(bench) => Ok((bench, texts)),
        Err(LoadFault::Script(fault)) => Err(OpenFault::Script(fault, texts.text)),
        Err(fault) => Err(OpenFault::Load(fault)),
    }
}

/// Returns a text whose lines end in a carriage return and a line feed if each line of the old text does.
fn with_ends_of(alloc: Global, old: &[u8], text: Vec<u8>) -> Result<Vec<u8>, AllocError> {
    if !has_crlf(old) || has_crlf(&text) {
        return Ok(text);
    }
    let mut ended = Vec::new(alloc);
    push_crlf(&mut ended, &text)?;
    Ok(ended)
}

/// Returns whether a path names the file of words.
fn is_words<F: Files>(files: &F, paths: &Paths, path: &str) -> bool {
    match &paths.words {
        Some(words) => is_same_file(files, path, words.as_str()),
        None => false,
    }
}

/// Writes the text of the current script to a file. The file of the script, by whatever name, is written only if it still has the
/// bytes that were read from it last.
///
/// # Errors
///
/// Returns the faults of `save_file`, and `NotWritten` also for the file of words.
pub(crate) fn save<F: Files + AllocGlobal>(
    files: &F,
    paths: &Paths,
    seen: &mut Vec<u8>,
    path: &str,
    text: Vec<u8>,
) -> Result<(), SaveFault> {
    if is_words(files, paths, path) {
        return Err(SaveFault::NotWritten);
    }
    if !is_same_file(files, path, paths.script.as_str()) {
        return save_file(files, path, &text, Former::Any);
    }
    let text = with_ends_of(files.alloc(), seen.as_slice(), text)?;
    let saved = save_file(files, path, &text, Former::Bytes(seen.as_slice()));
    if saved.is_ok() || saved == Err(SaveFault::NotSettled) {
        *seen = text;
    }
    saved
}

/// Writes the stems of the words to a file, one a line, in vocabulary order. Writes nothing if a run is refused, or a stem is not one
/// line.
///
/// # Errors
///
/// Returns the faults of `save_file`, and `NotWritten` also for the files of the script and of the words.
pub(crate) fn approve<F: Files + AllocGlobal>(
    files: &F,
    paths: &Paths,
    bench: &Bench,
    path: &str,
) -> Result<(), SaveFault> {
    let Some(text) = stem_lines(files.alloc(), bench)? else {
        return Ok(());
    };
    if is_words(files, paths, path) || is_same_file(files, path, paths.script.as_str()) {
        return Err(SaveFault::NotWritten);
    }
    save_file(files, path, &text, Former::Any)
}

/// Returns whether `append` may put words into a file that is there: the file of words, or one that it has made.
fn may_append<F: Files>(files: &F, paths: &Paths, added: &Added, path: &str) -> bool {
    if is_same_file(files, path, paths.script.as_str()) {
        return false;
    }
    if is_words(files, paths, path) {
        return true;
    }
    for made in added.files() {
        if is_same_file(files, path, made.as_str()) {
            return true;
        }
    }
    false
}

/// Returns whether a path names nothing, not even a link.
fn is_free<F: Files>(files: &F, path: &str) -> bool {
    match fs::symlink_metadata(files, path) {
        Ok(_) => false,
        Err(error) => error.kind() == io::ErrorKind::NotFound,
    }
}

/// Returns whether a path names an ordinary file.
fn is_ordinary<F: Files>(files: &F, path: &str) -> bool {
    match fs::metadata(files, path) {
        Ok(found) => found.is_file(),
        Err(_) => false,
    }
}

/// Puts the words that a file lacks at the end of its bytes. Returns the lines that were put there.
fn append_to<F: Files + AllocGlobal>(
    files: &F,
    words: &[String],
    path: &str,
    old: &[u8],
    former: Former<'_>,
) -> Result<Vec<u8>, SaveFault> {
    let lines = lines_to_append(files.alloc(), words, old)?;
    if lines.is_empty() {
        return Ok(lines);
    }
    let mut text = Vec::with_capacity(files.alloc(), old.len().saturating_add(lines.len()))?;
    text.extend_from_slice(old)?;
    text.extend_from_slice(&lines)?;
    save_file(files, path, &text, former)?;
    Ok(lines)
}

/// Puts the words that were added, and that a file lacks, at its end; that of the words if the path is empty. The file is that of the
/// words, one that `append` has made, or a new one. Returns the lines that were put there, none if it lacks none.
///
/// # Errors
///
/// Returns the faults of `save_file`, and `NotWritten` also for another file, and if the path is empty and there is no file of words.
pub(crate) fn append<F: Files + AllocGlobal>(
    folder: &mut Folder<'_, F>,
    bench: &Bench,
    path: &str,
) -> Result<Vec<u8>, SaveFault> {
    let files = folder.files;
    let paths = folder.paths;
    let path = match &paths.words {
        Some(words) if path.is_empty() => words.as_str(),
        None if path.is_empty() => return Err(SaveFault::NotWritten),
        _ => path,
    };
    let words = folder.added.words(files.alloc(), bench)?;
    if is_free(files, path) {
        let made = folder.added.name_to_make(files.alloc(), path)?;
        let appended = append_to(files, &words, path, &[], Former::Missing);
        let is_made = match &appended {
            Ok(lines) => !lines.is_empty(),
            Err(fault) => *fault == SaveFault::NotSettled,
        };
        if is_made {
            folder.added.note_made(made);
        }
        return appended;
    }
    if !may_append(files, paths, &folder.added, path) || !is_ordinary(files, path) {
        return Err(SaveFault::NotWritten);
    }
    let old = match read_file(files, path) {
        Ok(old) => old,
        Err(ReadFault::OutOfMemory) => return Err(SaveFault::OutOfMemory),
        Err(ReadFault::Unreadable) => return Err(SaveFault::NotWritten),
    };
    append_to(files, &words, path, &old, Former::Bytes(&old))
}

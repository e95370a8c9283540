//! Loading a bench from an input: a script block, and then words.
ghost use Rattle.std.specs.Prelude.{◌≡◌, ◌⊎◌, ◌≤◌, [], ℕ, List, None, Some, Err, IfOk, IfErr, OnOk, true, false};
ghost use Rattle.std.specs.Str.{chars, is_utf8};
ghost use Rattle.sbl_bench.specs.KeptRuns.{contents_of};
ghost use Rattle.sbl_bench.specs.Contents.{Opens};
ghost use Rattle.sbl_script.specs.ParsedScript.{source_of};
ghost use Rattle.sbl_input.specs.LoadedRows.{AreRowsOf};
ghost use Rattle.sbl_input.specs.VocabularyRows.{ReadsInput, RowsOpen};
ghost use Rattle.sbl_input.specs.WordLists.{AreHeld, HoldsWords, ReadsWords};
ghost use Rattle.std.specs.Io.KnownBytes.{Keeps};
ghost use Rattle.sbl_io.specs.Faults.{serve_fault_of};
ghost use Rattle.sbl_input.specs.Faults.{left_by_load};
ghost use Rattle.sbl_io.specs.declared.faults.LineFault.{LineFault};
ghost use Rattle.sbl_io.specs.HeldInput.{KeepsTime, input_of, reads_bound};
ghost use Rattle.sbl_input.specs.Loading.{HasReason, IsLoaded, ReadsScript};

use crate::faults::LoadFault;
use crate::vocabulary_rows::vocabulary_rows;
use crate::word_list::{Repeats, WordList};
use sbl_bench::{Bench, EditFault, NoProgress, Progress, WordKeys};
use sbl_io::{Lines, ServeFault, Source};
use sbl_reports::{BlockFault, read_block};
use sbl_script::{Script, ScriptFault};
use std::alloc::Global;

/// Reads the text of the script block: its lines up to a line `.`, each followed by a line feed. The block is read to its end
/// before it is checked.
///
/// # Errors
///
/// Returns `Cut` if the input ends before the line `.`. Returns `Read` and `LineTooLong` as the lines do; the lines keep these
/// two faults, return them again, and then read nothing. After the whole block was read, returns `ScriptTooLong` exactly if its text
/// is too long, whatever memory there was, or `OutOfMemory` if it is not and an allocation failed.
pub fn read_script<R: Source + Drop>(lines: &mut Lines<R>) -> Result<Vec<u8>, LoadFault>
    ensures reads { lines.old.fault ≡ None → ReadsScript (input_of R.left lines.old) (input_of R.left lines.new) result }
    ensures ready { OnOk result (lines.old.fault ≡ None) }
    ensures remembered { lines.new.fault ≡ left_by_load result }
    ensures again { (fault : LineFault) → lines.old.fault ≡ Some fault → (result ≡ Err (LoadFault.Input (serve_fault_of fault))) × Keeps (input_of R.left lines.old) (input_of R.left lines.new) }
    ensures later { (R.tally lines.old.reader).failures ≤ (R.tally lines.new.reader).failures }
    ensures bound { reads_bound R.tally lines.new ≡ reads_bound R.tally lines.old }
    ensures steady { OnOk result ((R.tally lines.new.reader).failures ≡ (R.tally lines.old.reader).failures) }
    ensures why { IfErr result (λ fault. HasReason R.tally lines.old lines.new fault) }
    ensures in_time { KeepsTime R.tally lines.old lines.new }
{
    let text = match read_block(lines) {
        Ok(text) => text,
        Err(fault) => return Err(LoadFault::Input(fault)),
    };
    match text.whole() {
        Ok(text) => Ok(text),
        Err(BlockFault::TooLong) => Err(LoadFault::Script(ScriptFault::ScriptTooLong)),
        Err(BlockFault::OutOfMemory) => Err(LoadFault::Input(ServeFault::OutOfMemory)),
    }
}

/// Returns the characters of a line, or `NotText` if it is not UTF-8.
fn characters_of(alloc: Global, line: &[u8]) -> Result<Vec<char>, LoadFault>
    ensures text { IfOk result (λ word. (is_utf8 line.now ≡ true) × (word.items ≡ chars line.now)) }
    ensures none { IfErr result (λ fault. ((fault ≡ LoadFault.Input ServeFault.NotText) × (is_utf8 line.now ≡ false)) ⊎ (fault ≡ LoadFault.Input ServeFault.OutOfMemory)) }
{
    if line.is_ascii() {
        return ascii_characters(alloc, line);
    }
    let Ok(text) = str::from_utf8(line) else {
        return Err(LoadFault::Input(ServeFault::NotText));
    };
    let mut word = Vec::with_capacity(alloc, text.chars().count())?;
    word.extend(text.chars())?;
    Ok(word)
}

/// Returns the characters of a line that is ASCII. Returns `OutOfMemory` if an allocation fails.
fn ascii_characters(alloc: Global, line: &[u8]) -> Result<Vec<char>, LoadFault>
    ensures text { IfOk result (λ word. word.items ≡ line.now) }
    ensures none { IfErr result (λ fault. fault ≡ LoadFault.Input ServeFault.OutOfMemory) }
{
    let mut word = Vec::with_capacity(alloc, line.len())?;
    for byte in line {
        word.push_reserved(*byte as char);
    }
    Ok(word)
}

/// Reads the words, up to a line `.` or the end of input. Keeps only those that decide how a bench opens.
fn read_words<R: Source + Drop>(
    lines: &mut Lines<R>,
    keys: WordKeys,
    repeats: Repeats,
) -> Result<WordList, LoadFault>
    ensures reads { lines.old.fault ≡ None → ReadsWords (input_of R.left lines.old) (input_of R.left lines.new) result }
    ensures held { IfOk result (λ words. AreHeld words) }
    ensures remembered { lines.new.fault ≡ left_by_load result }
    ensures later { (R.tally lines.old.reader).failures ≤ (R.tally lines.new.reader).failures }
    ensures bound { reads_bound R.tally lines.new ≡ reads_bound R.tally lines.old }
    ensures steady { OnOk result ((R.tally lines.new.reader).failures ≡ (R.tally lines.old.reader).failures) }
    ensures why { IfErr result (λ fault. HasReason R.tally lines.old lines.new fault) }
    ensures in_time { KeepsTime R.tally lines.old lines.new }
{
    let mut words = WordList::new(lines.alloc(), keys, repeats);
    while lines.next_line()? {
        if lines.line() == b".".as_slice() {
            return Ok(words);
        }
        let word = characters_of(lines.alloc(), lines.line())?;
        words.push(word)?;
    }
    Ok(words)
}

/// A script and the words after it.
struct ParsedInput {
    script: Script,
    words: WordList,
}

/// Reads the script block and the words of an input. Returns the faults that `load` returns before it opens a bench.
fn read_input<R: Source + Drop>(
    lines: &mut Lines<R>,
    keys: WordKeys,
    repeats: Repeats,
    external: &str,
) -> Result<ParsedInput, LoadFault>
    ensures reads { lines.old.fault ≡ None → ReadsInput (input_of R.left lines.old) (input_of R.left lines.new) external.now result }
    ensures held { IfOk result (λ input. AreHeld input.words) }
    ensures bound { reads_bound R.tally lines.new ≡ reads_bound R.tally lines.old }
    ensures later { (R.tally lines.old.reader).failures ≤ (R.tally lines.new.reader).failures }
    ensures again { (fault : LineFault) → lines.old.fault ≡ Some fault → (result ≡ Err (LoadFault.Input (serve_fault_of fault))) × Keeps (input_of R.left lines.old) (input_of R.left lines.new) }
    ensures steady { OnOk result ((R.tally lines.new.reader).failures ≡ (R.tally lines.old.reader).failures) }
    ensures remembered { lines.new.fault ≡ left_by_load result }
    ensures why { IfErr result (λ fault. HasReason R.tally lines.old lines.new fault) }
    ensures in_time { KeepsTime R.tally lines.old lines.new }
{
    let text = read_script(lines)?;
    let script = Script::parse(lines.alloc(), &text, external)?;
    match read_words(lines, keys, repeats) {
        Ok(words) => Ok(ParsedInput { script, words }),
        Err(fault) => {
            script.discard();
            Err(fault)
        }
    }
}

/// Returns the bench of a script and of words that were read. Returns `WordTooLong`, `Full` and `OutOfMemory` as `Bench::open`
/// does with all of them.
fn open_words<P: Progress>(
    alloc: Global,
    keys: WordKeys,
    script: Script,
    words: WordList,
    progress: &mut P,
) -> Result<Bench, EditFault>
    ensures { (all : List (List ℕ)) → HoldsWords words all → Opens (source_of script) all (λ b. contents_of b) result }
{
    match words.into_words() {
        Ok(words) => Bench::open_observed(alloc, keys, script, words, progress),
        Err(_) => {
            script.discard();
            Err(EditFault::OutOfMemory)
        }
    }
}

/// Loads the bench of an input. The input is a script block and then words. The script block is the lines up to a line `.`,
/// each followed by a line feed; it is read as a script with this external. The words are one per line, up to a line `.` or the
/// end of input. The lines after that are left.
///
/// The hash by which words are found has keys that are no secret, as in `Bench::open`. If the input comes from others, call
/// `load_with_keys`.
///
/// # Errors
///
/// The script block is read to its end before it is checked: returns `Read`, `LineTooLong`, or `Cut` if the input ends before
/// the line `.`. Then returns the first fault of the script, with its position or item; no word is read then. All words are
/// read before they are checked: returns `Read`, `LineTooLong`, or `NotText` at a line that is not UTF-8. Then returns the
/// faults of the vocabulary, `WordTooLong` and `Full`. Returns `OutOfMemory` if an allocation fails; in the script block, only
/// after the block was read to its end, and not in place of `ScriptTooLong`.
///
/// After `Cut`, the input is at its end. After a fault of the script, the next line is the one after its block. After
/// `NotText`, it is the one after the line that is not UTF-8. The lines keep `Read` and `LineTooLong` and return them again,
/// and so does every later `load`, which then reads nothing.
pub fn load<R: Source + Drop>(lines: &mut Lines<R>, external: &str) -> Result<Bench, LoadFault>
    ensures loaded { lines.old.fault ≡ None → IsLoaded (input_of R.left lines.old) (input_of R.left lines.new) external.now (λ b. contents_of b) result }
    ensures later { (R.tally lines.old.reader).failures ≤ (R.tally lines.new.reader).failures }
    ensures steady { OnOk result ((R.tally lines.new.reader).failures ≡ (R.tally lines.old.reader).failures) }
    ensures why { IfErr result (λ fault. HasReason R.tally lines.old lines.new fault) }
    ensures in_time { KeepsTime R.tally lines.old lines.new }
    ensures remembered { lines.new.fault ≡ left_by_load result }
    ensures again { (fault : LineFault) → lines.old.fault ≡ Some fault → (result ≡ Err (LoadFault.Input (serve_fault_of fault))) × Keeps (input_of R.left lines.old) (input_of R.left lines.new) }
    ensures bound { reads_bound R.tally lines.new ≡ reads_bound R.tally lines.old }
{
    load_with_keys(lines, WordKeys::constant(), external)
}

/// Returns the same bench as `load`, or the same fault, and leaves the input as `load` does. The keys are those of the hash by which
/// words are found, as in `Bench::open_with_keys`.
pub fn load_with_keys<R: Source + Drop>(
    lines: &mut Lines<R>,
    keys: WordKeys,
    external: &str,
) -> Result<Bench, LoadFault>
    ensures loaded { lines.old.fault ≡ None → IsLoaded (input_of R.left lines.old) (input_of R.left lines.new) external.now (λ b. contents_of b) result }
    ensures later { (R.tally lines.old.reader).failures ≤ (R.tally lines.new.reader).failures }
    ensures steady { OnOk result ((R.tally lines.new.reader).failures ≡ (R.tally lines.old.reader).failures) }
    ensures why { IfErr result (λ fault. HasReason R.tally lines.old lines.new fault) }
    ensures in_time { KeepsTime R.tally lines.old lines.new }
    ensures remembered { lines.new.fault ≡ left_by_load result }
    ensures again { (fault : LineFault) → lines.old.fault ≡ Some fault → (result ≡ Err (LoadFault.Input (serve_fault_of fault))) × Keeps (input_of R.left lines.old) (input_of R.left lines.new) }
    ensures bound { reads_bound R.tally lines.new ≡ reads_bound R.tally lines.old }
{
    load_observed(lines, keys, external, &mut NoProgress {})
}

/// Returns the same bench as `load_with_keys`, or the same fault, and leaves the input as `load` does. `progress` sees how many words
/// were run.
pub fn load_observed<R: Source + Drop, P: Progress>(
    lines: &mut Lines<R>,
    keys: WordKeys,
    external: &str,
    progress: &mut P,
) -> Result<Bench, LoadFault>
    ensures loaded { lines.old.fault ≡ None → IsLoaded (input_of R.left lines.old) (input_of R.left lines.new) external.now (λ b. contents_of b) result }
    ensures later { (R.tally lines.old.reader).failures ≤ (R.tally lines.new.reader).failures }
    ensures steady { OnOk result ((R.tally lines.new.reader).failures ≡ (R.tally lines.old.reader).failures) }
    ensures why { IfErr result (λ fault. HasReason R.tally lines.old lines.new fault) }
    ensures in_time { KeepsTime R.tally lines.old lines.new }
    ensures remembered { lines.new.fault ≡ left_by_load result }
    ensures again { (fault : LineFault) → lines.old.fault ≡ Some fault → (result ≡ Err (LoadFault.Input (serve_fault_of fault))) × Keeps (input_of R.left lines.old) (input_of R.left lines.new) }
    ensures bound { reads_bound R.tally lines.new ≡ reads_bound R.tally lines.old }
{
    let ParsedInput { script, words } = read_input(lines, keys, Repeats::Kept, external)?;
    match open_words(lines.alloc(), keys, script, words, progress) {
        Ok(bench) => Ok(bench),
        Err(fault) => Err(LoadFault::Open(fault)),
    }
}

/// Returns the text of the rows of words that were read. Returns `WordTooLong`, `Full` and `OutOfMemory` as `Bench::open` does.
fn rows_of_words(alloc: Global, script: &Script, words: WordList) -> Result<Vec<u8>, EditFault>
    requires { AreHeld words }
    ensures { (all : List (List ℕ)) → HoldsWords words all → RowsOpen (source_of script.now) all (λ text bytes. bytes.items ≡ text) result }
{
    let words = words.into_vocabulary()?;
    Ok(vocabulary_rows(alloc, script, words)?)
}

/// Returns the text of the rows of an input, as `rows_text` has them for the bench that `load` makes of it. Makes no bench, so that
/// less is kept of each word. The keys are those of the hash by which words are found. Does not free the words of rows that it returns: a
/// program ends after it has written these.
///
/// # Errors
///
/// Returns the faults that `load` returns, and leaves the input as `load` does.
pub fn load_rows<R: Source + Drop>(
    lines: &mut Lines<R>,
    keys: WordKeys,
    external: &str,
) -> Result<Vec<u8>, LoadFault>
    ensures rows { lines.old.fault ≡ None → AreRowsOf (input_of R.left lines.old) (input_of R.left lines.new) external.now result }
    ensures in_time { KeepsTime R.tally lines.old lines.new }
    ensures why { IfErr result (λ fault. HasReason R.tally lines.old lines.new fault) }
    ensures bound { reads_bound R.tally lines.new ≡ reads_bound R.tally lines.old }
    ensures remembered { lines.new.fault ≡ left_by_load result }
    ensures later { (R.tally lines.old.reader).failures ≤ (R.tally lines.new.reader).failures }
    ensures again { (fault : LineFault) → lines.old.fault ≡ Some fault → (result ≡ Err (LoadFault.Input (serve_fault_of fault))) × Keeps (input_of R.left lines.old) (input_of R.left lines.new) }
    ensures steady { OnOk result ((R.tally lines.new.reader).failures ≡ (R.tally lines.old.reader).failures) }
{
    let ParsedInput { script, words } = read_input(lines, keys, Repeats::Dropped, external)?;
    let rows = rows_of_words(lines.alloc(), &script, words);
    script.discard();
    match rows {
        Ok(rows) => Ok(rows),
        Err(fault) => Err(LoadFault::Open(fault)),
    }
}

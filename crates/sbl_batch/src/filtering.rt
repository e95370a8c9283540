//! Reads a script and words, and writes the rows of the words that it has before it asks for more input.
ghost use Rattle.std.specs.Prelude.{◌≡◌, ◌≤◌, ◌⊎◌, [], None, IfErr, OnOk};
ghost use Rattle.std.specs.Str.{chars};
ghost use Rattle.sbl_batch.specs.Filter.{Filters, IsFiltered, RepeatsFault};
ghost use Rattle.sbl_batch.specs.HeldRows.{PushesRow, ReadsWordsOf};
ghost use Rattle.sbl_batch.specs.LineWriter.{IsBetweenLines};
ghost use Rattle.sbl_io.specs.Devices.{HasStopped, WritesInTime};
ghost use Rattle.sbl_io.specs.HeldInput.{KeepsTime, input_of, reads_bound};
ghost use Rattle.sbl_machine.specs.MachineOf.{IsLinkedMachineOf};
ghost use Rattle.sbl_ast.specs.Source.{Source};
ghost use Rattle.sbl_script.specs.ParsedScript.{source_of};
ghost use Rattle.sbl_input.specs.Faults.{left_by_load};
ghost use Rattle.sbl_input.specs.Loading.{HasReason};

use crate::row_writer::RowWriter;
use sbl_bench::{EditFault, MAX_WORD_LENGTH};
use sbl_input::{LoadFault, read_script};
use sbl_io::{Lines, ServeFault, Sink, Source};
use sbl_machine::{Machine, Meter, Table};
use sbl_script::Script;
use std::alloc::{AllocError, Global};
use std::mem;

/// Replaces the characters by those of a word. Returns `AllocError` if an allocation fails.
fn put_characters(characters: &mut Vec<char>, word: &str) -> Result<(), AllocError>
    ensures { OnOk result (characters.new.items ≡ chars word.now) }
{
    characters.clear();
    if word.is_ascii() {
        return put_ascii(characters, word.as_bytes());
    }
    characters.reserve(word.len())?;
    characters.extend(word.chars())
}

/// Appends the characters of a word that is ASCII to none. Returns `AllocError` if an allocation fails.
fn put_ascii(characters: &mut Vec<char>, word: &[u8]) -> Result<(), AllocError>
    requires { characters.old.items ≡ [] }
    ensures { OnOk result (characters.new.items ≡ word.now) }
{
    characters.reserve(word.len())?;
    for byte in word {
        characters.push_reserved(*byte as char);
    }
    Ok(())
}

/// Appends the row of a word of these characters to the rows that are not written yet; an empty word has no row. Returns `WordTooLong`
/// and `OutOfMemory` as `filter_line` does.
fn filter_word(
    machine: &Machine<Table>,
    meter: &mut Meter,
    rows: &mut RowWriter,
    word: &str,
    characters: &[char],
) -> Result<(), LoadFault>
    requires is { characters.now ≡ chars word.now }
    requires between { IsBetweenLines rows.old.lines }
    ensures between { OnOk result (IsBetweenLines rows.new.lines) }
    ensures pushes { (s : Source) → IsLinkedMachineOf machine.now s → PushesRow s word.now rows.old.text.items rows.new.text.items result }
{
    if characters.len() > MAX_WORD_LENGTH {
        return Err(LoadFault::Open(EditFault::WordTooLong));
    }
    if characters.is_empty() {
        return Ok(());
    }
    rows.push_row(machine, meter, word, characters)?;
    Ok(())
}

/// Appends the row of the word in a line to the rows that are not written yet; an empty line has no row. Returns `NotText` if the line
/// is not UTF-8, `WordTooLong` if it has more than 255 characters, and `OutOfMemory` if an allocation fails; the rows then stay.
pub(crate) fn filter_line(
    machine: &Machine<Table>,
    meter: &mut Meter,
    rows: &mut RowWriter,
    line: &[u8],
) -> Result<(), LoadFault>
    requires between { IsBetweenLines rows.old.lines }
    ensures between { OnOk result (IsBetweenLines rows.new.lines) }
    ensures pushes { (s : Source) → IsLinkedMachineOf machine.now s → PushesRow s line.now rows.old.text.items rows.new.text.items result }
{
    let Ok(word) = str::from_utf8(line) else {
        return Err(LoadFault::Input(ServeFault::NotText));
    };
    let alloc = *rows.characters.allocator();
    let mut characters = mem::replace(&mut rows.characters, Vec::new(alloc));
    put_characters(&mut characters, word)?;
    let filtered = filter_word(machine, meter, rows, word, &characters);
    rows.characters = characters;
    filtered
}

/// Reads words up to a line `.` or the end of input, and writes their rows before each read. The rows of the words after the last read
/// may be left in `rows`.
#[inline(never)]
fn read_words<R: Source + Drop, W: Sink>(
    lines: &mut Lines<R>,
    machine: &Machine<Table>,
    meter: &mut Meter,
    rows: &mut RowWriter,
    writer: &mut W,
) -> Result<(), LoadFault>
    requires made { (s : Source) × IsLinkedMachineOf machine.now s }
    requires between { IsBetweenLines rows.old.lines }
    requires none { rows.old.text.items ≡ [] }
    ensures reads { (s : Source) → IsLinkedMachineOf machine.now s → lines.old.fault ≡ None → ReadsWordsOf R.left W.held s lines.old lines.new writer.old writer.new rows.new.text.items result }
    ensures remembered { lines.old.fault ≡ None → lines.new.fault ≡ left_by_load result }
    ensures bound { reads_bound R.tally lines.new ≡ reads_bound R.tally lines.old }
    ensures steady { OnOk result (((R.tally lines.new.reader).failures ≡ (R.tally lines.old.reader).failures) × ((W.tally writer.new).failures ≡ (W.tally writer.old).failures)) }
    ensures later { (R.tally lines.old.reader).failures ≤ (R.tally lines.new.reader).failures }
    ensures later_write { (W.tally writer.old).failures ≤ (W.tally writer.new).failures }
    ensures why { IfErr result (λ fault. HasReason R.tally lines.old lines.new fault) }
    ensures why_write { IfErr result (λ fault. fault ≡ LoadFault.Input ServeFault.Write → HasStopped W.tally writer.old writer.new × (rows.new.text.items ≡ [])) }
    ensures reads_in_time { KeepsTime R.tally lines.old lines.new }
    ensures writes_in_time { WritesInTime W.tally writer.old writer.new }
    ensures rested { (rows.new.text.items ≡ []) ⊎ ((W.tally writer.old).interruptions ≡ 0 → (W.tally writer.new).interruptions ≡ 0) }
{
    loop {
        let due = rows.is_due(lines.holds_line());
        rows.write_if(due, writer)?;
        if !lines.next_line()? {
            return Ok(());
        }
        if lines.line() == b".".as_slice() {
            return Ok(());
        }
        filter_line(machine, meter, rows, lines.line())?;
    }
}

/// Writes the rows of the words, up to a line `.` or the end of input.
#[inline(never)]
fn filter_words<R: Source + Drop, W: Sink>(
    lines: &mut Lines<R>,
    script: &Script,
    writer: &mut W,
) -> Result<(), LoadFault>
    ensures filters { lines.old.fault ≡ None → Filters (source_of script.now) (input_of R.left lines.old) (input_of R.left lines.new) (W.held writer.old) (W.held writer.new) result }
    ensures remembered { lines.old.fault ≡ None → lines.new.fault ≡ left_by_load result }
    ensures bound { reads_bound R.tally lines.new ≡ reads_bound R.tally lines.old }
    ensures steady { OnOk result (((R.tally lines.new.reader).failures ≡ (R.tally lines.old.reader).failures) × ((W.tally writer.new).failures ≡ (W.tally writer.old).failures)) }
    ensures later { (R.tally lines.old.reader).failures ≤ (R.tally lines.new.reader).failures }
    ensures why { IfErr result (λ fault. HasReason R.tally lines.old lines.new fault) }
    ensures why_write { IfErr result (λ fault. fault ≡ LoadFault.Input ServeFault.Write → HasStopped W.tally writer.old writer.new) }
    ensures reads_in_time { KeepsTime R.tally lines.old lines.new }
    ensures writes_in_time { WritesInTime W.tally writer.old writer.new }
{
    let alloc = lines.alloc();
    let machine = Machine::new(alloc, script)?;
    let mut meter = Meter::new();
    let mut rows = RowWriter::new(alloc);
    let ended = read_words(lines, &machine, &mut meter, &mut rows, writer);
    rows.write_if(true, writer)?;
    ended
}

/// Reads a script block and words, and writes the row of each word that is not empty. The script block is the lines up to a line `.`,
/// each followed by a line feed; it is read as a script with this external. The words are one per line, up to a line `.` or the end of
/// input. The lines after that are left. The row of a word is the one that `rows_text` of a bench has for it: the outcome of a fresh run
/// with at most 100,000 steps. A word that is there again has a row again.
///
/// Before it asks the reader for more input, the rows of all words in complete lines are written. So whoever waits for a row before the
/// next word gets it. In between, rows are written together; but after a run those that took more than 100,000 steps together, or have
/// more than 65,536 bytes, are written at once. Nothing is kept of a word after its row is written, and the number of words has no bound.
///
/// # Errors
///
/// The script block is read to its end before it is checked: returns `Read`, `LineTooLong`, or `Cut` if the input ends before
/// the line `.`. Then returns the first fault of the script, with its position or item. Nothing is written then, and no word
/// is read. At the first word that has a fault, returns it after the rows of all words before that: `Read` or `LineTooLong`
/// if its line cannot be read, `NotText` if it is not UTF-8, `WordTooLong` if it has more than 255 characters. Returns
/// `OutOfMemory` if an allocation fails, after the rows of all words before. Returns `Write` instead if the writer fails or is
/// interrupted more than 1,000 times in a row; then a prefix of the rows of the words that were read is written.
///
/// The lines keep `Read` and `LineTooLong` and return them again, and so does every later `filter`, which then reads and
/// writes nothing. After any other fault but `Write`, the next line is the one after the word.
pub fn filter<R: Source + Drop, W: Sink>(
    lines: &mut Lines<R>,
    external: &str,
    writer: &mut W,
) -> Result<(), LoadFault>
    ensures filtered { lines.old.fault ≡ None → IsFiltered (input_of R.left lines.old) (input_of R.left lines.new) external.now (W.held writer.old) (W.held writer.new) result }
    ensures steady { OnOk result (((R.tally lines.new.reader).failures ≡ (R.tally lines.old.reader).failures) × ((W.tally writer.new).failures ≡ (W.tally writer.old).failures)) }
    ensures why_read { IfErr result (λ fault. HasReason R.tally lines.old lines.new fault) }
    ensures why_write { IfErr result (λ fault. fault ≡ LoadFault.Input ServeFault.Write → HasStopped W.tally writer.old writer.new) }
    ensures remembered { lines.new.fault ≡ left_by_load result }
    ensures again { RepeatsFault lines.old.fault result (input_of R.left lines.old) (input_of R.left lines.new) (W.held writer.old) (W.held writer.new) }
    ensures bound { reads_bound R.tally lines.new ≡ reads_bound R.tally lines.old }
    ensures reads_in_time { KeepsTime R.tally lines.old lines.new }
    ensures writes_in_time { WritesInTime W.tally writer.old writer.new }
{
    let text = read_script(lines)?;
    let script = Script::parse(lines.alloc(), &text, external)?;
    let filtered = filter_words(lines, &script, writer);
    script.discard();
    filtered
}

//! Compares stems with the expected stems.
ghost use Rattle.std.specs.Prelude.{◌≡◌, IfOk, IfErr, OnOk, string_bytes};
ghost use Rattle.std.specs.Str.{chars};
ghost use Rattle.sbl_machine.specs.MachineOf.{IsLinkedMachineOf};
ghost use Rattle.sbl_ast.specs.Source.{Source};
ghost use Rattle.sbl_script.specs.ParsedScript.{source_of};
ghost use Rattle.sbl_batch.specs.{Checking.ComparesPair, Checking.IsRow, Checking.view_got, Differences.IsChecked};
ghost use Rattle.sbl_io.specs.Devices.{HasStopped, WritesInTime};
ghost use Rattle.sbl_batch.specs.Differences as spec;

use csv::ByteRecord;
use sbl_bench::{MAX_WORD_LENGTH, NoProgress, Progress};
use sbl_input::text_line;
use sbl_io::{ServeFault, Sink, first_line, record_line, text_of, write_all};
use sbl_machine::{DEFAULT_LIMIT, Machine, Meter, Outcome, RunEnd, Table};
use sbl_script::Script;
use std::alloc::{AllocError, Global};

/// The result of a script for a word.
#[derive(Debug, Drop)]
pub(crate) enum Got {
    /// The stem of the word.
    Stem(String),
    /// The name of the refusal.
    Refused(&'static str),
}

/// Runs the script on a word. A word of more than 255 characters is refused without a run.
fn run_word(
    alloc: Global,
    machine: &Machine<Table>,
    meter: &mut Meter,
    word: &str,
) -> Result<Got, AllocError>
    ensures { (script : Source) → IsLinkedMachineOf machine.now script → IfOk result (λ g. view_got g ≡ spec.made_of script (chars word.now)) }
{
    let characters: Vec<char> = word.chars().collect(alloc)?;
    if characters.len() > MAX_WORD_LENGTH {
        return Ok(Got::Refused("WordTooLong"));
    }
    // A list cannot have more lines than a meter counts, so the only error is a failed allocation.
    let Ok(end) = machine.run_untraced(alloc, meter, characters.as_slice(), DEFAULT_LIMIT) else {
        return Err(AllocError);
    };
    let RunEnd { outcome, .. } = end;
    match outcome {
        Outcome::Stem(stem) => Ok(Got::Stem(text_of(alloc, &stem)?)),
        Outcome::Refused(fault) => Ok(Got::Refused(fault.name())),
    }
}

impl Got {
    /// Returns whether the result is the expected stem.
    fn is(&self, expected: &str) -> bool
        ensures { result ≡ spec.is_expected expected.now (view_got self.now) }
    {
        match self {
            Got::Stem(stem) => stem.as_str() == expected,
            Got::Refused(_) => false,
        }
    }

    /// Returns the text for a row.
    fn as_text(self, alloc: Global) -> Result<String, AllocError>
        ensures { IfOk result (λ text. string_bytes text ≡ spec.got_text (view_got self)) }
    {
        match self {
            Got::Stem(stem) => Ok(stem),
            Got::Refused(name) => {
                let mut text = String::from_str(alloc, "refused ")?;
                text.push_str(name)?;
                Ok(text)
            }
        }
    }
}

/// Returns the row of a line if the result for its word is not the expected stem.
fn row_of(
    alloc: Global,
    number: u64,
    word: &str,
    expected: &str,
    got: Got,
) -> Result<Option<Vec<u8>>, AllocError>
    ensures { IfOk result (λ row. IsRow row (spec.row_of number word.now expected.now (view_got got))) }
{
    if got.is(expected) {
        return Ok(None);
    }
    let number = format!(in alloc; "{number}")?;
    let shown = got.as_text(alloc)?;
    let record = ByteRecord::from_fields(
        alloc,
        &[
            number.as_bytes(),
            word.as_bytes(),
            expected.as_bytes(),
            shown.as_bytes(),
        ],
    )?;
    Ok(Some(record_line(alloc, &record)?))
}

/// Compares the lines of a word and its expected stem. If they differ, writes a row and returns `true`.
fn compare<W: Sink>(
    alloc: Global,
    machine: &Machine<Table>,
    meter: &mut Meter,
    number: u64,
    word: &[u8],
    expected: &[u8],
    writer: &mut W,
) -> Result<bool, ServeFault>
    ensures compares { (script : Source) → IsLinkedMachineOf machine.now script → ComparesPair script number word.now expected.now (W.held writer.old) (W.held writer.new) result }
    ensures steady { OnOk result ((W.tally writer.new).failures ≡ (W.tally writer.old).failures) }
    ensures why { IfErr result (λ fault. fault ≡ ServeFault.Write → HasStopped W.tally writer.old writer.new) }
    ensures in_time { WritesInTime W.tally writer.old writer.new }
    ensures rested { OnOk result ((W.tally writer.old).interruptions ≡ 0 → (W.tally writer.new).interruptions ≡ 0) }
{
    let word = text_line(word)?;
    let expected = text_line(expected)?;
    let got = run_word(alloc, machine, meter, word)?;
    match row_of(alloc, number, word, expected, got)? {
        None => Ok(false),
        Some(row) => {
            write_all(writer, &row)?;
            Ok(true)
        }
    }
}

/// The words of a check, and the stems that are expected for them: one a line.
#[derive(Clone, Copy)]
pub struct CheckedLists<'a> {
    pub words: &'a [u8],
    pub expected: &'a [u8],
}

/// Runs the script on each line of `words`, also on empty lines and repeated words, and compares the result with the
/// same line of `expected`. Writes a row `LINE,WORD,EXPECTED,GOT` for each difference, with lines counted from 1, and
/// returns the number of differences. GOT is the stem, or `refused NAME` if the run is refused; a word of more than 255
/// characters is `refused WordTooLong`. A refusal is always a difference. A line ends at a line feed or at the end of
/// its list; one carriage return before the end is dropped.
///
/// # Errors
///
/// The following errors are returned after the rows of all lines before them are written:
/// * `LineTooLong` if a line has more than 65,536 bytes, and `NotText` if it is not UTF-8; the word is checked before the
///   expected stem, and both only as far as both lists have lines;
/// * `LengthsDiffer` if one list has ended and the other has not.
///
/// With the other errors a prefix of the rows is written: `Write` if the writer fails or is interrupted more than 1,000
/// times in a row, and `OutOfMemory` if an allocation fails.
pub fn check<W: Sink>(
    alloc: Global,
    script: &Script,
    words: &[u8],
    expected: &[u8],
    writer: &mut W,
) -> Result<u64, ServeFault>
    ensures checked { IsChecked (source_of script.now) words.now expected.now (W.held writer.old) (W.held writer.new) result }
    ensures steady { OnOk result ((W.tally writer.new).failures ≡ (W.tally writer.old).failures) }
    ensures why { IfErr result (λ fault. fault ≡ ServeFault.Write → HasStopped W.tally writer.old writer.new) }
    ensures writes_in_time { WritesInTime W.tally writer.old writer.new }
{
    let lists = CheckedLists { words, expected };
    check_observed(alloc, script, lists, writer, &mut NoProgress {})
}

/// Does what `check` does. `progress` sees how many lines were compared.
pub fn check_observed<W: Sink, P: Progress>(
    alloc: Global,
    script: &Script,
    lists: CheckedLists<'_>,
    writer: &mut W,
    progress: &mut P,
) -> Result<u64, ServeFault>
    ensures checked { IsChecked (source_of script.now) lists.entry.words.now lists.entry.expected.now (W.held writer.old) (W.held writer.new) result }
    ensures steady { OnOk result ((W.tally writer.new).failures ≡ (W.tally writer.old).failures) }
    ensures why { IfErr result (λ fault. fault ≡ ServeFault.Write → HasStopped W.tally writer.old writer.new) }
    ensures writes_in_time { WritesInTime W.tally writer.old writer.new }
{
    let machine = Machine::new(alloc, script)?;
    let mut meter = Meter::new();
    let mut words_left = lists.words;
    let mut expected_left = lists.expected;
    let mut number = 0;
    let mut differences = 0;
    while let Some((word, words_after)) = first_line(words_left) {
        let Some((stem, expected_after)) = first_line(expected_left) else {
            return Err(ServeFault::LengthsDiffer);
        };
        number += 1;
        if compare(alloc, &machine, &mut meter, number, word, stem, writer)? {
            differences += 1;
        }
        progress.see_words(number);
        words_left = words_after;
        expected_left = expected_after;
    }
    progress.see_end();
    match first_line(expected_left) {
        None => Ok(differences),
        Some(_) => Err(ServeFault::LengthsDiffer),
    }
}

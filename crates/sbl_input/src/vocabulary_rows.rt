//! The rows of a vocabulary without a bench: each word is run once, and only the words and the text of their rows are kept.

ghost use Rattle.sbl_ast.specs.Source.{Source};
ghost use Rattle.sbl_input.specs.VocabularyRows.{text_of_rows};
ghost use Rattle.sbl_rows.specs.Rows.{row_of};
ghost use Rattle.sbl_semantics.specs.Limit.{default_limit, max_word_length};
ghost use Rattle.sbl_bench.specs.Contents.{opening_fault};
ghost use Rattle.sbl_rows.specs.Setting.{under};
ghost use Rattle.sbl_io.specs.RecordsWritten.{HasWritten, Writes};
ghost use Rattle.sbl_input.specs.WordLists.{texts_of};
ghost use Rattle.std.specs.Prelude.{◌≡◌, ◌≤◌, [], None, length, IfOk, OnOk};
ghost use Rattle.sbl_records.specs.RowRecords.{row_fields};
ghost use Rattle.sbl_script.specs.ParsedScript.{source_of};
ghost use Rattle.sbl_machine.specs.MachineOf.{IsLinkedMachineOf};

use indexmap::IndexSet;
use sbl_bench::{MAX_WORDS, Row, WordKeys};
use sbl_machine::{DEFAULT_LIMIT, Machine, Meter, Table};
use sbl_records::RecordWriter;
use sbl_script::Script;
use std::alloc::{AllocError, Global};
use std::mem::forget;

/// The room that is made for a row, in bytes. Most rows have fewer; others make the text grow.
const ROW_BYTES: usize = 64;

/// Runs the script on a word and writes its row. Returns `AllocError` if an allocation fails.
fn write_row(
    alloc: Global,
    machine: &Machine<Table>,
    meter: &mut Meter,
    records: &mut RecordWriter,
    word: &[char],
) -> Result<(), AllocError>
    requires { length word.now ≤ max_word_length }
    ensures { (s : Source) → IsLinkedMachineOf machine.now s → OnOk result (Writes (row_fields (row_of (under s default_limit) word.now)) records.old.writer records.new.writer) }
{
    // A vocabulary has fewer words than a meter counts, so the only error is a failed allocation.
    let Ok(end) = machine.run_untraced(alloc, meter, word, DEFAULT_LIMIT) else {
        return Err(AllocError);
    };
    let row = Row {
        word,
        outcome: &end.outcome,
    };
    let written = records.push(&row);
    meter.reuse_stem(end.outcome);
    written
}

/// Writes the rows of words, in their order. Returns `AllocError` if an allocation fails.
fn write_rows(
    alloc: Global,
    machine: &Machine<Table>,
    meter: &mut Meter,
    records: &mut RecordWriter,
    words: &[Vec<char>],
) -> Result<(), AllocError>
    requires { opening_fault [] (texts_of words.now) ≡ None }
    ensures { (s : Source) → IsLinkedMachineOf machine.now s → HasWritten records.old.writer [] → OnOk result (HasWritten records.new.writer (text_of_rows s (texts_of words.now))) }
{
    for word in words {
        write_row(alloc, machine, meter, records, word.as_slice())?;
    }
    Ok(())
}

/// Returns the text of the rows of a vocabulary. Returns `AllocError` if an allocation fails. Does not free the words: a program ends
/// after it has written their rows.
pub(crate) fn vocabulary_rows(
    alloc: Global,
    script: &Script,
    words: IndexSet<Vec<char>, WordKeys>,
) -> Result<Vec<u8>, AllocError>
    requires { opening_fault [] (texts_of words.keys) ≡ None }
    ensures { IfOk result (λ bytes. bytes.items ≡ text_of_rows (source_of script.now) (texts_of words.keys)) }
{
    let machine = Machine::new(alloc, script)?;
    let mut meter = Meter::new();
    let count = words.len().min(MAX_WORDS);
    let mut records = RecordWriter::with_capacity(alloc, count * ROW_BYTES)?;
    let written = write_rows(alloc, &machine, &mut meter, &mut records, words.as_slice());
    machine.discard();
    forget(meter);
    forget(words);
    written?;
    records.into_text()
}

//! Reads words up to the end of input, and writes the rows of those that it has before it asks for more.
ghost use Rattle.std.specs.Prelude.{◌≡◌, ◌≤◌, ◌⊎◌, [], None, Err, Result, IfErr, OnOk};
ghost use Rattle.sbl_ast.specs.Source.{Source};
ghost use Rattle.sbl_batch.specs.HeldRows.{ReadsToEndOf};
ghost use Rattle.sbl_batch.specs.LineWriter.{IsBetweenLines};
ghost use Rattle.sbl_batch.specs.ToEnd.{FiltersToEnd, with_line, without_line};
ghost use Rattle.sbl_io.specs.Devices.{HasStopped, WritesInTime};
ghost use Rattle.sbl_io.specs.HeldInput.{KeepsTime, input_of as input, reads_bound};
ghost use Rattle.sbl_machine.specs.MachineOf.{IsLinkedMachineOf};
ghost use Rattle.sbl_script.specs.ParsedScript.{source_of};
ghost use Rattle.sbl_input.specs.Faults.{left_by_load};
ghost use Rattle.sbl_input.specs.Loading.{HasReason};

use crate::filtering::filter_line;
use crate::row_writer::RowWriter;
use crate::word_fault::WordFault;
use sbl_input::LoadFault;
use sbl_io::{Lines, ServeFault, Sink, Source};
use sbl_machine::{Machine, Meter, Table};
use sbl_script::Script;

/// Reads words up to the end of input, and writes their rows before each read. After a fault rows may be left in `rows`. `line` is the
/// number of the next line.
#[inline(never)]
fn read_lines<R: Source + Drop, W: Sink>(
    lines: &mut Lines<R>,
    machine: &Machine<Table>,
    meter: &mut Meter,
    rows: &mut RowWriter,
    writer: &mut W,
    line: &mut u64,
) -> Result<(), LoadFault>
    requires first { line.old ≡ 1 }
    requires made { (s : Source) × IsLinkedMachineOf machine.now s }
    requires between { IsBetweenLines rows.old.lines }
    requires none { rows.old.text.items ≡ [] }
    ensures reads { (s : Source) → IsLinkedMachineOf machine.now s → lines.old.fault ≡ None → ReadsToEndOf R.left W.held s lines.old lines.new writer.old writer.new rows.new.text.items line.new result }
    ensures remembered { lines.old.fault ≡ None → lines.new.fault ≡ left_by_load result }
    ensures bound { reads_bound R.tally lines.new ≡ reads_bound R.tally lines.old }
    ensures steady { OnOk result (((R.tally lines.new.reader).failures ≡ (R.tally lines.old.reader).failures) × ((W.tally writer.new).failures ≡ (W.tally writer.old).failures)) }
    ensures later_write { (W.tally writer.old).failures ≤ (W.tally writer.new).failures }
    ensures why { IfErr result (λ f. HasReason R.tally lines.old lines.new f) }
    ensures why_write { IfErr result (λ f. f ≡ LoadFault.Input ServeFault.Write → HasStopped W.tally writer.old writer.new × (rows.new.text.items ≡ [])) }
    ensures reads_in_time { KeepsTime R.tally lines.old lines.new }
    ensures writes_in_time { WritesInTime W.tally writer.old writer.new }
    ensures rested { (rows.new.text.items ≡ []) ⊎ ((W.tally writer.old).interruptions ≡ 0 → (W.tally writer.new).interruptions ≡ 0) }
{
    loop {
        let due = rows.is_due(lines.holds_line());
        rows.write_if(due, writer)?;
        if !lines.next_line()? {
            return Ok(());
        }
        filter_line(machine, meter, rows, lines.line())?;
        *line = line.saturating_add(1);
    }
}

/// Writes the rows of the words up to the end of input. `line` is the number of the next line.
#[inline(never)]
fn filter_lines<R: Source + Drop, W: Sink>(
    lines: &mut Lines<R>,
    script: &Script,
    writer: &mut W,
    line: &mut u64,
) -> Result<(), LoadFault>
    requires { line.old ≡ 1 }
    ensures filters { lines.old.fault ≡ None → FiltersToEnd (source_of script.now) (input R.left lines.old) (input R.left lines.new) (W.held writer.old) (W.held writer.new) (with_line line.new result) }
    ensures remembered { lines.old.fault ≡ None → lines.new.fault ≡ left_by_load result }
    ensures bound { reads_bound R.tally lines.new ≡ reads_bound R.tally lines.old }
    ensures steady { OnOk result (((R.tally lines.new.reader).failures ≡ (R.tally lines.old.reader).failures) × ((W.tally writer.new).failures ≡ (W.tally writer.old).failures)) }
    ensures why { IfErr result (λ f. HasReason R.tally lines.old lines.new f) }
    ensures why_write { IfErr result (λ f. f ≡ LoadFault.Input ServeFault.Write → HasStopped W.tally writer.old writer.new) }
    ensures reads_in_time { KeepsTime R.tally lines.old lines.new }
    ensures writes_in_time { WritesInTime W.tally writer.old writer.new }
{
    let alloc = lines.alloc();
    let machine = Machine::new(alloc, script)?;
    let mut meter = Meter::new();
    let mut rows = RowWriter::new(alloc);
    let ended = read_lines(lines, &machine, &mut meter, &mut rows, writer, line);
    rows.write_if(true, writer)?;
    ended
}

/// Reads words up to the end of input, one a line, and writes the row of each word that is not empty. A line `.` is a word, too. The row
/// of a word is the one that `filter` writes for it, and a word that is there again has a row again. The rows are written when `filter`
/// writes them: those of all complete lines before more input is asked for.
///
/// Nothing is kept of a word after its row is written, and the number of words has no bound.
///
/// # Errors
///
/// At the first word that has a fault, returns it with the number of the word's line, after the rows of all words before that:
/// `Read` or `LineTooLong` if its line cannot be read, `NotText` if it is not UTF-8, `WordTooLong` if it has more than 255
/// characters. Returns `OutOfMemory` if an allocation fails, after the rows of all words before. Returns `Write` instead if the writer
/// fails or is interrupted more than 1,000 times in a row; then a prefix of the rows of the words that were read is written, and the
/// number is that of the line after them.
///
/// The lines keep `Read` and `LineTooLong` and return them again. After any other fault but `Write`, the next line is the one after the
/// word.
pub fn filter_to_end<R: Source + Drop, W: Sink>(
    lines: &mut Lines<R>,
    script: &Script,
    writer: &mut W,
) -> Result<(), WordFault>
    ensures filters { lines.old.fault ≡ None → FiltersToEnd (source_of script.now) (input R.left lines.old) (input R.left lines.new) (W.held writer.old) (W.held writer.new) result }
    ensures remembered { lines.old.fault ≡ None → lines.new.fault ≡ left_by_load (without_line result) }
    ensures bound { reads_bound R.tally lines.new ≡ reads_bound R.tally lines.old }
    ensures steady { OnOk result (((R.tally lines.new.reader).failures ≡ (R.tally lines.old.reader).failures) × ((W.tally writer.new).failures ≡ (W.tally writer.old).failures)) }
    ensures why { IfErr result (λ e. HasReason R.tally lines.old lines.new e.fault) }
    ensures why_write { IfErr result (λ e. e.fault ≡ LoadFault.Input ServeFault.Write → HasStopped W.tally writer.old writer.new) }
    ensures reads_in_time { KeepsTime R.tally lines.old lines.new }
    ensures writes_in_time { WritesInTime W.tally writer.old writer.new }
{
    let mut line = 1;
    match filter_lines(lines, script, writer, &mut line) {
        Ok(()) => Ok(()),
        Err(fault) => Err(WordFault { line, fault }),
    }
}

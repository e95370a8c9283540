//! The rows of words, made one after another and written together.
ghost use Rattle.std.specs.Prelude.{◌≡◌, ◌≤◌, ◌++◌, [], ℕ, length, take, false, true, Ok, IfErr, OnErr, OnOk};
ghost use Rattle.std.specs.Str.{chars};
ghost use Rattle.std.specs.Io.KnownBytes.{Appends};
ghost use Rattle.sbl_semantics.specs.Limit.{max_word_length};
ghost use Rattle.sbl_machine.specs.MachineOf.{IsLinkedMachineOf};
ghost use Rattle.sbl_io.specs.Devices.{HasStopped, WritesInTime};
ghost use Rattle.sbl_ast.specs.Source.{Source};
ghost use Rattle.sbl_batch.specs.HeldRows.{WritesPart, word_line};
ghost use Rattle.sbl_batch.specs.LineWriter.{IsBetweenLines};

use crate::lines::{line_writer, push_line};
use csv::Writer;
use sbl_io::{ServeFault, Sink, TextBuffer, write_all};
use sbl_machine::{DEFAULT_LIMIT, Machine, Meter, Table};
use sbl_records::outcome_fields;
use std::alloc::{AllocError, Global};

/// Rows are written after a run if the runs since the last write took more steps than this.
const MOST_STEPS: u64 = 100_000;

/// Rows are written after a run if their text has more bytes than this.
const MOST_BYTES: usize = 65_536;

/// What makes the text of one row after another, and keeps it until it is written. It keeps its buffers from row to row. The run of a
/// word still allocates.
#[derive(Drop)]
pub(crate) struct RowWriter {
    /// The writer of the lines.
    pub(crate) lines: Writer<Vec<u8>>,
    // A buffer for the stem of a row.
    stem: TextBuffer,
    /// The text of the rows that are not written yet.
    pub(crate) text: Vec<u8>,
    // The steps of the runs since the last write.
    steps: u64,
    /// A buffer for the characters of a word.
    pub(crate) characters: Vec<char>,
}

impl RowWriter {
    /// Returns a writer of rows that has no row yet. Does not allocate.
    pub(crate) fn new(alloc: Global) -> RowWriter
        ensures between { IsBetweenLines result.lines }
        ensures none { result.text.items ≡ [] }
    {
        RowWriter {
            lines: line_writer(alloc),
            stem: TextBuffer::new(alloc),
            text: Vec::new(alloc),
            steps: 0,
            characters: Vec::new(alloc),
        }
    }

    /// Returns whether the rows are to be written: no whole line is held, so that a read may follow, or they took many steps or are many.
    pub(crate) fn is_due(&self, holds_line: bool) -> bool
        ensures { holds_line ≡ false → result ≡ true }
    {
        !holds_line || MOST_STEPS < self.steps || MOST_BYTES < self.text.len()
    }

    /// Writes the rows that are not written yet if `is_due`. Returns `Write` as `write_all` does; then a prefix of them is written, and
    /// the rest is forgotten.
    pub(crate) fn write_if<W: Sink>(
        &mut self,
        is_due: bool,
        writer: &mut W,
    ) -> Result<(), ServeFault>
        ensures part { OnOk result (WritesPart (W.held writer.old) (W.held writer.new) self.old.text.items self.new.text.items) }
        ensures all { OnOk result (is_due ≡ true → Appends (W.held writer.old) (W.held writer.new) self.old.text.items) }
        ensures prefix { (n : ℕ) × Appends (W.held writer.old) (W.held writer.new) (take n self.old.text.items) }
        ensures due { is_due ≡ true → self.new.text.items ≡ [] }
        ensures cut { OnErr result (self.new.text.items ≡ []) }
        ensures none { self.old.text.items ≡ [] → (result ≡ Ok tt) × (writer.new ≡ writer.old) }
        ensures lines { self.new.lines ≡ self.old.lines }
        ensures later { (W.tally writer.old).failures ≤ (W.tally writer.new).failures }
        ensures steady { OnOk result ((W.tally writer.new).failures ≡ (W.tally writer.old).failures) }
        ensures why { IfErr result (λ fault. (fault ≡ ServeFault.Write) × HasStopped W.tally writer.old writer.new) }
        ensures in_time { WritesInTime W.tally writer.old writer.new }
        ensures rested { OnOk result ((W.tally writer.old).interruptions ≡ 0 → (W.tally writer.new).interruptions ≡ 0) }
    {
        if !is_due {
            return Ok(());
        }
        self.steps = 0;
        if self.text.is_empty() {
            return Ok(());
        }
        let written = write_all(writer, &self.text);
        self.text.clear();
        written
    }

    /// Runs the script on a word of these characters, and appends the word's row to those that are not written yet. Returns
    /// `AllocError` if an allocation fails; the rows then stay.
    pub(crate) fn push_row(
        &mut self,
        machine: &Machine<Table>,
        meter: &mut Meter,
        word: &str,
        characters: &[char],
    ) -> Result<(), AllocError>
        requires is { characters.now ≡ chars word.now }
        requires fits { length characters.now ≤ max_word_length }
        requires between { IsBetweenLines self.old.lines }
        ensures row { (s : Source) → IsLinkedMachineOf machine.now s → OnOk result (self.new.text.items ≡ self.old.text.items ++ word_line s (chars word.now)) }
        ensures stays { OnErr result (self.new.text.items ≡ self.old.text.items) }
        ensures between { OnOk result (IsBetweenLines self.new.lines) }
    {
        let alloc = *self.text.allocator();
        // The lines of a reader are fewer than a meter counts, so the only error is a failed allocation.
        let Ok(end) = machine.run_untraced(alloc, meter, characters, DEFAULT_LIMIT) else {
            return Err(AllocError);
        };
        self.steps = self.steps.saturating_add(end.used);
        let (kind, text) = outcome_fields(&mut self.stem, &end.outcome)?;
        meter.reuse_stem(end.outcome);
        push_line(
            alloc,
            &mut self.lines,
            &mut self.text,
            word.as_bytes(),
            kind,
            text,
        )
    }
}

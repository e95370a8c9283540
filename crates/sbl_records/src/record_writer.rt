//! Rows that are written one after another, each as it comes.
ghost use Rattle.std.specs.Prelude.{◌≡◌, ◌∷◌, [], ℕ, List, IfOk, OnOk, map};
ghost use Rattle.sbl_records.specs.RowRecords as spec;
ghost use Rattle.sbl_io.specs.RecordsWritten.{HasWritten, Writes};
ghost use Rattle.sbl_rows.specs.Rows.{view_row};
ghost use Rattle.sbl_semantics.specs.Outcome.{outcome_of};

use csv::{Writer, WriterBuilder};
use sbl_io::TextBuffer;
use sbl_rows::Row;
use sbl_semantics::Outcome;
use std::alloc::{AllocError, Global};

/// A writer of rows, and the buffers in which one after another is made.
#[derive(Drop)]
pub struct RecordWriter {
    writer: Writer<Vec<u8>>,
    word: TextBuffer,
    stem: TextBuffer,
}

impl RecordWriter {
    /// Returns a writer that has written nothing. Does not allocate.
    pub fn new(alloc: Global) -> RecordWriter
        ensures { HasWritten result.writer [] }
    {
        RecordWriter::over(alloc, Vec::new(alloc))
    }

    /// Returns a writer that has written nothing, with room for this many bytes of text. Returns `AllocError` if an allocation fails.
    pub fn with_capacity(alloc: Global, bytes: usize) -> Result<RecordWriter, AllocError>
        ensures { IfOk result (λ writer. HasWritten writer.writer []) }
    {
        Ok(RecordWriter::over(alloc, Vec::with_capacity(alloc, bytes)?))
    }

    // Returns a writer that has written nothing, and writes to this text, which is empty.
    fn over(alloc: Global, text: Vec<u8>) -> RecordWriter
        requires { text.items ≡ [] }
        ensures { HasWritten result.writer [] }
    {
        RecordWriter {
            writer: WriterBuilder::new().flexible(true).from_writer(text),
            word: TextBuffer::new(alloc),
            stem: TextBuffer::new(alloc),
        }
    }

    /// Writes the record of a row. Returns `AllocError` if an allocation fails.
    #[tactic(auto, unfolding(crate::specs::RowRecords::row_fields))]
    pub fn push(&mut self, row: &Row<'_>) -> Result<(), AllocError>
        ensures { OnOk result (Writes (spec.row_fields (view_row row.now)) self.old.writer self.new.writer) }
    {
        let word = self.word.encode(row.word)?;
        let (kind, text) = outcome_fields(&mut self.stem, row.outcome)?;
        write_row(&mut self.writer, word, kind, text)
    }

    /// Returns the text of the records that were written. Returns `AllocError` if an allocation fails.
    pub fn into_text(self) -> Result<Vec<u8>, AllocError>
        ensures { (written : List ℕ) → HasWritten self.writer written → IfOk result (λ text. text.items ≡ written) }
    {
        match self.writer.into_inner() {
            Ok(text) => Ok(text),
            Err(_) => Err(AllocError),
        }
    }
}

/// Returns the fields of an outcome in a row: `stem` and the stem, or `refused` and the name of the fault. `text` is a buffer.
/// Returns `AllocError` if an allocation fails.
pub fn outcome_fields<'t>(
    text: &'t mut TextBuffer,
    outcome: &Outcome,
) -> Result<(&'static [u8], &'t [u8]), AllocError>
    ensures { IfOk result (λ p. p.0.now ∷ p.1.now ∷ [] ≡ spec.outcome_fields (outcome_of outcome.now)) }
{
    match outcome {
        Outcome::Stem(stem) => Ok((b"stem".as_slice(), text.encode(stem)?)),
        Outcome::Refused(fault) => Ok((b"refused".as_slice(), fault.name().as_bytes())),
    }
}

/// Writes a row: a word, and the fields of its outcome. Returns `AllocError` if an allocation fails.
fn write_row<'f>(
    writer: &mut Writer<Vec<u8>>,
    word: &'f [u8],
    kind: &'f [u8],
    text: &'f [u8],
) -> Result<(), AllocError>
    ensures { OnOk result (Writes (word.now ∷ kind.now ∷ text.now ∷ []) writer.old writer.new) }
{
    write_fields(writer, &[word, kind, text])
}

/// Writes a record of these fields. Returns `AllocError` if an allocation fails.
fn write_fields(writer: &mut Writer<Vec<u8>>, fields: &[&[u8]]) -> Result<(), AllocError>
    ensures { OnOk result (Writes (map (λ f. f.now) fields.now) writer.old writer.new) }
{
    if writer.write_fields(fields).is_err() {
        return Err(AllocError);
    }
    Ok(())
}

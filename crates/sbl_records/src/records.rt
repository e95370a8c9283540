//! The text of records.
ghost use Rattle.std.specs.Prelude.{◌≡◌, ◌++◌, ◌∷◌, [], ℕ, IfOk, List, OnOk, encode_utf8_all, map};
ghost use Rattle.csv.specs.Records.{fields_of, partial_of};
ghost use Rattle.sbl_rows.specs.Classes.{texts_of};
ghost use Rattle.sbl_io.specs.Records as spec;
ghost use Rattle.sbl_io.specs.Reports.{TakesMore};
ghost use Rattle.sbl_records.specs.Blank.{IsBlank};
ghost use Rattle.sbl_records.specs.RowRecords.{stem_fields};

use csv::ByteRecord;
use sbl_io::{Report, ReportLength, ReportText, push_text};
use std::alloc::{AllocError, Global};

/// A value that is written as one record.
pub trait Record {
    /// Its fields, as bytes.
    ghost fields: { Self → List (List ℕ) };

    /// Appends its fields to a blank record. `text` is a buffer. Returns `AllocError` if an allocation fails.
    fn fill(&self, text: &mut String, csv_record: &mut ByteRecord) -> Result<(), AllocError>
        requires { IsBlank csv_record.old }
        ensures { OnOk result (fields_of csv_record.new ≡ fields self.now) };
}

/// Returns the text of these records: for each a line with its fields, quoted as `csv` quotes them. The bytes are counted before memory
/// for them is asked for. Returns `AllocError` if an allocation fails.
pub fn records_text<T: Record>(alloc: Global, records: &[T]) -> Result<Vec<u8>, AllocError>
    ensures { IfOk result (λ text. text.items ≡ spec.records_text (map T.fields records.now)) }
{
    let mut length = ReportLength::new();
    push_records(alloc, &mut length, records)?;
    text_with_length(alloc, &length, records)
}

/// Returns the same text as `records_text`. The bytes are not counted before, so each record is made once, and memory grows with the text:
/// for a text that is hardly longer than what is kept already. Returns `AllocError` if an allocation fails.
pub fn records_text_in_one_pass<T: Record>(
    alloc: Global,
    records: &[T],
) -> Result<Vec<u8>, AllocError>
    ensures { IfOk result (λ text. text.items ≡ spec.records_text (map T.fields records.now)) }
{
    text_with_length(alloc, &ReportLength::new(), records)
}

/// Returns the text of records. Its memory is at first as long as `length` says. Returns `AllocError` if an allocation fails.
fn text_with_length<T: Record>(
    alloc: Global,
    length: &ReportLength,
    records: &[T],
) -> Result<Vec<u8>, AllocError>
    ensures { IfOk result (λ text. text.items ≡ spec.records_text (map T.fields records.now)) }
{
    let mut out = ReportText::with_length(alloc, length)?;
    push_records(alloc, &mut out, records)?;
    out.into_bytes()
}

/// Appends the lines of records. Returns `AllocError` if an allocation fails.
fn push_records<T: Record, R: Report>(
    alloc: Global,
    out: &mut R,
    records: &[T],
) -> Result<(), AllocError>
    ensures { OnOk result (TakesMore R.has_taken out.old out.new (spec.records_text (map T.fields records.now))) }
{
    let mut text = String::new(alloc);
    let mut csv_record = ByteRecord::new(alloc);
    for value in records {
        push_record(out, &mut text, &mut csv_record, value)?;
    }
    Ok(())
}

/// Appends the line of a value. `text` and `csv_record` are buffers. Returns `AllocError` if an allocation fails.
fn push_record<T: Record, R: Report>(
    out: &mut R,
    text: &mut String,
    csv_record: &mut ByteRecord,
    value: &T,
) -> Result<(), AllocError>
    ensures { OnOk result (TakesMore R.has_taken out.old out.new (spec.record_line (T.fields value.now))) }
{
    csv_record.clear();
    value.fill(text, csv_record)?;
    out.push(csv_record)
}

/// Appends texts to a record, each as one field. Returns `AllocError` if an allocation fails.
fn push_texts(
    text: &mut String,
    csv_record: &mut ByteRecord,
    texts: &[&[char]],
) -> Result<(), AllocError>
    requires { partial_of csv_record.old ≡ [] }
    ensures fields { OnOk result (fields_of csv_record.new ≡ fields_of csv_record.old ++ map encode_utf8_all (texts_of texts.now)) }
    ensures partial { OnOk result (partial_of csv_record.new ≡ []) }
{
    for characters in texts {
        push_text(text, csv_record, characters)?;
    }
    Ok(())
}

/// Appends a text and others to a record, each as one field. Returns `AllocError` if an allocation fails.
pub(crate) fn push_stem(
    text: &mut String,
    csv_record: &mut ByteRecord,
    stem: &[char],
    others: &[&[char]],
) -> Result<(), AllocError>
    requires { partial_of csv_record.old ≡ [] }
    ensures fields { OnOk result (fields_of csv_record.new ≡ fields_of csv_record.old ++ stem_fields stem.now (texts_of others.now)) }
    ensures partial { OnOk result (partial_of csv_record.new ≡ []) }
{
    push_text(text, csv_record, stem)?;
    push_texts(text, csv_record, others)
}

/// Appends a name, a text and others to a record, each as one field. Returns `AllocError` if an allocation fails.
pub(crate) fn push_named(
    text: &mut String,
    csv_record: &mut ByteRecord,
    name: &str,
    stem: &[char],
    others: &[&[char]],
) -> Result<(), AllocError>
    requires { partial_of csv_record.old ≡ [] }
    ensures fields { OnOk result (fields_of csv_record.new ≡ fields_of csv_record.old ++ name.now ∷ stem_fields stem.now (texts_of others.now)) }
    ensures partial { OnOk result (partial_of csv_record.new ≡ []) }
{
    csv_record.push_field(name.as_bytes())?;
    push_stem(text, csv_record, stem, others)
}

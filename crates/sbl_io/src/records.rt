//! The text of a record, written with `csv`.
ghost use Rattle.std.specs.Prelude.{◌≡◌, ◌++◌, [], ◌∷◌, IfOk, OnOk, decimal, string_bytes};
ghost use Rattle.std.specs.Str.{encode_utf8_all};
ghost use Rattle.csv.specs.Records.{fields_of, partial_of};
ghost use Rattle.sbl_io.specs.Records as spec;

use csv::{ByteRecord, WriterBuilder};
use std::alloc::{AllocError, Global};

/// Returns the characters as UTF-8. Returns `AllocError` if an allocation fails.
pub fn text_of(alloc: Global, characters: &[char]) -> Result<String, AllocError>
    ensures { IfOk result (λ text. string_bytes text ≡ encode_utf8_all characters.now) }
{
    let mut text = String::with_capacity(alloc, characters.len())?;
    set_text(&mut text, characters)?;
    Ok(text)
}

/// Replaces the text by these characters. Returns `AllocError` if an allocation fails.
fn set_text(text: &mut String, characters: &[char]) -> Result<(), AllocError>
    ensures { OnOk result (string_bytes text.new ≡ encode_utf8_all characters.now) }
{
    text.clear();
    for c in characters {
        text.push(*c)?;
    }
    Ok(())
}

/// Appends characters to a record, as one field. `text` is a buffer. Returns `AllocError` if an allocation fails.
pub fn push_text(
    text: &mut String,
    csv_record: &mut ByteRecord,
    characters: &[char],
) -> Result<(), AllocError>
    requires { partial_of csv_record.old ≡ [] }
    ensures fields { OnOk result (fields_of csv_record.new ≡ fields_of csv_record.old ++ encode_utf8_all characters.now ∷ []) }
    ensures partial { OnOk result (partial_of csv_record.new ≡ []) }
{
    let mut room = [0_u8; 64];
    let mut end = 0;
    for c in characters {
        let code = *c as u32;
        if (end == 64) | (code >= 0x80) {
            set_text(text, characters)?;
            return csv_record.push_field(text.as_bytes());
        }
        room[end] = code as u8;
        end += 1;
    }
    csv_record.push_field(&room[..end])
}

/// Appends two fields to a record. Returns `AllocError` if an allocation fails.
pub fn push_two(csv_record: &mut ByteRecord, first: &[u8], second: &[u8]) -> Result<(), AllocError>
    requires { partial_of csv_record.old ≡ [] }
    ensures fields { OnOk result (fields_of csv_record.new ≡ fields_of csv_record.old ++ first.now ∷ second.now ∷ []) }
    ensures partial { OnOk result (partial_of csv_record.new ≡ []) }
{
    csv_record.push_field(first)?;
    csv_record.push_field(second)
}

/// Appends a number to a record, as one field. Returns `AllocError` if an allocation fails.
pub fn push_number(
    alloc: Global,
    csv_record: &mut ByteRecord,
    number: usize,
) -> Result<(), AllocError>
    requires { partial_of csv_record.old ≡ [] }
    ensures fields { OnOk result (fields_of csv_record.new ≡ fields_of csv_record.old ++ decimal number ∷ []) }
    ensures partial { OnOk result (partial_of csv_record.new ≡ []) }
{
    let digits = format!(in alloc; "{number}")?;
    csv_record.push_field(digits.as_bytes())
}

/// Returns the text of one record: its fields, quoted if `csv` quotes them, and a line feed. Returns `AllocError` if an
/// allocation fails.
pub fn record_line(alloc: Global, row: &ByteRecord) -> Result<Vec<u8>, AllocError>
    ensures { IfOk result (λ text. text.items ≡ spec.record_line (fields_of row.now)) }
{
    let mut writer = WriterBuilder::new()
        .flexible(true)
        .from_writer(Vec::new(alloc));
    if writer.write_byte_record(row).is_err() {
        return Err(AllocError);
    }
    match writer.into_inner() {
        Ok(text) => Ok(text),
        Err(_) => Err(AllocError),
    }
}

/// Appends the text of one record. Returns `AllocError` if an allocation fails.
pub fn push_line(
    alloc: Global,
    out: &mut Vec<u8>,
    csv_record: &ByteRecord,
) -> Result<(), AllocError>
    ensures { OnOk result (out.new.items ≡ out.old.items ++ spec.record_line (fields_of csv_record.now)) }
{
    let line = record_line(alloc, csv_record)?;
    out.extend_from_slice(&line)
}

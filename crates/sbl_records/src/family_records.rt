//! The results of families as records.
ghost use Rattle.std.specs.Prelude.{◌≡◌, ◌++◌, [], OnOk};
ghost use Rattle.csv.specs.Records.{fields_of, partial_of};
ghost use Rattle.sbl_rows.specs.Families.{view_result};
ghost use Rattle.sbl_records.specs.FamilyRecords as spec;

use crate::records::{Record, push_named};
use csv::ByteRecord;
use sbl_rows::FamilyRow;
use std::alloc::AllocError;

/// Appends a number to a record, as one field of decimal digits that the allocator of the text has room for. Returns `AllocError`
/// if an allocation fails.
fn push_number(text: &String, csv_record: &mut ByteRecord, number: u128) -> Result<(), AllocError>
    requires { partial_of csv_record.old ≡ [] }
    ensures fields { OnOk result (fields_of csv_record.new ≡ fields_of csv_record.old ++ spec.number_field number) }
    ensures partial { OnOk result (partial_of csv_record.new ≡ []) }
{
    let digits = format!(in *text.allocator(); "{number}")?;
    csv_record.push_field(digits.as_bytes())
}

impl Record for FamilyRow<'_> {
    ghost fields = { λ row. spec.result_fields (view_result row) };

    fn fill(&self, text: &mut String, csv_record: &mut ByteRecord) -> Result<(), AllocError> {
        match self {
            FamilyRow::Under { word, stems } => {
                push_named(text, csv_record, "under", word, stems)
            }
            FamilyRow::Over(class) => {
                push_named(text, csv_record, "over", class.stem, &class.members)
            }
            FamilyRow::Pairs(pairs) => {
                csv_record.push_field(b"pairs")?;
                push_number(text, csv_record, pairs.within)?;
                push_number(text, csv_record, pairs.apart)?;
                push_number(text, csv_record, pairs.across)?;
                push_number(text, csv_record, pairs.joined)
            }
            FamilyRow::Unknown(number) => {
                csv_record.push_field(b"unknown")?;
                push_number(text, csv_record, *number as u128)
            }
        }
    }
}

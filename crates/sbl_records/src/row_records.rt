//! Rows and classes as records.
ghost use Rattle.std.specs.Prelude.{◌≡◌, ◌++◌, [], OnOk, map};
ghost use Rattle.std.specs.Str.{encode_utf8_all};
ghost use Rattle.csv.specs.Records.{fields_of, partial_of};
ghost use Rattle.sbl_records.specs.RowRecords as spec;
ghost use Rattle.sbl_rows.specs.Classes.{view_class, view_stem_class, words_of};
ghost use Rattle.sbl_rows.specs.Rows.{view_row};
ghost use Rattle.sbl_semantics.specs.Outcome.{outcome_of};

use crate::records::{Record, push_stem};
use csv::ByteRecord;
use sbl_io::push_text;
use sbl_rows::{Class, Row, StemClass};
use sbl_semantics::Outcome;
use std::alloc::{AllocError, Global};

impl Record for Row<'_> {
    ghost fields = { λ row. spec.row_fields (view_row row) };

    #[tactic(auto, unfolding(crate::specs::RowRecords::row_fields))]
    fn fill(&self, text: &mut String, csv_record: &mut ByteRecord) -> Result<(), AllocError> {
        push_text(text, csv_record, self.word)?;
        push_outcome(text, csv_record, self.outcome)
    }
}

impl Record for Class {
    ghost fields = { λ class. spec.class_fields (view_class class) };

    #[tactic(auto, unfolding(crate::specs::RowRecords::class_fields))]
    fn fill(&self, text: &mut String, csv_record: &mut ByteRecord) -> Result<(), AllocError> {
        push_text(text, csv_record, &self.stem)?;
        push_words(text, csv_record, &self.words)
    }
}

impl Record for StemClass<'_> {
    ghost fields = { λ class. spec.class_fields (view_stem_class class) };

    #[tactic(auto, unfolding(crate::specs::RowRecords::class_fields))]
    fn fill(&self, text: &mut String, csv_record: &mut ByteRecord) -> Result<(), AllocError> {
        push_stem(text, csv_record, self.stem, &self.members)
    }
}

/// Appends an outcome to a record, as two fields. Returns `AllocError` if an allocation fails.
pub(crate) fn push_outcome(
    text: &mut String,
    csv_record: &mut ByteRecord,
    outcome: &Outcome,
) -> Result<(), AllocError>
    requires { partial_of csv_record.old ≡ [] }
    ensures fields { OnOk result (fields_of csv_record.new ≡ fields_of csv_record.old ++ spec.outcome_fields (outcome_of outcome.now)) }
    ensures partial { OnOk result (partial_of csv_record.new ≡ []) }
{
    match outcome {
        Outcome::Stem(stem) => {
            csv_record.push_field(b"stem")?;
            push_text(text, csv_record, stem.as_slice())
        }
        Outcome::Refused(fault) => {
            csv_record.push_field(b"refused")?;
            csv_record.push_field(fault.name().as_bytes())
        }
    }
}

/// Appends words to a record, each as one field. Returns `AllocError` if an allocation fails.
fn push_words(
    text: &mut String,
    csv_record: &mut ByteRecord,
    words: &[Vec<char>],
) -> Result<(), AllocError>
    requires { partial_of csv_record.old ≡ [] }
    ensures { OnOk result (fields_of csv_record.new ≡ fields_of csv_record.old ++ map encode_utf8_all (words_of words.now)) }
{
    for word in words {
        push_text(text, csv_record, word)?;
    }
    Ok(())
}

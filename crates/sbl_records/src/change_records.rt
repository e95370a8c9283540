//! Changes as records.
ghost use Rattle.std.specs.Prelude.{◌≡◌, ◌++◌, [], OnOk};
ghost use Rattle.csv.specs.Records.{fields_of, partial_of};
ghost use Rattle.sbl_rows.specs.Changes.{view_change};
ghost use Rattle.sbl_records.specs.ChangeRecords as spec;

use crate::records::{Record, push_named};
use crate::row_records::push_outcome;
use csv::ByteRecord;
use sbl_rows::ChangeRow;
use std::alloc::AllocError;

impl Record for ChangeRow<'_> {
    ghost fields = { λ change. spec.change_fields (view_change change) };

    fn fill(&self, text: &mut String, csv_record: &mut ByteRecord) -> Result<(), AllocError> {
        match self {
            ChangeRow::Added(word) => push_named(text, csv_record, "added", word, &[]),
            ChangeRow::Removed(word) => push_named(text, csv_record, "removed", word, &[]),
            ChangeRow::Changed {
                word,
                before,
                after,
            } => {
                push_named(text, csv_record, "changed", word, &[])?;
                push_outcome(text, csv_record, *before)?;
                push_outcome(text, csv_record, *after)
            }
            ChangeRow::Split(class) => {
                push_named(text, csv_record, "split", class.stem, &class.members)
            }
            ChangeRow::Merged(class) => {
                push_named(text, csv_record, "merged", class.stem, &class.members)
            }
            ChangeRow::Renamed { from, to } => {
                push_named(text, csv_record, "renamed", from, &[*to])
            }
        }
    }
}

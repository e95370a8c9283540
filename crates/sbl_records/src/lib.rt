//! The records of rows, classes, items, changes and families, and the text of records.
#![tactic(auto)]

mod change_records;
mod family_records;
mod item_records;
mod record_writer;
mod records;
mod row_records;

pub use record_writer::{RecordWriter, outcome_fields};
pub use records::{Record, records_text, records_text_in_one_pass};

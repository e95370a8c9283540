//! What the tests of several crates share: scripts, tables that are texts, readers and writers.
#![tactic(auto)]

mod devices;
mod scripts;
mod tables;

pub use devices::{Pieces, SameBytes, WriteLog, bytes_of, in_pieces, outputs_within};
pub use scripts::{PLURALS, PORTER, PREFIXES, SCRIPT_PREFIX, discard};
pub use tables::{
    field, fits, is_as_row, letters, number, print_values, text_of, with_line_feeds, with_scripts,
};

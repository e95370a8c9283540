//! Rows, each a word with the outcome of its run, and the conflation classes of rows. What two lists of rows have different. Reports on
//! one list: figures, the largest classes, and how far stems agree with families of words.
#![tactic(auto)]

mod change;
mod changed_row;
mod class;
mod class_changes;
mod compare;
mod counted_words;
mod family_pairs;
mod family_report;
mod family_rows;
mod figures;
mod largest;
pub mod laws;
mod lists;
mod moves;
mod outcomes;
mod pairs;
mod row;
mod stem_class;
mod unknown_words;
mod words;

pub use change::ChangeRow;
pub use changed_row::{ChangedRow, is_same};
pub use class::{Class, classes_among, words_among};
pub use compare::changes;
pub use family_report::{FamilyRow, PairCounts, families};
pub use figures::{RowStats, stats};
pub use largest::largest_classes;
pub use pairs::{Pairs, follow_one, insert_pair, remove_key};
pub use row::Row;
pub use stem_class::StemClass;

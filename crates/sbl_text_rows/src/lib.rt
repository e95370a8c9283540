//! Rows on the text of a script: its tokens and comments, the places of definitions, amongs, their strings and names, and its faults.
#![tactic(auto)]

mod comments;
mod extents;
mod fault_rows;
mod fields;
mod places;
mod rulers;
mod token_rows;
mod walks;

pub use fault_rows::{FaultRow, faults_text};
pub use places::places_text;
pub use token_rows::tokens_text;

//! A vocabulary with the result of a script for each of its words, kept up to date under edits.
//!
//! You open a [`Bench`] with a script and a list of words. At any time, each row holds the outcome of a fresh run of the script
//! on the row's word.
#![tactic(auto)]

mod affected_words;
mod bench;
mod break_off;
mod change;
mod changed_row;
mod class;
mod edit;
mod fault;
mod fresh_run;
pub mod laws;
mod meeting_rows;
mod open;
mod progress;
mod refusal;
mod replace_words;
mod script_diff;
mod traces;

pub use bench::{Bench, MAX_LIMIT, MAX_WORDS};
pub use break_off::{BreakOff, NeverBreak};
pub use fault::EditFault;
pub use progress::{NoProgress, Progress};
pub use refusal::word_fault;
pub use sbl_last_runs::{WordHasher, WordKeys};
pub use sbl_rows::{ChangedRow, Class, Row};
pub use sbl_run_state::MAX_WORD_LENGTH;
pub use sbl_script::ScriptFault;
pub use script_diff::differences;

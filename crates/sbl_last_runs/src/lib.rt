//! Words, each with its last run: what a run gives, the lists of touches that runs share, the runs that an edit exchanges, and the
//! pairs of a stem and a word that has it. Nothing here runs a script.
#![tactic(auto)]

mod change;
mod changed_row;
mod last_run;
mod pairs;
mod run_trace;
mod stem_words;
mod traces;
mod word_hash;

pub use change::{RunChange, make_changes};
pub use changed_row::changes_of;
pub use last_run::{LastRun, SharedLists};
pub use pairs::{follow, follow_new, follow_old, pairs_of};
pub use run_trace::RunTrace;
pub use stem_words::words_of_stem;
pub use traces::{Traces, words_are_unique};
pub use word_hash::{WordHasher, WordKeys};

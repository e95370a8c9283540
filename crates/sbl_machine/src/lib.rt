//! The machine that runs Snowball scripts, and what a run does to a word, step by step.
#![tactic(auto)]

mod among_list;
mod groupings_built;
mod item_ref;
pub mod laws;
mod limit;
mod machine;
mod marks;
mod meter;
mod naming;
mod outcome;
mod run_stop;

pub use item_ref::ItemRef;
pub use limit::DEFAULT_LIMIT;
pub use machine::Machine;
pub use meter::Meter;
pub use outcome::{Ran, RunEnd, Why};
pub use run_stop::RunStop;
pub use sbl_last_runs::RunTrace;
pub use sbl_program::{AmongSearch, LinkedTable, PlainTable};
pub use sbl_run_state::TouchLog;
pub use sbl_script::ScriptFault;
pub use sbl_semantics::{Event, Item, Outcome, RunFault, Touch};

/// The tables that a program searches.
pub type Table = LinkedTable;

//! The state of a run: what each command does to it, what a run costs, and what it touches.
#![tactic(auto)]

mod choices;
mod halt;
mod slots;
mod state;
mod table;
mod touches;

pub use halt::Halt;
pub use sbl_semantics::{Event, RunFault, Touch};
pub use state::numbers::count_of;
pub use state::{MAX_WORD_LENGTH, State};
pub use table::{TableList, Tables, tables_of};
pub use touches::TouchLog;

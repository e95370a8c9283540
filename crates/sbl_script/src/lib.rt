//! Snowball scripts that have passed all checks.
#![tactic(auto)]

mod edit_fault;
mod edits;
pub mod laws;
mod part;
mod script;

pub use edit_fault::EditFault;
pub use part::Part;
pub use sbl_ast as tree;
pub use sbl_ast::{Among, Command, Grouping, Mode, Plain, RowOfCommands, ScriptItem, Term};
pub use sbl_text::ScriptFault;
pub use script::{MAX_SCRIPT, Script};

//! Sessions over a bench. A reader gives commands, and the replies go to a writer.
#![tactic(auto)]

pub mod laws;
mod replies;
mod reports;
mod serving;
mod session_commands;
mod session_edits;
mod watching;

pub use replies::{BAD_COMMAND, Reply, edit_text, report, write_reply};
pub use serving::{answer_line, answer_line_or_break, serve, serve_watched};
pub use session_commands::{asks_block, keep_line, number_in, part_of};
pub use watching::{NoWatch, RefusedEdit, Watch};

//! A desk: what is kept beside a bench at work, so that its edits can be undone and redone, and its rows compared with those at a
//! mark. The reports of what changed since then.
#![tactic(auto)]

mod breaking;
mod change_reports;
mod desk;
mod few;
mod history;
mod kinds;
mod line_ends;
mod listing;
mod marks;
mod noted;
mod refused;
mod splice;
mod steps;
mod text_set;
mod unlike;

pub use change_reports::{change_figures_text, changes_text, first_changes_text};
pub use desk::Desk;
pub use history::HistoryFault;
pub use line_ends::{has_crlf, push_crlf};
pub use refused::{HeldPart, Refused};

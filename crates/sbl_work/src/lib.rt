//! Work on a script and a vocabulary: the commands of a session, whole scripts, and edits that are undone and redone.
#![tactic(auto)]

mod answers;
mod appending;
mod change_replies;
mod fault_replies;
mod files;
mod folder;
pub mod laws;
mod lookups;
mod observing;
mod parts;
mod refusals;
mod replies;
mod requests;
mod script_files;
mod serving;
mod stem_files;
mod stopping;
mod text_replies;
mod whys;
mod word_files;

pub use files::Paths;
pub use observing::{NoObserver, Observer, RefusedSource};
pub use serving::work;

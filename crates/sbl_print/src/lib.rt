//! The printer: the canonical text of a script.
#![tactic(auto)]

mod arithmetic;
mod commands;
mod items;
pub mod laws;
mod tokens;
mod words;

pub use items::canonical_text;

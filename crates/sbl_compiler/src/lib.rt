//! The compiler: makes the program of a script.
#![tactic(auto)]

mod amongs;
mod classes;
mod commands;
mod compiler;
pub mod laws;
mod name_list;
mod names;
mod numbers;
mod place;
mod program;
mod searches;

pub use name_list::NameList;
pub use program::{Compilation, compile_items};

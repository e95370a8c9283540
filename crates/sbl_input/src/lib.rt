//! Loads a bench, or its rows alone, from the script block and the words of an input.
#![tactic(auto)]

mod faults;
mod file_words;
pub mod laws;
mod loading;
mod vocabulary_rows;
mod word_list;

pub use faults::LoadFault;
pub use file_words::{text_line, without_mark, words_in};
pub use loading::{load, load_observed, load_rows, load_with_keys, read_script};

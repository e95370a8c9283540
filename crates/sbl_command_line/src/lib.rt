//! The command line of the program: its subcommands, files and flags, and what a list of words asks for.
#![tactic(auto)]

mod command_line;

pub use command_line::{Face, Options, Verb, Wanted, read_words};

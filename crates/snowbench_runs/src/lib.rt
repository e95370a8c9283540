//! The verbs of the program, but for `work`, over files and over standard input: which files are read, what is run of them, and the exit status.
#![tactic(auto)]

mod command_words;
mod comparisons;
mod failures;
mod file_runs;
mod files;
mod lists;
mod progress_line;
mod session_watch;
mod standard_input;
mod verbs;

pub use command_words::read_command_line;
pub use failures::print_failure;
pub use verbs::run_verb;

//! The program over readers and writers: sessions, the stems of a vocabulary, and the comparison of stems with the expected stems.
#![tactic(auto)]

mod file_filter;
mod file_runs;
pub mod laws;
mod listing;
mod program;
mod script_files;

pub use file_filter::filter_file;
pub use file_runs::{check_files, run_files, stem_files};
pub use listing::{ListKind, list_files};
pub use program::{answer, run, run_with};
pub use sbl_batch::check;
pub use sbl_bench::{NoProgress, Progress, WordKeys};
pub use sbl_command_line::{Face, Options, Verb, Wanted, read_words};
pub use sbl_input::{LoadFault, load, load_with_keys};
pub use sbl_io::{Device, Lines, ServeFault, Sink, Source, Stop};
pub use sbl_reports::ListForm;
pub use sbl_script::ScriptFault;
pub use sbl_sessions::{NoWatch, RefusedEdit, Reply, Watch, serve};
pub use script_files::{FileFault, FilesFault, FilesInput, long_line, overlong_line, script_text};

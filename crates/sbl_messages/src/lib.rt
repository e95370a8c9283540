//! What people read about runs: the faults of files and of standard input, comparisons in words, and counts.
#![tactic(auto)]

mod blocks;
mod compared_words;
mod comparison_texts;
mod counts;
mod failures;
mod fault_texts;
mod list_forms;
mod refused_texts;
mod run_files;
mod streams;

pub use comparison_texts::{compare_failure, words_of_pair};
pub use counts::{counts_text, milliseconds_in, progress_text, same_count};
pub use failures::{FAILED, Failure, NO_KEYS, REFUSED, plain, strict_status};
pub use fault_texts::{hint, input_failure};
pub use list_forms::{NO_COMMANDS, NO_FORM, NO_STEMS, left_out_text, list_kind};
pub use refused_texts::{lines_before, refused_block_text, refused_edit_text, refused_script_text};
pub use run_files::{
    FileNames, NamedFile, RunFiles, file_name, files_failure, reads_twice, refuse_twice,
    unread_failure, unread_input_failure,
};
pub use streams::{FirstBytes, FirstBytesReader, Output};

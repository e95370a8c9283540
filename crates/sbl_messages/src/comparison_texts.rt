//! `compare` for people: its result in words, and its faults.

use crate::compared_words::comparison_words;
use crate::failures::{Failure, plain};
use crate::fault_texts::{fault_of_script, words_fault_text};
use crate::run_files::RunFiles;
use sbl_batch::{BenchPair, CompareFault, CompareInput, compare};
use std::alloc::{AllocError, Global};

/// Returns the comparison of two benches in words, without characters that a terminal obeys, and the number of words that
/// changed. Returns `AllocError` if an allocation fails.
pub fn words_of_pair(
    alloc: Global,
    files: &RunFiles<'_>,
    pair: &BenchPair,
) -> Result<(String, usize), AllocError> {
    let comparison = compare(alloc, &pair.old, &pair.new)?;
    let text = comparison_words(alloc, files.script.name, files.rest.name, &comparison);
    Ok((plain(text)?, comparison.changed))
}

/// Returns the failure of a comparison of files. `is_closed` is whether the reader of the output has closed it.
pub fn compare_failure(
    alloc: Global,
    files: &RunFiles<'_>,
    input: &CompareInput<'_>,
    fault: CompareFault,
    is_closed: bool,
) -> Failure {
    let text = match fault {
        CompareFault::Old(fault) => {
            fault_of_script(alloc, files.script.name, input.old, input.external, fault)
        }
        CompareFault::New(fault) => {
            fault_of_script(alloc, files.rest.name, input.new, input.external, fault)
        }
        CompareFault::Words(fault) => words_fault_text(alloc, files.words.name, input.words, fault),
        CompareFault::Rows(_) => Ok(None),
    };
    Failure::of_fault(fault.cause(), is_closed, text)
}

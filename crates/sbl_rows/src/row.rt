//! A row: a word and the outcome of its run.

use sbl_semantics::Outcome;

/// A word of the vocabulary, and its outcome.
#[derive(Drop)]
pub struct Row<'a> {
    /// The word's characters.
    pub word: &'a [char],
    /// Its stem, or the fault of its run.
    pub outcome: &'a Outcome,
}

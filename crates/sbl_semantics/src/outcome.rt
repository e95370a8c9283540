//! The outcome of a run.

use crate::fault::RunFault;

/// The outcome of a run of a script on a word.
#[derive(Debug, Drop, PartialEq, Eq)]
pub enum Outcome {
    /// The stem of the word: the text when the external ends.
    Stem(Vec<char>),
    /// The run was refused.
    Refused(RunFault),
}

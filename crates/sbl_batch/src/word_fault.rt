//! Why the rows of words end before the words do.

use sbl_input::LoadFault;

/// A fault of a word, and the line of the word.
#[derive(Clone, Copy, Debug, PartialEq, Eq, Drop)]
pub struct WordFault {
    /// The number of the line among the lines of words, from 1. The greatest is 18,446,744,073,709,551,615, also for a later line.
    pub line: u64,
    /// The fault.
    pub fault: LoadFault,
}

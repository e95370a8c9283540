//! An among as it is found in a script; its table is built from this.

use crate::node::Candidate;
use sbl_ast::Mode;

/// An among.
#[derive(Drop)]
pub struct AmongStrings {
    /// Its number in its routine.
    pub number: usize,
    /// The mode at its position.
    pub mode: Mode,
    /// Its strings.
    pub strings: Vec<Vec<char>>,
    /// The candidate of each string.
    pub entries: Vec<Candidate>,
}

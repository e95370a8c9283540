//! The files of work, and what is known of them.

use crate::appending::Added;
use crate::files::Paths;
use crate::observing::RefusedSource;
use sbl_explain::KeptTakes;

/// The files of work, and what is known of them between requests.
#[derive(Drop)]
pub(crate) struct Folder<'a, F> {
    /// The files themselves.
    pub(crate) files: &'a F,
    /// Their names.
    pub(crate) paths: &'a Paths,
    /// The bytes that were read last from the file of the script.
    pub(crate) seen: Vec<u8>,
    /// The words that were added.
    pub(crate) added: Added,
    /// What is kept for questions about uses.
    pub(crate) kept: KeptTakes,
    /// The text that the last request was refused for.
    pub(crate) refused: Option<RefusedSource>,
}

//! Who sees the texts that are refused.

use sbl_bench::{Bench, EditFault};
use std::alloc::Global;

/// A text that an edit of the script was refused for.
#[derive(Drop)]
pub enum RefusedSource {
    /// Of a file that was to replace the whole script.
    File {
        /// The name of the file.
        path: String,
        /// What was read from it.
        text: Vec<u8>,
    },
    /// Of a block.
    Block {
        /// The line before the block.
        line: String,
        /// Its lines, each with a line feed.
        text: Vec<u8>,
    },
}

/// Sees what work refuses. It reads and writes nothing of the work itself.
pub trait Observer {
    /// Is called if work does not begin since the script is refused, after the line on the fault.
    fn see_start(&mut self, text: &[u8]);

    /// Is called after the reply to an edit that is refused for its text, before the prompt and the next line.
    fn see_refused(&mut self, bench: &Bench, refused: &RefusedSource);
}

/// Sees nothing.
#[derive(Drop)]
pub struct NoObserver {}

impl Observer for NoObserver {
    fn see_start(&mut self, _text: &[u8]) {}

    fn see_refused(&mut self, _bench: &Bench, _refused: &RefusedSource) {}
}

/// Returns whether the fault of an edit is one of its text.
fn is_of_text(edited: Result<(), EditFault>) -> bool {
    matches!(
        edited,
        Err(EditFault::Script(_)) | Err(EditFault::AmongCount)
    )
}

/// The line before a block, or the name of a file.
#[derive(Clone, Copy)]
pub(crate) enum Origin<'a> {
    Block(&'a str),
    File(&'a str),
}

/// Returns a text and where it is from, if the edit was refused for it; `None` also if an allocation fails.
fn refused_source(
    alloc: Global,
    origin: Origin<'_>,
    text: &[u8],
    edited: Result<(), EditFault>,
) -> Option<RefusedSource> {
    if !is_of_text(edited) {
        return None;
    }
    let name = match origin {
        Origin::Block(line) => line,
        Origin::File(path) => path,
    };
    match (
        origin,
        String::from_str(alloc, name),
        Vec::from_slice(alloc, text),
    ) {
        (Origin::Block(_), Ok(line), Ok(text)) => Some(RefusedSource::Block { line, text }),
        (Origin::File(_), Ok(path), Ok(text)) => Some(RefusedSource::File { path, text }),
        _ => None,
    }
}

/// An edit by a text: where the text is from, and what keeps it if the edit is refused for it.
#[derive(Drop)]
pub(crate) struct Attempt<'a> {
    pub(crate) alloc: Global,
    pub(crate) origin: Origin<'a>,
    pub(crate) refused: &'a mut Option<RefusedSource>,
}

impl Attempt<'_> {
    /// Notes what came of the edit by this text.
    pub(crate) fn note(self, text: &[u8], edited: Result<(), EditFault>) {
        *self.refused = refused_source(self.alloc, self.origin, text, edited);
    }
}

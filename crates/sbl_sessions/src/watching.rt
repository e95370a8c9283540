//! Watching a session: a watch sees each reply, and each edit that the session refuses.

use crate::replies::Reply;
use sbl_bench::{Bench, EditFault, Progress};

/// An edit of the script that was refused.
#[derive(Drop)]
pub struct RefusedEdit {
    /// The line that asks for it.
    pub line: String,
    /// The text of its block: each line with a line feed.
    pub text: Vec<u8>,
    /// Why it was refused.
    pub fault: EditFault,
}

/// Sees what happens in a session. It reads and writes nothing of the session itself.
pub trait Watch {
    /// Is called before the first command.
    fn begin(&mut self, bench: &Bench);

    /// Is called after each reply, before the next line is read.
    fn see_reply(&mut self, reply: &Reply);

    /// Is called after the reply to an edit that is refused, before the next line is read. `row` is the number of lines of the
    /// session up to the line that asks for the edit.
    fn see_refused(&mut self, bench: &Bench, edit: &RefusedEdit, row: u64);
}

/// Sees nothing.
#[derive(Drop)]
pub struct NoWatch {}

impl Watch for NoWatch {
    fn begin(&mut self, _bench: &Bench) {}

    fn see_reply(&mut self, _reply: &Reply) {}

    fn see_refused(&mut self, _bench: &Bench, _edit: &RefusedEdit, _row: u64) {}
}

impl Progress for NoWatch {
    #[inline(always)]
    fn see_words(&mut self, _words: u64) {}

    #[inline(always)]
    fn see_end(&mut self) {}
}

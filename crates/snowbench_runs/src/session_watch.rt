//! What a session refuses: how often, and the places of faults, on standard error.

use crate::failures::print_if_any;
use crate::progress_line::ProgressLine;
use sbl_bench::{Bench, Progress};
use sbl_messages::{FirstBytes, lines_before, refused_edit_text};
use snowbench::{RefusedEdit, Reply, Wanted, Watch};
use std::cell::RefCell;

/// Counts the replies of a session that refuse something. If places are shown, prints what is wrong with each block that is refused for its
/// text, and shows how many words were run before the session.
#[derive(Drop)]
pub(crate) struct PlaceWatch<'a> {
    rt: &'a HostRuntime,
    external: &'a str,
    /// The name of the text in which the commands are.
    input: &'a str,
    /// The first bytes of this text, if it begins with the script and the words.
    kept: Option<&'a RefCell<FirstBytes>>,
    /// The number of its lines before the commands.
    lines_before: u64,
    progress: ProgressLine<'a>,
    shows_places: bool,
    refusals: u64,
}

impl<'a> PlaceWatch<'a> {
    /// Returns the watch before the session. Places in a file are always shown.
    pub(crate) fn new(
        rt: &'a HostRuntime,
        wanted: &'a Wanted,
        input: &'a str,
        kept: Option<&'a RefCell<FirstBytes>>,
    ) -> PlaceWatch<'a> {
        PlaceWatch {
            rt,
            external: wanted.external.as_str(),
            input,
            kept,
            lines_before: 0,
            progress: ProgressLine::new(rt, wanted.verb),
            shows_places: wanted.options.shows_places || kept.is_none(),
            refusals: 0,
        }
    }

    /// Returns how many replies refused something.
    pub(crate) fn refusals(&self) -> u64 {
        self.refusals
    }
}

impl Watch for PlaceWatch<'_> {
    fn begin(&mut self, bench: &Bench) {
        if let Some(kept) = self.kept {
            if let Ok(kept) = kept.try_borrow() {
                self.lines_before = lines_before(kept.bytes(), bench);
            }
        }
    }

    fn see_reply(&mut self, reply: &Reply) {
        if reply.is_refusal() {
            self.refusals = self.refusals.saturating_add(1);
        }
    }

    fn see_refused(&mut self, bench: &Bench, edit: &RefusedEdit, row: u64) {
        if self.shows_places {
            let (alloc, external, input) = (self.rt.alloc(), self.external, self.input);
            let line = self.lines_before.saturating_add(row).saturating_add(1);
            let text = refused_edit_text(alloc, bench, edit, external, input, line);
            print_if_any(self.rt, text);
        }
    }
}

impl Progress for PlaceWatch<'_> {
    fn see_words(&mut self, words: u64) {
        if self.shows_places {
            self.progress.see_words(words);
        }
    }

    fn see_end(&mut self) {
        self.progress.see_end();
    }
}

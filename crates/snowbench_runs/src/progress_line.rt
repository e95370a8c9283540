//! How far a long run over words is, on standard error at a terminal.

use sbl_bench::Progress;
use sbl_messages::{milliseconds_in, progress_text};
use snowbench::Verb;
use std::io::IsTerminal;
use std::time::Instant;

/// How many milliseconds a run takes before a line is shown.
const FIRST_LINE: u64 = 2_000;

/// How many milliseconds a line stays.
const NEXT_LINE: u64 = 250;

/// After how many words the clock is read.
const WORDS_A_LOOK: u64 = 64;

/// Shows how many words were run and how many a second, if that takes more than two seconds. Each line overwrites the one before, and
/// at the end the last one is cleared.
#[derive(Drop)]
pub(crate) struct ProgressLine<'a> {
    rt: &'a HostRuntime,
    shows_lines: bool,
    begin: Option<Instant>,
    /// When the next line is due, in milliseconds after the beginning.
    due: u64,
}

impl<'a> ProgressLine<'a> {
    /// Returns the line of a run. Nothing is shown if standard error is not a terminal, nor if `check` writes its rows to a terminal, since it
    /// writes them while it runs the words.
    pub(crate) fn new(rt: &'a HostRuntime, verb: Verb) -> ProgressLine<'a> {
        let mixes = verb == Verb::Check && rt.stdout().is_terminal();
        let shows_lines = rt.stderr().is_terminal() && !mixes;
        ProgressLine {
            rt,
            shows_lines,
            begin: None,
            due: FIRST_LINE,
        }
    }

    /// Returns how many milliseconds the run has taken; 0 if the clock cannot be read.
    fn milliseconds(&mut self) -> u64 {
        let Ok(now) = Instant::now(self.rt) else {
            return 0;
        };
        match self.begin {
            Some(begin) => milliseconds_in(now.saturating_duration_since(begin)),
            None => {
                self.begin = Some(now);
                0
            }
        }
    }

    /// Shows the line if it is due.
    fn look(&mut self, words: u64) {
        let milliseconds = self.milliseconds();
        if milliseconds < self.due {
            return;
        }
        self.due = milliseconds.saturating_add(NEXT_LINE);
        // If there is no memory for it, nothing is shown.
        if let Ok(text) = progress_text(self.rt.alloc(), words, milliseconds) {
            let _ = eprint!(self.rt; "\r{text}\u{1b}[K");
        }
    }
}

impl Progress for ProgressLine<'_> {
    fn see_words(&mut self, words: u64) {
        if self.shows_lines && words % WORDS_A_LOOK == 0 {
            self.look(words);
        }
    }

    fn see_end(&mut self) {
        if self.due > FIRST_LINE {
            let _ = eprint!(self.rt; "\r\u{1b}[K");
        }
        self.begin = None;
        self.due = FIRST_LINE;
    }
}

//! A count of runs.

ghost use Rattle.std.specs.Prelude.{◌≡◌, ◌+◌, ◌<◌, IsTrue, false, ◌↔◌};

use sbl_run_state::{State, Touch};
use sbl_semantics::Outcome;
use std::alloc::Global;
use std::marker::Model;

/// Counts runs, and keeps the buffers of the last run for the next.
#[derive(Drop)]
pub struct Meter {
    runs: u64,
    // The state of the last run. The next run begins in its buffers.
    pub(crate) state: Option<State>,
    // A list of touches that was given back. The next run that returns touches puts them into it.
    touches: Option<Vec<Touch>>,
    // A stem that was given back. The next run puts its stem into it.
    stem: Option<Vec<char>>,
}

impl Model for Meter {
    ghost use Rattle.std.specs.Prelude.{ℕ};

    ghost Value = { ℕ };

    ghost view = { λ m. m.runs };
}

impl Meter {
    /// Returns a meter with count 0.
    pub fn new() -> Meter
        ensures { result ≡ 0 }
    {
        Meter {
            runs: 0,
            state: None,
            touches: None,
            stem: None,
        }
    }

    /// Returns the number of runs.
    pub fn count(&self) -> u64
        ensures { result ≡ self.now }
    {
        self.runs
    }

    /// Whether the count is `u64::MAX`, so that the meter cannot count another run.
    pub fn is_full(&self) -> bool
        ensures at_end { IsTrue result ↔ (self.now ≡ u64.MAX) }
        ensures room { result ≡ false → self.now < u64.MAX }
    {
        self.count() == u64::MAX
    }

    /// Gives back a list of touches, so that the next run that returns touches needs no new one. The count stays. Does not allocate.
    pub fn reuse(&mut self, touches: Vec<Touch>)
        ensures { self.new ≡ self.old }
    {
        self.touches = Some(touches);
    }

    /// Gives back a stem, so that the next run needs no new one. The count stays. Does not allocate.
    pub fn reuse_stem(&mut self, outcome: Outcome)
        ensures { self.new ≡ self.old }
    {
        if let Outcome::Stem(stem) = outcome {
            self.stem = Some(stem);
        }
    }

    /// Returns the list of touches that was given back, or a new one.
    pub(crate) fn take_touches(&mut self, alloc: Global) -> Vec<Touch>
        ensures { self.new ≡ self.old }
    {
        list_or_new(alloc, self.touches.take())
    }

    /// Returns the stem that was given back, or a new one.
    pub(crate) fn take_stem(&mut self, alloc: Global) -> Vec<char>
        ensures { self.new ≡ self.old }
    {
        list_or_new(alloc, self.stem.take())
    }

    /// Adds one to the count.
    pub(crate) fn count_run(&mut self)
        requires { self.old < u64.MAX }
        ensures { self.new ≡ self.old + 1 }
    {
        let Meter { runs, .. } = self;
        *runs += 1;
    }
}

/// Returns the list, or a new one if there is none.
fn list_or_new<T>(alloc: Global, list: Option<Vec<T>>) -> Vec<T> {
    match list {
        Some(list) => list,
        None => Vec::new(alloc),
    }
}

//! How far the runs over a list of words are.

/// Sees how many words were run. It changes nothing of the runs.
pub trait Progress {
    /// Is called after each word: `words` is the number of words so far, with those that are skipped.
    fn see_words(&mut self, words: u64);

    /// Is called after the last word.
    fn see_end(&mut self);
}

/// Sees nothing.
#[derive(Drop)]
pub struct NoProgress {}

impl Progress for NoProgress {
    #[inline(always)]
    fn see_words(&mut self, _words: u64) {}

    #[inline(always)]
    fn see_end(&mut self) {}
}

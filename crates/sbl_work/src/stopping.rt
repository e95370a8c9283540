//! Whether the edit of a request should be broken off: if a file exists.

ghost use Rattle.std.specs.Prelude.{◌≡◌};

use crate::files::Paths;
use sbl_bench::BreakOff;
use std::fs;
use std::rt::Files;

/// The file is looked for before the first run of an edit, and then once for so many runs.
const RUNS_PER_LOOK: u32 = 16;

/// Says that an edit should be broken off if the file of `--stop` exists. One is made for each request.
#[derive(Drop)]
pub(crate) struct StopFile<'a, F> {
    files: &'a F,
    // the name of the file, if there is one
    path: Option<&'a str>,
    // the number of runs until the file is looked for
    wait: u32,
    said: bool,
}

impl<'a, F: Files> StopFile<'a, F> {
    /// Returns what looks for the file of these.
    pub(crate) fn new(files: &'a F, paths: &'a Paths) -> StopFile<'a, F> {
        StopFile {
            files,
            path: match &paths.stop {
                Some(path) => Some(path.as_str()),
                None => None,
            },
            wait: 0,
            said: false,
        }
    }

    // Whether the file exists.
    fn exists(&self) -> bool {
        match self.path {
            Some(path) => fs::metadata(self.files, path).is_ok(),
            None => false,
        }
    }
}

impl<F: Files> BreakOff for StopFile<'_, F> {
    ghost said = { λ s. s.said };

    fn is_wanted(&mut self) -> bool {
        if self.wait > 0 {
            self.wait -= 1;
            return false;
        }
        self.wait = RUNS_PER_LOOK - 1;
        let exists = self.exists();
        self.said = self.said || exists;
        exists
    }
}

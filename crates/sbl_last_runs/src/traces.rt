//! The words of a bench, each with its last run.

ghost use Rattle.sbl_last_runs.specs.Pairs.{IsUnique, same_text};

use crate::last_run::LastRun;
use crate::word_hash::WordKeys;
use indexmap::IndexMap;

/// The words of a bench in their order, each with its last run. They are found by a hash with secret keys.
pub type Traces = IndexMap<Vec<char>, LastRun, WordKeys>;

/// A map does not contain a word twice.
pub fn words_are_unique(traces: &Traces)
    ensures { IsUnique same_text traces.now }
{
    let _count = traces.len();
}

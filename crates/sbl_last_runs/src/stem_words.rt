//! The words that have a stem.

ghost use Rattle.std.specs.Prelude.{◌≡◌, IfOk};
ghost use Rattle.sbl_rows.specs.Classes.{in_order, words_of};
ghost use Rattle.sbl_rows.specs.inside.ClassParts.{words_with};
ghost use Rattle.sbl_rows.specs.Rows.{rows_of};
ghost use Rattle.sbl_rows.specs.Setting.{Setting};
ghost use Rattle.sbl_last_runs.specs.KeptEntries.{AreFresh, words_in};
ghost use Rattle.sbl_last_runs.specs.Pairs.{IsIndexed};

use crate::pairs::pairs_of;
use crate::traces::{Traces, words_are_unique};
use sbl_rows::{Pairs, words_among};
use std::alloc::{AllocError, Global};

/// Returns the words with a stem, in order, by the pairs that are kept, or by new ones. Returns `AllocError` if an allocation
/// fails.
pub fn words_of_stem(
    alloc: Global,
    stem: &[char],
    pairs: &Option<Pairs>,
    traces: &Traces,
) -> Result<Vec<Vec<char>>, AllocError>
    requires indexed { IsIndexed traces.now.entries pairs.now }
    ensures { IfOk result (λ words. (s : Setting) → AreFresh s traces.now.entries → words_of words.items ≡ in_order (words_with stem.now (rows_of s (words_in traces.now.entries)))) }
{
    words_are_unique(traces);
    match pairs {
        Some(pairs) => words_among(alloc, stem, pairs),
        None => {
            let pairs = pairs_of(alloc, traces)?;
            words_among(alloc, stem, &pairs)
        }
    }
}

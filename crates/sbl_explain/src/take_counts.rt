//! How many words take each string of an among.

ghost use Rattle.std.specs.Prelude.{◌≡◌, ◌+◌, OnOk, IfOk};
ghost use Rattle.sbl_bench.specs.KeptRuns.{setting_of};
ghost use Rattle.sbl_uses.specs.TakeNumbers.{number_of, one_if};
ghost use Rattle.sbl_explain.specs.TakeNumbers.{number_kept};
ghost use Rattle.sbl_explain.specs.Kept.{has_taken};
ghost use Rattle.sbl_explain.specs.WhyRows.{routine_names};
ghost use Rattle.sbl_uses.specs.Used.{Take};

use crate::kept_words::{KeptWord, takes_of_word};
use sbl_bench::Bench;
use sbl_uses::{TakeCounts, count_each};
use std::alloc::{AllocError, Global};
use std::collections::BTreeMap;

/// Counts a word at each string that its run takes. Returns `AllocError` as `count_one` does, or if an allocation fails.
fn count_word<'b>(
    alloc: Global,
    counts: &mut TakeCounts<'b>,
    bench: &'b Bench,
    word: &KeptWord,
) -> Result<(), AllocError>
    ensures { OnOk result ((t : Take) → number_of counts.new t ≡ number_of counts.old t + one_if (has_taken (routine_names (setting_of bench.now)) t word.now)) }
{
    let takes = takes_of_word(alloc, bench, word)?;
    count_each(counts, takes)
}

/// Returns how many of some words take each string of an among. Returns `AllocError` as `count_word` does.
pub(crate) fn counts_by_words<'b>(
    alloc: Global,
    bench: &'b Bench,
    words: &[KeptWord],
) -> Result<TakeCounts<'b>, AllocError>
    ensures { IfOk result (λ counts. (t : Take) → number_of counts t ≡ number_kept (routine_names (setting_of bench.now)) t words.now) }
{
    let mut counts = BTreeMap::new(alloc);
    for word in words {
        count_word(alloc, &mut counts, bench, word)?;
    }
    Ok(counts)
}

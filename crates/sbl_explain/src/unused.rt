//! The text of the rows of what no word uses.

ghost use Rattle.std.specs.Prelude.{◌≡◌, IfOk};
ghost use Rattle.sbl_bench.specs.KeptRuns.{setting_of};
ghost use Rattle.sbl_uses.specs.Unused as spec;
ghost use Rattle.sbl_explain.specs.Kept.{KeepsWords};

use crate::bench_words::words_of;
use crate::kept_takes::KeptTakes;
use crate::kept_words::{KeptWord, takes_of_words};
use crate::touched_items::met_by_words;
use sbl_bench::Bench;
use sbl_uses::{Used, parts_of};
use std::alloc::{AllocError, Global};

/// Returns the rows of what no word uses, given what the words take. Returns `AllocError` if an allocation fails.
fn text_of_unused(alloc: Global, bench: &Bench, words: &[KeptWord]) -> Result<Vec<u8>, AllocError>
    ensures { KeepsWords bench.now words.now → IfOk result (λ text. text.items ≡ spec.unused_text (setting_of bench.now) bench.now.words) }
{
    let parts = parts_of(alloc, bench.script())?;
    let all = words_of(alloc, bench)?;
    let met = met_by_words(alloc, bench, &all)?;
    let taken = takes_of_words(alloc, bench, words)?;
    let used = Used {
        alloc,
        met: &met,
        taken: &taken,
    };
    used.text_of_rows(&parts)
}

impl KeptTakes {
    /// Returns the rows of what no word of the vocabulary uses, under the script and the limit of the bench: the routines, amongs and
    /// groupings that the run of no word touches, in their order, and then the strings of the other amongs that the run of no word
    /// takes. A grouping counts as touched if one that is built from it is. Runs that are refused count.
    ///
    /// Runs only words that an edit since the last question can concern, or that are not kept. Returns `AllocError` if an allocation
    /// fails.
    pub fn unused_text(&mut self, alloc: Global, bench: &Bench) -> Result<Vec<u8>, AllocError>
        ensures { IfOk result (λ text. text.items ≡ spec.unused_text (setting_of bench.now) bench.now.words) }
    {
        let words = self.words_now(alloc, bench)?;
        let text = text_of_unused(alloc, bench, &words)?;
        self.keep(alloc, bench, words)?;
        Ok(text)
    }
}

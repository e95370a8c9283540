//! The words of a bench.

ghost use Rattle.std.specs.Prelude.{◌≡◌, IfOk};
ghost use Rattle.sbl_uses.specs.UnusedViews.{texts_of};

use sbl_bench::Bench;
use std::alloc::{AllocError, Global};

/// Returns the words of the vocabulary, in order. Returns `AllocError` if an allocation fails.
#[tactic(auto, using(crate::proofs::RowWords::words_are))]
pub(crate) fn words_of(alloc: Global, bench: &Bench) -> Result<Vec<&[char]>, AllocError>
    ensures { IfOk result (λ words. texts_of words.items ≡ bench.now.words) }
{
    let rows = bench.rows()?;
    let mut words = Vec::with_capacity(alloc, rows.len())?;
    for row in &rows {
        words.push(row.word)?;
    }
    Ok(words)
}

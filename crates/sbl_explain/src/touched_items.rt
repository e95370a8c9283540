//! The items that the runs of the words of a bench touch, and those that they meet.

ghost use Rattle.std.specs.Prelude.{◌≡◌, true, OnOk, IfOk};
ghost use Rattle.sbl_bench.specs.KeptRuns.{setting_of};
ghost use Rattle.sbl_bench.specs.Vocabulary.{is_word};
ghost use Rattle.sbl_machine.specs.ItemRefs.{items_of_refs};
ghost use Rattle.sbl_uses.specs.UnusedViews.{AreTouched, HasMet, IsUnion, texts_of, touched_by};

use sbl_bench::Bench;
use sbl_uses::{Items, add_bases, add_items};
use std::alloc::{AllocError, Global};
use std::collections::BTreeSet;

/// Adds the items that the run of a word of the vocabulary touches. Returns `AllocError` if an allocation fails.
fn add_touched<'a>(items: &mut Items<'a>, bench: &'a Bench, word: &[char]) -> Result<(), AllocError>
    ensures { is_word word.now bench.now.words ≡ true → OnOk result (IsUnion (items_of_refs items.new) (touched_by (setting_of bench.now) word.now) (items_of_refs items.old)) }
{
    match bench.touched_refs(word)? {
        Some(more) => add_items(items, more),
        None => Ok(()),
    }
}

/// Returns the items that the runs of the words touch; these are the words of the bench. Returns `AllocError` if an allocation
/// fails.
fn touched_by_words<'a>(
    alloc: Global,
    bench: &'a Bench,
    words: &[&[char]],
) -> Result<Items<'a>, AllocError>
    ensures { texts_of words.now ≡ bench.now.words → IfOk result (AreTouched (setting_of bench.now) bench.now.words) }
{
    let mut items = BTreeSet::new(alloc);
    for word in words {
        add_touched(&mut items, bench, word)?;
    }
    Ok(items)
}

/// Returns the items that the runs of the words meet; these are the words of the bench. Returns `AllocError` if an allocation
/// fails.
pub(crate) fn met_by_words<'a>(
    alloc: Global,
    bench: &'a Bench,
    words: &[&[char]],
) -> Result<Items<'a>, AllocError>
    ensures { texts_of words.now ≡ bench.now.words → IfOk result (HasMet (setting_of bench.now) bench.now.words) }
{
    let mut items = touched_by_words(alloc, bench, words)?;
    add_bases(alloc, &mut items, bench.script())?;
    Ok(items)
}

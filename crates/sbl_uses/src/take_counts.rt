//! Numbers of words for strings of amongs.

ghost use Rattle.std.specs.Prelude.{◌≡◌, ◌+◌, OnOk, IfOk};
ghost use Rattle.std.specs.List.{list_any};
ghost use Rattle.sbl_machine.specs.ItemRefs.{item_of_ref};
ghost use Rattle.sbl_uses.specs.TakeNumbers.{number_of, one_if};
ghost use Rattle.sbl_uses.specs.UnusedViews.{take_of, takes_in};
ghost use Rattle.sbl_uses.specs.Used.{Take, same_take};

use crate::takes::Takes;
use sbl_machine::ItemRef;
use std::alloc::{AllocError, Global};
use std::collections::BTreeMap;

/// Amongs with strings that are taken there, each with a number of words.
pub type TakeCounts<'a> = BTreeMap<(ItemRef<'a>, Vec<char>), usize>;

/// Returns the number of words that is kept for an among and a string.
fn number_in<'a>(counts: &TakeCounts<'a>, key: &(ItemRef<'a>, Vec<char>)) -> usize
    ensures { result ≡ number_of counts.now (take_of key.now) }
{
    match counts.get(key) {
        Some(number) => *number,
        None => 0,
    }
}

/// Counts one word more for an among and a string. Returns `AllocError` if an allocation fails, or if there are `usize::MAX` words.
fn count_one<'a>(
    counts: &mut TakeCounts<'a>,
    key: (ItemRef<'a>, Vec<char>),
) -> Result<(), AllocError>
    ensures { OnOk result ((t : Take) → number_of counts.new t ≡ number_of counts.old t + one_if (same_take t (take_of key.entry))) }
{
    let Some(number) = number_in(counts, &key).checked_add(1) else {
        return Err(AllocError);
    };
    counts.insert(key, number)?;
    Ok(())
}

/// Counts one word more for each of some amongs with their strings. Returns `AllocError` as `count_one` does.
pub fn count_each<'a>(counts: &mut TakeCounts<'a>, takes: Takes<'a>) -> Result<(), AllocError>
    ensures { OnOk result ((t : Take) → number_of counts.new t ≡ number_of counts.old t + one_if (list_any (same_take t) (takes_in takes.entry))) }
{
    for key in takes {
        count_one(counts, key)?;
    }
    Ok(())
}

/// Returns how many words are counted at a string of an among. Returns `AllocError` if an allocation fails.
pub fn number_taking<'a>(
    alloc: Global,
    counts: &TakeCounts<'a>,
    among: &ItemRef<'a>,
    string: &[char],
) -> Result<usize, AllocError>
    ensures { IfOk result (λ n. n ≡ number_of counts.now (item_of_ref among.now, string.now)) }
{
    let key = (*among, Vec::from_slice(alloc, string)?);
    Ok(number_in(counts, &key))
}

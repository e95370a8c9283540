//! The numbers of pairs of words within families and across them.

ghost use Rattle.std.specs.Prelude.{◌≡◌, ◌++◌, ◌+◌, ◌<◌, ◌≤◌, ◌^◌, ℕ, List, OnOk, IfOk, bytes_eq, if◌then◌else◌};
ghost use Rattle.sbl_rows.specs.Families as spec;
ghost use Rattle.sbl_rows.specs.Families.{all_of, any_two, pairs_in, pairs_within, same_stem};
ghost use Rattle.sbl_rows.specs.Counting.{count_in};
ghost use Rattle.sbl_rows.specs.Views.{view_families, view_pairs, view_result};

use crate::family_report::{FamilyRow, PairCounts};
use crate::stem_class::StemPair;
use std::alloc::{AllocError, Global};
use std::collections::BTreeMap;

/// Returns the number of pairs of these words.
fn all_pairs(words: &[StemPair<'_>]) -> u128
    ensures { result ≡ pairs_in any_two (view_pairs words.now) }
{
    let n = words.len() as u128;
    (n * n - n) / 2
}

/// Returns how often the stem was counted, and counts it once more. Returns `AllocError` if an allocation fails.
fn count_stem<'a>(
    counts: &mut BTreeMap<&'a [char], usize>,
    stem: &'a [char],
) -> Result<usize, AllocError>
    requires { count_in counts.old stem.now + 1 < 2 ^ 64 }
    ensures before { IfOk result (λ n. n ≡ count_in counts.old stem.now) }
    ensures after { OnOk result ((q : List ℕ) → count_in counts.new q ≡ count_in counts.old q + (if bytes_eq stem.now q then 1 else 0)) }
{
    let count = counts.get(stem).copied().unwrap_or(0);
    counts.insert(stem, count + 1)?;
    Ok(count)
}

/// Returns how many pairs of these words have the same stem. Returns `AllocError` if an allocation fails.
fn same_stem_pairs(alloc: Global, pairs: &[StemPair<'_>]) -> Result<u128, AllocError>
    ensures { IfOk result (λ n. n ≡ pairs_in same_stem (view_pairs pairs.now)) }
{
    let mut counts = BTreeMap::new(alloc);
    let mut same: u128 = 0;
    for pair in pairs {
        same += count_stem(&mut counts, pair.stem)? as u128;
    }
    Ok(same)
}

/// The words of some families, and what is counted within each.
#[derive(Drop)]
struct Tally<'a> {
    words: Vec<StemPair<'a>>,
    within: u128,
    same: u128,
}

/// Appends the words of the family, and counts its pairs. Returns `AllocError` if an allocation fails.
fn count_family<'a>(
    alloc: Global,
    tally: &mut Tally<'a>,
    family: &[StemPair<'a>],
) -> Result<(), AllocError>
    requires within { tally.old.within ≤ pairs_in any_two (view_pairs tally.old.words.items) }
    requires same { tally.old.same ≤ pairs_in any_two (view_pairs tally.old.words.items) }
    ensures words { OnOk result (view_pairs tally.new.words.items ≡ view_pairs tally.old.words.items ++ view_pairs family.now) }
    ensures within { OnOk result (tally.new.within ≡ tally.old.within + pairs_in any_two (view_pairs family.now)) }
    ensures same { OnOk result (tally.new.same ≡ tally.old.same + pairs_in same_stem (view_pairs family.now)) }
{
    tally.words.extend_from_slice(family)?;
    tally.within += all_pairs(family);
    tally.same += same_stem_pairs(alloc, family)?;
    Ok(())
}

/// Returns the words of all families, and what is counted within each. Returns `AllocError` if an allocation fails.
fn tally_of<'a>(alloc: Global, families: &[Vec<StemPair<'a>>]) -> Result<Tally<'a>, AllocError>
    ensures words { IfOk result (λ tally. view_pairs tally.words.items ≡ all_of (view_families families.now)) }
    ensures within { IfOk result (λ tally. tally.within ≡ pairs_within any_two (view_families families.now)) }
    ensures same { IfOk result (λ tally. tally.same ≡ pairs_within same_stem (view_families families.now)) }
{
    let mut tally = Tally {
        words: Vec::new(alloc),
        within: 0,
        same: 0,
    };
    for family in families {
        count_family(alloc, &mut tally, family)?;
    }
    Ok(tally)
}

/// Returns the numbers of pairs within families and across them. Returns `AllocError` if an allocation fails.
pub(crate) fn pairs_row<'a>(
    alloc: Global,
    families: &[Vec<StemPair<'a>>],
) -> Result<FamilyRow<'a>, AllocError>
    ensures { IfOk result (λ row. view_result row ≡ spec.pairs_row (view_families families.now)) }
{
    let tally = tally_of(alloc, families)?;
    let same = same_stem_pairs(alloc, &tally.words)?;
    Ok(FamilyRow::Pairs(PairCounts {
        within: tally.within,
        apart: tally.within - tally.same,
        across: all_pairs(&tally.words) - tally.within,
        joined: same - tally.same,
    }))
}

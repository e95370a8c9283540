//! A set of pairs of a stem and a word that has it. In order, it gives the classes.

ghost use Rattle.std.specs.Prelude.{◌≡◌, ◌||◌, ◌&&◌, false, not, IfOk, OnOk, OnErr};
ghost use Rattle.std.specs.Str.{bytes_eq};
ghost use Rattle.sbl_semantics.specs.Outcome.{outcome_of};
ghost use Rattle.sbl_rows.specs.ChangedRows.{same_outcome};
ghost use Rattle.sbl_rows.specs.Pairs.{IsFollowed, Key, has, is_pair_of};

use crate::changed_row::is_same;
use sbl_semantics::Outcome;
use std::alloc::{AllocError, Global};
use std::collections::BTreeSet;

/// Pairs of a stem and a word that has it, by stem and then by word.
pub type Pairs = BTreeSet<(Vec<char>, Vec<char>)>;

/// Inserts the pair of this word into the set, if the word has a stem. Returns `AllocError` if an allocation fails; the set is
/// unchanged then.
pub fn insert_pair(
    alloc: Global,
    pairs: &mut Pairs,
    word: &[char],
    outcome: &Outcome,
) -> Result<(), AllocError>
    ensures ok { OnOk result ((q : Key) → has pairs.new q ≡ (is_pair_of word.now (outcome_of outcome.now) q || has pairs.old q)) }
    ensures err { OnErr result ((q : Key) → has pairs.new q ≡ has pairs.old q) }
{
    let Outcome::Stem(stem) = outcome else {
        return Ok(());
    };
    let stem = Vec::from_slice(alloc, stem.as_slice())?;
    let word = Vec::from_slice(alloc, word)?;
    match pairs.insert((stem, word)) {
        Ok(_) => Ok(()),
        Err(_) => Err(AllocError),
    }
}

/// Removes the pair of this stem and this word from the set. Does not allocate.
pub fn remove_key(pairs: &mut Pairs, stem: Vec<char>, word: Vec<char>)
    ensures { (q : Key) → has pairs.new q ≡ (not (bytes_eq stem.items q.0.items && bytes_eq word.items q.1.items) && has pairs.old q) }
{
    let pair = (stem, word);
    pairs.remove(&pair);
}

/// Removes the pair of this word from the set, if the word has a stem. Returns `AllocError` if an allocation fails; the set is
/// unchanged then.
fn remove_pair(
    alloc: Global,
    pairs: &mut Pairs,
    word: &[char],
    outcome: &Outcome,
) -> Result<(), AllocError>
    ensures ok { OnOk result ((q : Key) → has pairs.new q ≡ (not (is_pair_of word.now (outcome_of outcome.now) q) && has pairs.old q)) }
    ensures err { OnErr result ((q : Key) → has pairs.new q ≡ has pairs.old q) }
{
    let Outcome::Stem(stem) = outcome else {
        return Ok(());
    };
    let stem = Vec::from_slice(alloc, stem.as_slice())?;
    let word = Vec::from_slice(alloc, word)?;
    remove_key(pairs, stem, word);
    Ok(())
}

/// Exchanges the pair of a word for that of its outcome now. Returns `AllocError` if an allocation fails; then only the pair of
/// this word may be missing.
fn exchange_pair(
    alloc: Global,
    pairs: &mut Pairs,
    word: &[char],
    before: &Outcome,
    now: &Outcome,
) -> Result<(), AllocError>
    ensures ok { OnOk result ((q : Key) → has pairs.new q ≡ (is_pair_of word.now (outcome_of now.now) q || (not (is_pair_of word.now (outcome_of before.now) q) && has pairs.old q))) }
    ensures err { OnErr result ((q : Key) → bytes_eq word.now q.1.items ≡ false → has pairs.new q ≡ has pairs.old q) }
{
    remove_pair(alloc, pairs, word, before)?;
    insert_pair(alloc, pairs, word, now)
}

/// Brings the set up to date for a word that ran again, if its outcome is another one. Returns whether it is. Returns
/// `AllocError` if an allocation fails; the pairs of other words are unchanged then.
pub fn follow_one(
    alloc: Global,
    pairs: &mut Pairs,
    word: &[char],
    before: &Outcome,
    now: &Outcome,
) -> Result<bool, AllocError>
    ensures differs { IfOk result (λ differs. differs ≡ not (same_outcome (outcome_of before.now) (outcome_of now.now))) }
    ensures ok { OnOk result ((q : Key) → IsFollowed word.now (outcome_of before.now) (outcome_of now.now) (has pairs.old) (has pairs.new) q) }
    ensures err { OnErr result ((q : Key) → bytes_eq word.now q.1.items ≡ false → has pairs.new q ≡ has pairs.old q) }
{
    if is_same(before, now) {
        return Ok(false);
    }
    exchange_pair(alloc, pairs, word, before, now)?;
    Ok(true)
}

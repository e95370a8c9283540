//! The set of pairs of a stem and a word that has it. In order, it gives the classes of the vocabulary. A bench keeps it once the
//! classes are asked for, and each edit changes it with the rows. If memory for that is refused, the set is given up, and made
//! anew when it is wanted next; so no edit fails for it.

ghost use Rattle.std.specs.Prelude.{◌≡◌, List, Some, IfOk, OnOk};
ghost use Rattle.sbl_last_runs.specs.KeptEntries.{KeptWord};
ghost use Rattle.sbl_last_runs.specs.Pairs.{ArePaired, IsIndexed, IsOneMore, find};
ghost use Rattle.sbl_last_runs.specs.Last.{Follows};

use crate::change::RunChange;
use crate::last_run::LastRun;
use crate::traces::{Traces, words_are_unique};
use sbl_rows::{Pairs, follow_one, insert_pair, remove_key};
use sbl_semantics::Outcome;
use std::alloc::{AllocError, Global};
use std::collections::BTreeSet;

/// Returns the pairs of the words that have a stem. Returns `AllocError` if an allocation fails.
pub fn pairs_of(alloc: Global, traces: &Traces) -> Result<Pairs, AllocError>
    ensures { IfOk result (λ pairs. ArePaired traces.now.entries pairs) }
{
    words_are_unique(traces);
    let mut pairs = BTreeSet::new(alloc);
    for (word, last) in traces.iter() {
        insert_pair(alloc, &mut pairs, word.as_slice(), last.outcome())?;
    }
    Ok(pairs)
}

/// Brings the set up to date for the words of an edit. Returns `AllocError` if an allocation fails, or if more than `most` words
/// have another outcome.
fn follow_each(
    alloc: Global,
    pairs: &mut Pairs,
    traces: &Traces,
    last: &[RunChange],
    most: usize,
) -> Result<(), AllocError>
    ensures { OnOk result ((old : List KeptWord) → Follows old last.now traces.now.entries → ArePaired old pairs.old → ArePaired traces.now.entries pairs.new) }
{
    let mut left = most;
    for change in last {
        let word = change.word.as_slice();
        let Some(now) = traces.get(word) else {
            return Err(AllocError);
        };
        let before = change.traced.outcome();
        let differs = follow_one(alloc, pairs, word, before, now.outcome())?;
        let Some(fewer) = left.checked_sub(usize::from(differs)) else {
            return Err(AllocError);
        };
        left = fewer;
    }
    Ok(())
}

/// Returns the pairs after an edit that ran these words again, if there were any before it. If more than an eighth of the words
/// have another outcome, or an allocation fails, returns none: then it is quicker to make them anew.
pub fn follow(
    alloc: Global,
    pairs: Option<Pairs>,
    traces: &Traces,
    last: &[RunChange],
) -> Option<Pairs>
    ensures { (old : List KeptWord) → Follows old last.now traces.now.entries → IsIndexed old pairs → IsIndexed traces.now.entries result }
{
    let Some(mut pairs) = pairs else {
        return None;
    };
    let most = traces.len() / 8;
    match follow_each(alloc, &mut pairs, traces, last, most) {
        Ok(()) => Some(pairs),
        Err(_) => None,
    }
}

/// Returns the pairs with that of a word which was added, if there were any before it; none if an allocation fails.
pub fn follow_new(
    alloc: Global,
    pairs: Option<Pairs>,
    traces: &Traces,
    word: &[char],
) -> Option<Pairs>
    ensures { (old : List KeptWord) → IsOneMore word.now traces.now.entries old → IsIndexed old pairs → IsIndexed traces.now.entries result }
{
    let Some(mut pairs) = pairs else {
        return None;
    };
    let Some(last) = traces.get(word) else {
        return None;
    };
    match insert_pair(alloc, &mut pairs, word, last.outcome()) {
        Ok(()) => Some(pairs),
        Err(_) => None,
    }
}

/// Returns the pairs without that of a word with this run, if there were any. Does not allocate.
pub fn follow_old(pairs: Option<Pairs>, word: Vec<char>, last: LastRun) -> Option<Pairs>
    ensures { (old new : List KeptWord) → IsOneMore word.items old new → find word.items old ≡ Some last → IsIndexed old pairs → IsIndexed new result }
{
    let Some(mut pairs) = pairs else {
        return None;
    };
    match last.into_outcome() {
        Outcome::Stem(stem) => {
            remove_key(&mut pairs, stem, word);
            Some(pairs)
        }
        Outcome::Refused(_) => Some(pairs),
    }
}

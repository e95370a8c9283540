//! The words of families that have no row.

ghost use Rattle.std.specs.Prelude.{◌≡◌, OnOk, IfOk, length};
ghost use Rattle.std.specs.List.{flat_map};
ghost use Rattle.sbl_rows.specs.Classes.{in_order};
ghost use Rattle.sbl_rows.specs.Counting.{put_texts, unknown_in};
ghost use Rattle.sbl_rows.specs.Views.{known_outcome, texts_of, view_words};

use crate::outcomes::{Outcomes, outcome_of};
use std::alloc::{AllocError, Global};
use std::collections::BTreeSet;

/// Inserts the words that have no outcome. Returns `AllocError` if an allocation fails.
fn insert_unknown<'a>(
    unknown: &mut BTreeSet<&'a [char]>,
    outcomes: &Outcomes<'_>,
    words: &[&'a [char]],
) -> Result<(), AllocError>
    ensures { OnOk result (texts_of unknown.new.keys ≡ put_texts (texts_of unknown.old.keys) (unknown_in (known_outcome outcomes.now) (texts_of words.now))) }
{
    for word in words {
        if outcome_of(outcomes, word).is_none() {
            unknown.insert(*word)?;
        }
    }
    Ok(())
}

/// Returns how many different words of the lists have no outcome. Returns `AllocError` if an allocation fails.
pub(crate) fn count_unknown(
    alloc: Global,
    outcomes: &Outcomes<'_>,
    lists: &[Vec<&[char]>],
) -> Result<usize, AllocError>
    ensures { IfOk result (λ n. n ≡ length (in_order (unknown_in (known_outcome outcomes.now) (flat_map (λ l. l) (view_words lists.now))))) }
{
    let mut unknown = BTreeSet::new(alloc);
    for words in lists {
        insert_unknown(&mut unknown, outcomes, words)?;
    }
    Ok(unknown.len())
}

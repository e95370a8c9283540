//! The words of families that count, each with its stem.

ghost use Rattle.std.specs.Prelude.{◌≡◌, OnOk, IfOk, option_map};
ghost use Rattle.sbl_rows.specs.Families.{with_stem};
ghost use Rattle.sbl_rows.specs.Counting as spec;
ghost use Rattle.sbl_rows.specs.Views.{known_outcome, texts_of, view_families, view_pair, view_pairs, view_words};

use crate::lists::push_some;
use crate::outcomes::Outcomes;
use crate::stem_class::StemPair;
use sbl_semantics::Outcome;
use std::alloc::{AllocError, Global};

/// Takes a word out of the outcomes. Returns it with its stem, if it has one. Does not allocate.
fn take_word<'a>(outcomes: &mut Outcomes<'a>, word: &'a [char]) -> Option<StemPair<'a>>
    ensures pair { option_map view_pair result ≡ with_stem word.now (known_outcome outcomes.old word.now) }
    ensures others { known_outcome outcomes.new ≡ spec.without word.now (known_outcome outcomes.old) }
{
    match outcomes.remove(word) {
        Some(Outcome::Stem(stem)) => Some(StemPair {
            stem: stem.as_slice(),
            member: word,
        }),
        _ => None,
    }
}

/// Takes the words out of the outcomes. Returns those that have a stem, with it. Returns `AllocError` if an allocation fails.
fn family_of<'a>(
    alloc: Global,
    outcomes: &mut Outcomes<'a>,
    words: &[&'a [char]],
) -> Result<Vec<StemPair<'a>>, AllocError>
    ensures pairs { IfOk result (λ pairs. view_pairs pairs.items ≡ spec.pairs_taken (known_outcome outcomes.old) (texts_of words.now)) }
    ensures left { OnOk result (known_outcome outcomes.new ≡ spec.outcomes_left (known_outcome outcomes.old) (texts_of words.now)) }
{
    let mut pairs = Vec::new(alloc);
    for word in words {
        push_some(&mut pairs, take_word(outcomes, *word))?;
    }
    Ok(pairs)
}

/// Takes the words of the lists out of the outcomes. Returns for each list the words that have a stem, with it. Returns `AllocError`
/// if an allocation fails.
pub(crate) fn families_of<'a>(
    alloc: Global,
    outcomes: &mut Outcomes<'a>,
    lists: &[Vec<&'a [char]>],
) -> Result<Vec<Vec<StemPair<'a>>>, AllocError>
    ensures { IfOk result (λ families. view_families families.items ≡ spec.all_taken (known_outcome outcomes.old) (view_words lists.now)) }
{
    let mut families = Vec::new(alloc);
    for words in lists {
        let family = family_of(alloc, outcomes, words)?;
        families.push(family)?;
    }
    Ok(families)
}

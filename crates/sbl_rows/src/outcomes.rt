//! The outcomes of words, by word.

ghost use Rattle.std.specs.Prelude.{◌≡◌, IfOk};
ghost use Rattle.std.specs.Option.{option_map};
ghost use Rattle.sbl_rows.specs.ChangedRows.{outcome_in};
ghost use Rattle.sbl_rows.specs.KnownOutcomes.{known_outcome};
ghost use Rattle.sbl_rows.specs.Rows.{view_outcome, view_rows};

use crate::row::Row;
use sbl_semantics::Outcome;
use std::alloc::{AllocError, Global};
use std::collections::BTreeMap;

/// The outcomes of words.
pub(crate) type Outcomes<'a> = BTreeMap<&'a [char], &'a Outcome>;

/// Returns the outcome of each word; of a word that has several rows, that of the first. Returns `AllocError` if an allocation
/// fails.
pub(crate) fn outcomes_of<'a>(alloc: Global, rows: &[Row<'a>]) -> Result<Outcomes<'a>, AllocError>
    ensures { IfOk result (λ outcomes. known_outcome outcomes ≡ outcome_in (view_rows rows.now)) }
{
    let mut outcomes = BTreeMap::new(alloc);
    for row in rows.iter().rev() {
        outcomes.insert(row.word, row.outcome)?;
    }
    Ok(outcomes)
}

/// Returns the outcome of a word, if it is there.
pub(crate) fn outcome_of<'a>(outcomes: &Outcomes<'a>, word: &[char]) -> Option<&'a Outcome>
    ensures { option_map view_outcome result ≡ known_outcome outcomes.now word.now }
{
    outcomes.get(word).copied()
}

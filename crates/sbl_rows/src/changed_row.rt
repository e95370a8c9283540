//! A word whose outcome changed.

ghost use Rattle.std.specs.Prelude.{◌≡◌};
ghost use Rattle.sbl_semantics.specs.Outcome.{outcome_of};
ghost use Rattle.sbl_rows.specs.ChangedRows as spec;

use sbl_semantics::Outcome;

/// A word with two outcomes.
#[derive(Debug, Drop)]
pub struct ChangedRow<'a> {
    /// The word's characters.
    pub word: &'a [char],
    /// Its stem before the edit, or the fault of its run.
    pub before: &'a Outcome,
    /// Its stem after the edit, or the fault of its run.
    pub after: &'a Outcome,
}

/// Returns whether two outcomes are the same stem, or refusals for the same reason. Does not allocate.
pub fn is_same(one: &Outcome, other: &Outcome) -> bool
    ensures { result ≡ spec.same_outcome (outcome_of one.now) (outcome_of other.now) }
{
    match (one, other) {
        (Outcome::Stem(a), Outcome::Stem(b)) => a.as_slice() == b.as_slice(),
        (Outcome::Refused(a), Outcome::Refused(b)) => a == b,
        _ => false,
    }
}

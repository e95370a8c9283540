//! Words that are added, removed and changed.

ghost use Rattle.std.specs.Prelude.{◌≡◌, ◌++◌, OnOk, filter_map, option_map};
ghost use Rattle.sbl_rows.specs.Changes as spec;
ghost use Rattle.sbl_rows.specs.Sides as sides;
ghost use Rattle.sbl_rows.specs.Views.{known_outcome, view_change, view_changes, view_row, view_rows};

use crate::change::{ChangeRow, Side};
use crate::changed_row::is_same;
use crate::lists::push_some;
use crate::outcomes::{Outcomes, outcome_of};
use crate::row::Row;
use std::alloc::AllocError;

/// Returns that the word of one list is added or removed, if it has no row in the other list.
fn lone<'a>(side: Side, other: &Outcomes<'a>, row: &Row<'a>) -> Option<ChangeRow<'a>>
    ensures { option_map view_change result ≡ sides.lone side (known_outcome other.now row.now.word.now) (view_row row.now) }
{
    match (outcome_of(other, row.word), side) {
        (None, Side::First) => Some(ChangeRow::Removed(row.word)),
        (None, Side::Second) => Some(ChangeRow::Added(row.word)),
        (Some(_), _) => None,
    }
}

/// Returns that the word is changed, if it has a row before with another outcome.
fn outcome_change<'a>(before: &Outcomes<'a>, row: &Row<'a>) -> Option<ChangeRow<'a>>
    ensures { option_map view_change result ≡ spec.outcome_change (known_outcome before.now row.now.word.now) (view_row row.now) }
{
    match outcome_of(before, row.word) {
        Some(old) if !is_same(old, row.outcome) => {
            Some(ChangeRow::Changed {
                word: row.word,
                before: old,
                after: row.outcome,
            })
        }
        _ => None,
    }
}

/// Appends the words of one list that have no row in the other: they are added if it is the second list, and removed if it is the
/// first. Returns `AllocError` if an allocation fails.
pub(crate) fn push_lone<'a>(
    changes: &mut Vec<ChangeRow<'a>>,
    side: Side,
    rows: &[Row<'a>],
    other: &Outcomes<'a>,
) -> Result<(), AllocError>
    ensures { OnOk result (view_changes changes.new.items ≡ view_changes changes.old.items ++ filter_map (λ r. sides.lone side (known_outcome other.now r.word) r) (view_rows rows.now)) }
{
    for row in rows {
        push_some(changes, lone(side, other, row))?;
    }
    Ok(())
}

/// Appends the changed words. Returns `AllocError` if an allocation fails.
pub(crate) fn push_changed<'a>(
    changes: &mut Vec<ChangeRow<'a>>,
    before: &Outcomes<'a>,
    after: &[Row<'a>],
) -> Result<(), AllocError>
    ensures { OnOk result (view_changes changes.new.items ≡ view_changes changes.old.items ++ filter_map (λ r. spec.outcome_change (known_outcome before.now r.word) r) (view_rows after.now)) }
{
    for row in after {
        push_some(changes, outcome_change(before, row))?;
    }
    Ok(())
}

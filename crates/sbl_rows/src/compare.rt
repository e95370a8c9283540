//! The changes between two lists of rows.

ghost use Rattle.std.specs.Prelude.{◌≡◌, IfOk};
ghost use Rattle.sbl_rows.specs.Changes.{changes_of, view_changes};
ghost use Rattle.sbl_rows.specs.Rows.{view_rows};

use crate::change::{ChangeRow, Side};
use crate::class_changes::{push_renamed, push_several};
use crate::moves::{moves_of, new_classes};
use crate::outcomes::outcomes_of;
use crate::row::Row;
use crate::stem_class::classes_of;
use crate::words::{push_changed, push_lone};
use std::alloc::{AllocError, Global};

/// Returns what two lists of rows have different: the words that are only in the second list, in its order; those that are only in
/// the first, in its order; the words of both with another outcome, in the order of the second. Then, over the words that have a stem
/// in both lists, the classes of the first list that are split; those of the second that are merged; those of the first that are
/// renamed: each in code point order of the class's stem. Each word has one row in a list; of several the first counts. Returns
/// `AllocError` if an allocation fails.
pub fn changes<'a>(
    alloc: Global,
    before: &[Row<'a>],
    after: &[Row<'a>],
) -> Result<Vec<ChangeRow<'a>>, AllocError>
    ensures { IfOk result (λ changes. view_changes changes.items ≡ changes_of (view_rows before.now) (view_rows after.now)) }
{
    let known_before = outcomes_of(alloc, before)?;
    let known_after = outcomes_of(alloc, after)?;
    let mut changes = Vec::new(alloc);
    push_lone(&mut changes, Side::Second, after, &known_before)?;
    push_lone(&mut changes, Side::First, before, &known_after)?;
    push_changed(&mut changes, &known_before, after)?;
    let moves = moves_of(alloc, &known_before, after)?;
    let old = classes_of(alloc, &moves)?;
    let new = new_classes(alloc, moves)?;
    push_several(alloc, &mut changes, Side::First, &old)?;
    push_several(alloc, &mut changes, Side::Second, &new)?;
    push_renamed(alloc, &mut changes, &old, &new)?;
    Ok(changes)
}

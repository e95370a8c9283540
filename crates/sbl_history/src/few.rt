//! The changes between two lists of rows that are mostly the same.
ghost use Rattle.std.specs.Prelude.{◌≡◌, ℕ, IfOk, List};
ghost use Rattle.sbl_rows.specs.Changes.{changes_of, view_changes};
ghost use Rattle.sbl_rows.specs.Rows.{rows_of, view_rows};
ghost use Rattle.sbl_rows.specs.Setting.{Setting};

use crate::noted::{note_stems, rows_noted, show_stems};
use crate::text_set::TextSet;
use crate::unlike::note_unlike;
use sbl_rows::{ChangeRow, Row, changes};
use std::alloc::{AllocError, Global};

/// Returns what two lists of rows have different, as `sbl_rows::changes` does, if the second list has the rows of a bench. It takes
/// little time if most rows are the same, and in the same order: only the words that differ, and one other word for each of their
/// stems, are compared by `changes`. Returns `AllocError` if an allocation fails.
pub fn changes_of_few<'a>(
    alloc: Global,
    before: &[Row<'a>],
    after: &[Row<'a>],
) -> Result<Vec<ChangeRow<'a>>, AllocError>
    ensures { (s : Setting) (words : List (List ℕ)) → view_rows after.now ≡ rows_of s words → IfOk result (λ c. view_changes c.items ≡ changes_of (view_rows before.now) (view_rows after.now)) }
{
    let mut words = TextSet::new(alloc)?;
    let mut stems = TextSet::new(alloc)?;
    note_unlike(&mut words, before, after);
    note_stems(&mut stems, before, &words);
    note_stems(&mut stems, after, &words);
    let mut kept = words.copy(alloc)?;
    show_stems(alloc, &mut kept, after, &words, &stems)?;
    let few_before = rows_noted(alloc, before, &kept)?;
    let few_after = rows_noted(alloc, after, &kept)?;
    changes(alloc, &few_before, &few_after)
}

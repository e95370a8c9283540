//! The words whose outcome an edit changed.

ghost use Rattle.std.specs.Prelude.{◌≡◌, ◌++◌, map, OnOk, IfOk};
ghost use Rattle.std.specs.Option.{option_map, option_to_list};
ghost use Rattle.sbl_rows.specs.ChangedRows.{view_changed_row};
ghost use Rattle.sbl_last_runs.specs.Last.{changed_since, last_changes};

use crate::change::RunChange;
use crate::last_run::LastRun;
use crate::traces::Traces;
use sbl_rows::{ChangedRow, is_same};
use std::alloc::{AllocError, Global};

/// Returns the words whose outcome is another one now than before, of words with their runs before. Returns `AllocError` if an
/// allocation fails.
pub fn changes_of<'a>(
    alloc: Global,
    traces: &'a Traces,
    last: &'a [RunChange],
) -> Result<Vec<ChangedRow<'a>>, AllocError>
    ensures { IfOk result (λ changes. map view_changed_row changes.items ≡ last_changes traces.now.entries last.now) }
{
    let mut changes = Vec::new(alloc);
    for change in last {
        push_changed(&mut changes, change, traces.get(change.word.as_slice()))?;
    }
    Ok(changes)
}

/// Appends the word with its run before and its run now, if it has one and their outcomes differ. Returns `AllocError` if an
/// allocation fails.
fn push_changed<'a>(
    changes: &mut Vec<ChangedRow<'a>>,
    change: &'a RunChange,
    now: Option<&'a LastRun>,
) -> Result<(), AllocError>
    ensures { OnOk result (map view_changed_row changes.new.items ≡ map view_changed_row changes.old.items ++ option_to_list (changed_since change.now (option_map (λ t. t.now) now.entry))) }
{
    let Some(now) = now else {
        return Ok(());
    };
    let before = change.traced.outcome();
    let after = now.outcome();
    if is_same(before, after) {
        return Ok(());
    }
    let row = ChangedRow {
        word: change.word.as_slice(),
        before,
        after,
    };
    changes.push(row).map_err(|_| AllocError)
}

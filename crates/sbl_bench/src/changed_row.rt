//! The words whose outcome the last edit changed.

ghost use Rattle.std.specs.Prelude.{◌≡◌, map, IfOk};
ghost use Rattle.sbl_rows.specs.ChangedRows.{view_changed_row};

use crate::bench::Bench;
use sbl_last_runs::changes_of;
use sbl_rows::ChangedRow;
use std::alloc::AllocError;

impl Bench {
    /// Returns the words whose outcome the last accepted edit changed, in vocabulary order, each with its outcomes before and after
    /// that edit. An edit that adds or removes a word changes no outcome, so there are none after it, nor after opening. A
    /// refused edit leaves them as they are. Returns `AllocError` if an allocation fails.
    pub fn changes(&self) -> Result<Vec<ChangedRow<'_>>, AllocError>
        ensures { IfOk result (λ changes. map view_changed_row changes.items ≡ self.now.changes) }
    {
        changes_of(self.alloc, &self.traces, self.last.as_slice())
    }
}

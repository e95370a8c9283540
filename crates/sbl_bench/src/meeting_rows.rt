//! The words whose runs meet an item of the script.

ghost use Rattle.std.specs.Prelude.{◌≡◌, ◌++◌, ◌∷◌, [], map, true, IfOk, OnOk};
ghost use Rattle.std.specs.List.{filter};
ghost use Rattle.sbl_bench.specs.inside.Changes.{affected_of, is_met};
ghost use Rattle.sbl_last_runs.specs.ShownRows.{row_shown, run_row};
ghost use Rattle.sbl_rows.specs.Rows.{view_row};

use crate::affected_words::{AffectedWords, affected_by_items, is_affected};
use crate::bench::Bench;
use sbl_last_runs::{LastRun, Traces};
use sbl_machine::Item;
use sbl_machine::laws::one_item_alone;
use sbl_rows::Row;
use std::alloc::{AllocError, Global};
use std::slice::from_ref;

/// Appends the row of a word with its last run. Returns `AllocError` if an allocation fails.
fn push_row<'a>(
    rows: &mut Vec<Row<'a>>,
    word: &'a [char],
    last: &'a LastRun,
) -> Result<(), AllocError>
    ensures { OnOk result (map view_row rows.new.items ≡ map view_row rows.old.items ++ run_row word.now last.now ∷ []) }
{
    let row = Row {
        word,
        outcome: last.outcome(),
    };
    rows.push(row).map_err(|_| AllocError)
}

/// Returns the rows of the words that are affected, judged by their last runs, in vocabulary order. Returns `AllocError` if an
/// allocation fails.
fn affected_rows<'a>(
    alloc: Global,
    affected: &AffectedWords,
    traces: &'a Traces,
) -> Result<Vec<Row<'a>>, AllocError>
    ensures { IfOk result (λ v. map view_row v.items ≡ map row_shown (filter (is_met (affected_of affected.now)) traces.now.entries)) }
{
    let mut rows = Vec::new(alloc);
    for (word, last) in traces.iter() {
        if is_affected(affected, last) {
            push_row(&mut rows, word.as_slice(), last)?;
        }
    }
    Ok(rows)
}

impl Bench {
    ghost use Rattle.sbl_bench.specs.KeptRuns.{setting_of};
    ghost use Rattle.sbl_bench.specs.Traces.{rows_meeting};
    ghost use Rattle.sbl_machine.specs.Marks.{has_item};
    ghost use Rattle.sbl_semantics.specs.TouchedItems.{item_of, names_of};

    /// Returns the rows of the words whose run touches an item or, if that is a grouping, one that is built from it, directly or
    /// through others; in vocabulary order. These are the words that an edit of the item runs again. The script has to define
    /// the routine or the grouping of the item.
    ///
    /// Returns `AllocError` if an allocation fails.
    pub fn rows_meeting(&self, item: &Item) -> Result<Vec<Row<'_>>, AllocError>
        ensures { has_item (names_of (setting_of self.now).script) (item_of item.now) ≡ true → IfOk result (λ v. map view_row v.items ≡ rows_meeting (setting_of self.now) self.now.words (item_of item.now)) }
    {
        one_item_alone();
        let items = from_ref(item);
        let affected = affected_by_items(self.alloc, &self.machine, &self.script, items)?;
        affected_rows(self.alloc, &affected, &self.traces)
    }
}

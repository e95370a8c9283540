//! The rows of the words that use a part of a script.

ghost use Rattle.std.specs.Prelude.{◌≡◌, map, true, IfOk};
ghost use Rattle.sbl_bench.specs.KeptRuns.{setting_of};
ghost use Rattle.sbl_machine.specs.ItemRefs.{item_of_ref};
ghost use Rattle.sbl_rows.specs.Rows.{view_row};
ghost use Rattle.sbl_uses.specs.UsableViews.{is_defined, view_usable};
ghost use Rattle.sbl_explain.specs.UsableViews.{rows_for};
ghost use Rattle.sbl_uses.specs.Used.{Entry};
ghost use Rattle.sbl_explain.specs.Kept.{KeepsWords};
ghost use Rattle.sbl_uses.specs.Uses as spec;
ghost use Rattle.sbl_uses.specs.Uses.{IsResult, question_of};

use crate::kept_takes::KeptTakes;
use crate::kept_words::{KeptWord, has_string as has_kept_string};
use sbl_bench::{Bench, Row};
use sbl_machine::ItemRef;
use sbl_records::records_text;
use sbl_uses::{Question, Usable, UsesFault, own_item, usable_for};
use std::alloc::{AllocError, Global};

/// Returns the rows of the words that take a string of an among, given what the words take. Returns `AllocError` if an allocation
/// fails, or if there are fewer words than rows.
#[tactic(auto, using(crate::proofs::KeptFacts::rows_match))]
fn rows_taking<'b>(
    alloc: Global,
    bench: &'b Bench,
    words: &[KeptWord],
    among: &ItemRef<'_>,
    string: &[char],
) -> Result<Vec<Row<'b>>, AllocError>
    ensures { KeepsWords bench.now words.now → IfOk result (λ rows. map view_row rows.items ≡ rows_for bench.now (Entry (item_of_ref among.now, string.now))) }
{
    let mut rows = Vec::new(alloc);
    let mut rest = words;
    for row in bench.rows()? {
        let Some((word, after)) = rest.split_first() else {
            return Err(AllocError);
        };
        if has_kept_string(bench, word, among, string) {
            rows.push(row)?;
        }
        rest = after;
    }
    Ok(rows)
}

/// Returns the rows of the words whose runs take a string of an among. Returns `AllocError` if an allocation fails.
fn rows_of_takers<'b>(
    alloc: Global,
    bench: &'b Bench,
    kept: &mut KeptTakes,
    among: &ItemRef<'_>,
    string: &[char],
) -> Result<Vec<Row<'b>>, AllocError>
    ensures { IfOk result (λ rows. map view_row rows.items ≡ rows_for bench.now (Entry (item_of_ref among.now, string.now))) }
{
    let words = kept.words_now(alloc, bench)?;
    let rows = rows_taking(alloc, bench, &words, among, string)?;
    kept.keep(alloc, bench, words)?;
    Ok(rows)
}

/// Returns the rows of the words whose runs use a part of the script. Returns `AllocError` if an allocation fails.
fn rows_of_users<'b>(
    alloc: Global,
    bench: &'b Bench,
    kept: &mut KeptTakes,
    usable: &Usable<'_>,
) -> Result<Vec<Row<'b>>, AllocError>
    ensures { is_defined (setting_of bench.now).script (view_usable usable.now) ≡ true → IfOk result (λ rows. map view_row rows.items ≡ rows_for bench.now (view_usable usable.now)) }
{
    match usable {
        Usable::Whole(item) => bench.rows_meeting(&own_item(alloc, item)?),
        Usable::Entry(among, string) => rows_of_takers(alloc, bench, kept, among, string),
    }
}

impl KeptTakes {
    /// Returns the rows of the words whose runs use a part of the script, in vocabulary order: enter the routine or external, search the
    /// among, test the grouping or one that is built from it, or take the string of the among. Runs that are refused count.
    ///
    /// For a string, runs only words that an edit since the last question can concern, or that are not kept.
    ///
    /// # Errors
    ///
    /// Returns `NoRoutine` if the script has no definition of the name that can be used so, `NoAmong` if its routine has no among of
    /// this number, `NoString` if the among has no such string, and `OutOfMemory` if an allocation fails.
    pub fn uses_text(
        &mut self,
        alloc: Global,
        bench: &Bench,
        question: Question<'_>,
    ) -> Result<Vec<u8>, UsesFault>
        ensures { IsResult (λ text. text.items) result (spec.uses_text (setting_of bench.now) bench.now.words (question_of question.entry)) }
    {
        let usable = usable_for(alloc, bench.script(), question)?;
        let rows = rows_of_users(alloc, bench, self, &usable)?;
        Ok(records_text(alloc, &rows)?)
    }
}

//! Compares two scripts over a vocabulary.
ghost use Rattle.std.specs.Prelude.{◌≡◌, IfOk, IfErr, OnOk, count_by};
ghost use Rattle.sbl_bench.specs.KeptRuns.{contents_of};
ghost use Rattle.sbl_rows.specs.Changes.{view_change};
ghost use Rattle.sbl_batch.specs.Compare as spec;
ghost use Rattle.sbl_batch.specs.Comparing.{IsText, is_changed};
ghost use Rattle.sbl_io.specs.Devices.{HasStopped, WritesInTime};

use crate::bench_pair::{BenchPair, CompareFault, CompareInput, open_pair};
use crate::comparison_rows::comparison_text;
use sbl_bench::{Bench, Progress, WordKeys, differences};
use sbl_io::{ServeFault, Sink, write_all};
use sbl_machine::Item;
use sbl_rows::{ChangeRow, changes};
use std::alloc::{AllocError, Global};

/// Where two scripts differ, and what that changes over a vocabulary.
#[derive(Debug, Drop)]
pub struct ScriptComparison<'a> {
    /// The items in which the scripts differ, in text order. `None` if they differ in more than bodies of routines and terms of
    /// groupings.
    pub differing: Option<Vec<Item>>,
    /// What changes from the rows of the old script to those of the new one.
    pub changes: Vec<ChangeRow<'a>>,
    /// The number of words.
    pub words: usize,
    /// The number of words that have another outcome under the new script.
    pub changed: usize,
}

/// Returns the exit status of a comparison in which so many words changed: 0 if none did, and 1 otherwise.
pub fn compare_status(changed: usize) -> u8
    ensures { result ≡ spec.compare_status changed }
{
    match changed {
        0 => 0,
        _ => 1,
    }
}

/// Compares the benches of two scripts over one vocabulary. Returns `AllocError` if an allocation fails.
pub fn compare<'a>(
    alloc: Global,
    old: &'a Bench,
    new: &'a Bench,
) -> Result<ScriptComparison<'a>, AllocError>
    ensures { IfOk result (λ c. spec.view_comparison c ≡ spec.comparison_of (contents_of old.now) (contents_of new.now)) }
{
    let differing = differences(alloc, old.script(), new.script())?;
    let before = old.rows()?;
    let after = new.rows()?;
    let changes = changes(alloc, &before, &after)?;
    let changed = changed_words(&changes);
    Ok(ScriptComparison {
        differing,
        changes,
        words: new.len(),
        changed,
    })
}

/// Returns the number of words with another outcome.
fn changed_words(changes: &[ChangeRow<'_>]) -> usize
    ensures { result ≡ count_by (λ c. is_changed (view_change c)) changes.now }
{
    changes.iter().filter(|change| is_change(change)).count()
}

/// Returns whether a change is that of a word's outcome.
fn is_change(change: &ChangeRow<'_>) -> bool
    ensures { result ≡ is_changed (view_change change.now) }
{
    matches!(change, ChangeRow::Changed { .. })
}

/// Returns the text of the comparison of two benches, and the number of words that changed. Returns `AllocError` if an
/// allocation fails.
fn text_of_pair(alloc: Global, pair: &BenchPair) -> Result<(Vec<u8>, usize), AllocError>
    ensures { IfOk result (λ p. IsText (contents_of pair.now.old) (contents_of pair.now.new) p.0.items p.1) }
{
    let comparison = compare(alloc, &pair.old, &pair.new)?;
    let text = comparison_text(alloc, &comparison)?;
    Ok((text, comparison.changed))
}

/// Compares two scripts over the words of a file, writes the rows of the comparison, and returns the number of words that
/// changed. `progress` sees how many words were run, as by `open_pair`.
///
/// # Errors
///
/// Returns the faults of `open_pair`, and `Rows` with `OutOfMemory` if an allocation for the rows fails: nothing is written
/// then. Returns `Rows` with `Write` if the writer fails or is interrupted more than 1,000 times in a row; then a prefix of the
/// rows is written.
pub fn write_comparison<W: Sink, P: Progress>(
    alloc: Global,
    keys: WordKeys,
    input: &CompareInput<'_>,
    writer: &mut W,
    progress: &mut P,
) -> Result<usize, CompareFault>
    ensures compares { spec.Compares input.now (W.held writer.old) (W.held writer.new) result }
    ensures steady { OnOk result ((W.tally writer.new).failures ≡ (W.tally writer.old).failures) }
    ensures why { IfErr result (λ fault. fault ≡ CompareFault.Rows ServeFault.Write → HasStopped W.tally writer.old writer.new) }
    ensures writes_in_time { WritesInTime W.tally writer.old writer.new }
{
    let pair = open_pair(alloc, keys, input, progress)?;
    let made = text_of_pair(alloc, &pair);
    pair.leak();
    let (text, changed) = made?;
    write_all(writer, &text)?;
    Ok(changed)
}

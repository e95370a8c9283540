//! The stems of words that were noted, words that show such stems, and the rows of noted words.
ghost use Rattle.std.specs.Prelude.{◌≡◌, ◌⊎◌, ℕ, IfOk, List, OnOk, false, filter, true};
ghost use Rattle.std.specs.List.{AllByRecursion};
ghost use Rattle.sbl_rows.specs.Rows.{view_row, view_rows};
ghost use Rattle.sbl_semantics.specs.Outcome.{Stem, outcome_of};
ghost use Rattle.sbl_history.specs.inside.Noted as spec;
ghost use Rattle.sbl_history.specs.inside.TextSets.{has};

use crate::text_set::{TextSet, place_of};
use sbl_rows::Row;
use sbl_semantics::Outcome;
use std::alloc::{AllocError, Global};

/// The number of places for stems.
const FOUND_PLACES: usize = 32_768;

/// For each place of a stem the number of a row that may show it. It only decides which rows are looked at.
#[derive(Drop)]
struct RowNumbers {
    numbers: Vec<usize>,
}

impl RowNumbers {
    /// Returns the number of the row for a stem.
    fn of(&self, stem: &[char]) -> usize {
        *self
            .numbers
            .get(place_of(stem) % FOUND_PLACES)
            .unwrap_or(&0)
    }

    /// Sets the number of the row for a stem.
    fn set(&mut self, stem: &[char], number: usize) {
        if let Some(place) = self.numbers.get_mut(place_of(stem) % FOUND_PLACES) {
            *place = number;
        }
    }
}

/// Puts in the stem of an outcome, if it has one.
fn insert_stem(stems: &mut TextSet, outcome: &Outcome)
    ensures grows { (t : List ℕ) → has stems.old t ≡ true → has stems.new t ≡ true }
    ensures own { spec.IsStemIn (has stems.new) (outcome_of outcome.now) }
{
    if let Outcome::Stem(stem) = outcome {
        stems.insert(stem.as_slice());
    }
}

/// Puts in the stems of noted words.
pub(crate) fn note_stems(stems: &mut TextSet, rows: &[Row<'_>], words: &TextSet)
    ensures grows { (t : List ℕ) → has stems.old t ≡ true → has stems.new t ≡ true }
    ensures noted { AllByRecursion (λ r. has words.now r.word ≡ true → spec.IsStemIn (has stems.new) r.outcome) (view_rows rows.now) }
{
    for row in rows {
        if words.has(row.word) {
            insert_stem(stems, row.outcome);
        }
    }
}

/// Returns whether the row has this stem.
fn has_stem(row: &Row<'_>, stem: &[char]) -> bool
    ensures { result ≡ true → (view_row row.now).outcome ≡ Stem stem.now }
{
    match row.outcome {
        Outcome::Stem(own) => own.as_slice() == stem,
        Outcome::Refused(_) => false,
    }
}

/// Returns whether a row has a stem, and a word that is kept, but was not noted.
fn shows(row: &Row<'_>, stem: &[char], words: &TextSet, kept: &TextSet) -> bool
    ensures stem { result ≡ true → (view_row row.now).outcome ≡ Stem stem.now }
    ensures words { result ≡ true → has words.now row.now.word.now ≡ false }
    ensures kept { result ≡ true → has kept.now row.now.word.now ≡ true }
{
    if words.has(row.word) {
        return false;
    }
    if has_stem(row, stem) {
        return kept.has(row.word);
    }
    false
}

/// Returns whether the row with this number shows a stem.
fn is_shown(rows: &[Row<'_>], number: usize, stem: &[char], words: &TextSet, kept: &TextSet) -> bool
    ensures { result ≡ true → spec.IsShown (has words.now) (has kept.now) (view_rows rows.now) stem.now }
{
    if number < rows.len() {
        return shows(&rows[number], stem, words, kept);
    }
    false
}

/// Puts in the word of the row with this number, which has a stem, unless another row shows the stem.
fn show_first(
    kept: &mut TextSet,
    found: &mut RowNumbers,
    rows: &[Row<'_>],
    number: usize,
    word: &[char],
    stem: &[char],
    words: &TextSet,
)
    ensures grows { (t : List ℕ) → has kept.old t ≡ true → has kept.new t ≡ true }
    ensures covered { (has kept.new word.now ≡ true) ⊎ spec.IsShown (has words.now) (has kept.new) (view_rows rows.now) stem.now }
{
    if is_shown(rows, found.of(stem), stem, words, kept) {
        return;
    }
    kept.insert(word);
    found.set(stem, number);
}

/// Puts in the word of the row with this number, if it is not noted, and has one of these stems, which no other row shows.
fn show_stem(
    kept: &mut TextSet,
    found: &mut RowNumbers,
    rows: &[Row<'_>],
    number: usize,
    row: &Row<'_>,
    words: &TextSet,
    stems: &TextSet,
)
    ensures grows { (t : List ℕ) → has kept.old t ≡ true → has kept.new t ≡ true }
    ensures covered { spec.IsCovered (has words.now) (has stems.now) (has kept.new) (view_rows rows.now) (view_row row.now) }
{
    if words.has(row.word) {
        return;
    }
    if let Outcome::Stem(stem) = row.outcome {
        if stems.has(stem.as_slice()) {
            show_first(kept, found, rows, number, row.word, stem.as_slice(), words);
        }
    }
}

/// Puts in a word for each of these stems, if a word has it that is not noted: the first of these, as far as it is found again.
/// Returns `AllocError` if an allocation fails.
pub(crate) fn show_stems(
    alloc: Global,
    kept: &mut TextSet,
    rows: &[Row<'_>],
    words: &TextSet,
    stems: &TextSet,
) -> Result<(), AllocError>
    ensures grows { OnOk result ((t : List ℕ) → has kept.old t ≡ true → has kept.new t ≡ true) }
    ensures covered { OnOk result (AllByRecursion (spec.IsCovered (has words.now) (has stems.now) (has kept.new) (view_rows rows.now)) (view_rows rows.now)) }
{
    let mut found = RowNumbers {
        numbers: vec![in alloc; 0usize; FOUND_PLACES]?,
    };
    for (number, row) in rows.iter().enumerate() {
        show_stem(kept, &mut found, rows, number, row, words, stems);
    }
    Ok(())
}

/// Returns the rows of noted words. Returns `AllocError` if an allocation fails.
pub(crate) fn rows_noted<'a>(
    alloc: Global,
    rows: &[Row<'a>],
    words: &TextSet,
) -> Result<Vec<Row<'a>>, AllocError>
    ensures { IfOk result (λ found. view_rows found.items ≡ filter (λ r. has words.now r.word) (view_rows rows.now)) }
{
    let mut found = Vec::new(alloc);
    for row in rows {
        if words.has(row.word) {
            found.push(Row {
                word: row.word,
                outcome: row.outcome,
            })?;
        }
    }
    Ok(found)
}

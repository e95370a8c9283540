//! The rows at the mark.
ghost use Rattle.std.specs.Prelude.{◌≡◌, IfOk, length, map};
ghost use Rattle.sbl_bench.specs.Contents.{rows_now};
ghost use Rattle.sbl_bench.specs.KeptRuns.{contents_of};
ghost use Rattle.sbl_rows.specs.Rows.{view_row, view_rows};
ghost use Rattle.sbl_rows.specs.StemRows.{rows_with, stem_row};
ghost use Rattle.sbl_semantics.specs.Outcome.{outcome_of};
ghost use Rattle.sbl_history.specs.Desks.{view_marked};

use sbl_bench::{Bench, Row};
use sbl_machine::Outcome;
use std::alloc::{AllocError, Global};

/// A row that is kept: a word and the outcome of its run.
#[derive(Drop)]
pub(crate) struct MarkedRow {
    word: Vec<char>,
    outcome: Outcome,
}

/// Returns a copy of an outcome. Returns `AllocError` if an allocation fails.
fn copy_outcome(alloc: Global, outcome: &Outcome) -> Result<Outcome, AllocError>
    ensures { IfOk result (λ copy. outcome_of copy ≡ outcome_of outcome.now) }
{
    match outcome {
        Outcome::Stem(stem) => Ok(Outcome::Stem(Vec::from_slice(alloc, stem.as_slice())?)),
        Outcome::Refused(fault) => Ok(Outcome::Refused(*fault)),
    }
}

/// Returns a copy of a row. Returns `AllocError` if an allocation fails.
fn copy_row(alloc: Global, row: &Row<'_>) -> Result<MarkedRow, AllocError>
    ensures { IfOk result (λ copy. view_marked copy ≡ view_row row.now) }
{
    Ok(MarkedRow {
        word: Vec::from_slice(alloc, row.word)?,
        outcome: copy_outcome(alloc, row.outcome)?,
    })
}

/// Returns copies of rows. Returns `AllocError` if an allocation fails.
fn copy_all(alloc: Global, rows: &[Row<'_>]) -> Result<Vec<MarkedRow>, AllocError>
    ensures { IfOk result (λ copies. map view_marked copies.items ≡ map view_row rows.now) }
{
    let mut copies = Vec::with_capacity(alloc, rows.len())?;
    for row in rows {
        let copy = copy_row(alloc, row)?;
        copies.push(copy)?;
    }
    Ok(copies)
}

/// Returns a copy of the rows of a bench. Returns `AllocError` if an allocation fails.
pub(crate) fn copy_rows(alloc: Global, bench: &Bench) -> Result<Vec<MarkedRow>, AllocError>
    ensures { IfOk result (λ copies. map view_marked copies.items ≡ rows_now (contents_of bench.now)) }
{
    let rows = bench.rows()?;
    copy_all(alloc, &rows)
}

/// Returns a row of a word with a stem. Returns `AllocError` if an allocation fails.
fn row_with(alloc: Global, word: &[char], stem: &[char]) -> Result<MarkedRow, AllocError>
    ensures { IfOk result (λ row. view_marked row ≡ stem_row (word.now, stem.now)) }
{
    let word = Vec::from_slice(alloc, word)?;
    let stem = Vec::from_slice(alloc, stem)?;
    Ok(MarkedRow {
        word,
        outcome: Outcome::Stem(stem),
    })
}

/// Returns the words of rows, each with the stem at its place. Returns `AllocError` if an allocation fails.
fn replace_stems(
    alloc: Global,
    rows: &[Row<'_>],
    stems: &[Vec<char>],
) -> Result<Vec<MarkedRow>, AllocError>
    requires { length stems.now ≡ length rows.now }
    ensures { IfOk result (λ marked. map view_marked marked.items ≡ rows_with (map (λ r. r.word) (view_rows rows.now)) (map (λ s. s.items) stems.now)) }
{
    let mut marked = Vec::with_capacity(alloc, rows.len())?;
    for (i, row) in rows.iter().enumerate() {
        let row = row_with(alloc, row.word, stems[i].as_slice())?;
        marked.push(row)?;
    }
    Ok(marked)
}

/// Returns the words of a bench, each with the stem at its place. Returns `AllocError` if an allocation fails.
pub(crate) fn rows_of_stems(
    alloc: Global,
    bench: &Bench,
    stems: &[Vec<char>],
) -> Result<Vec<MarkedRow>, AllocError>
    requires { length stems.now ≡ length (contents_of bench.now).words }
    ensures { IfOk result (λ marked. map view_marked marked.items ≡ rows_with (contents_of bench.now).words (map (λ s. s.items) stems.now)) }
{
    let rows = bench.rows()?;
    replace_stems(alloc, &rows, stems)
}

/// Returns the rows that are kept. Returns `AllocError` if an allocation fails.
pub(crate) fn views_of(alloc: Global, marked: &[MarkedRow]) -> Result<Vec<Row<'_>>, AllocError>
    ensures { IfOk result (λ rows. map view_row rows.items ≡ map view_marked marked.now) }
{
    let mut rows = Vec::with_capacity(alloc, marked.len())?;
    for row in marked {
        rows.push(Row {
            word: row.word.as_slice(),
            outcome: &row.outcome,
        })?;
    }
    Ok(rows)
}

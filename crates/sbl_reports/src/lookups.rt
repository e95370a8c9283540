//! What a text finds in a bench.
ghost use Rattle.std.specs.Prelude.{◌≡◌, IfOk, map};
ghost use Rattle.std.specs.List.{filter};
ghost use Rattle.std.specs.Option.{option_map};
ghost use Rattle.sbl_bench.specs.Contents.{rows_now};
ghost use Rattle.sbl_bench.specs.KeptRuns.{contents_of};
ghost use Rattle.sbl_rows.specs.Rows.{view_row};
ghost use Rattle.sbl_reports.specs.Lookups as spec;

use sbl_bench::{Bench, Row};
use sbl_records::records_text;
use sbl_semantics::Outcome;
use std::alloc::{AllocError, Global};

/// Returns whether a text contains another one.
fn contains_text(text: &[char], part: &[char]) -> bool
    ensures { result ≡ spec.contains_text text.now part.now }
{
    for i in 0..text.len() {
        if text[i..].starts_with(part) {
            return true;
        }
    }
    part.is_empty()
}

/// Returns whether the word or the stem of a row contains a text.
fn row_contains(row: &Row<'_>, part: &[char]) -> bool
    ensures { result ≡ spec.row_contains part.now (view_row row.now) }
{
    if contains_text(row.word, part) {
        return true;
    }
    match row.outcome {
        Outcome::Stem(stem) => contains_text(stem, part),
        Outcome::Refused(_) => false,
    }
}

/// Returns the rows of a bench that contain a text. Returns `AllocError` if an allocation fails.
fn rows_containing<'b>(
    alloc: Global,
    bench: &'b Bench,
    part: &[char],
) -> Result<Vec<Row<'b>>, AllocError>
    ensures { IfOk result (λ rows. map view_row rows.items ≡ filter (spec.row_contains part.now) (rows_now (contents_of bench.now))) }
{
    let mut rows = Vec::new(alloc);
    for row in bench.rows()? {
        if row_contains(&row, part) {
            rows.push(row)?;
        }
    }
    Ok(rows)
}

/// Returns the rows of the words that contain a text in themselves or in their stem, in vocabulary order. Returns `AllocError` if an
/// allocation fails.
pub fn found_text(alloc: Global, bench: &Bench, part: &[char]) -> Result<Vec<u8>, AllocError>
    ensures { IfOk result (λ text. text.items ≡ spec.found_text part.now (contents_of bench.now)) }
{
    let rows = rows_containing(alloc, bench, part)?;
    records_text(alloc, &rows)
}

/// Returns the class of a stem, as the report of all classes has it; `None` if no word has the stem. Returns `AllocError` if an
/// allocation fails.
pub fn stem_text(alloc: Global, bench: &Bench, stem: &[char]) -> Result<Option<Vec<u8>>, AllocError>
    ensures { IfOk result (λ text. option_map (λ t. t.items) text ≡ spec.stem_text stem.now (contents_of bench.now)) }
{
    match bench.class_with(stem)? {
        Some(class) => Ok(Some(records_text(alloc, &[class])?)),
        None => Ok(None),
    }
}

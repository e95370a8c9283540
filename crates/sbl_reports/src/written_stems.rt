//! The stems of a bench as lines of a text, and the stems in such a text.
ghost use Rattle.std.specs.Prelude.{◌≡◌, ◌++◌, IfOk, MatchOption, OnOk, false, length, map, true};
ghost use Rattle.std.specs.List.{flat_map, list_any};
ghost use Rattle.std.specs.Option.{option_map};
ghost use Rattle.std.specs.Prelude.{◌==◌};
ghost use Rattle.std.specs.Str.{chars, is_utf8};
ghost use Rattle.sbl_bench.specs.Contents.{rows_now};
ghost use Rattle.sbl_bench.specs.KeptRuns.{contents_of};
ghost use Rattle.sbl_io.specs.LinesOf.{lines_of};
ghost use Rattle.sbl_reports.specs.StemLines as spec;
ghost use Rattle.sbl_rows.specs.Rows.{view_rows};
ghost use Rattle.sbl_semantics.specs.Outcome.{outcome_of};

use sbl_bench::{Bench, Row};
use sbl_io::{first_line, text_of};
use sbl_semantics::Outcome;
use std::alloc::{AllocError, Global};

/// Returns whether a line feed is among characters. Does not allocate.
fn has_feed(text: &[char]) -> bool
    ensures { result ≡ list_any (λ c. c == 10) text.now }
{
    for character in text {
        if *character == '\n' {
            return true;
        }
    }
    false
}

/// Returns whether characters are one line. Does not allocate.
fn is_line(text: &[char]) -> bool
    ensures { result ≡ spec.is_line text.now }
{
    !has_feed(text) && text.last() != Some(&'\r')
}

/// Returns whether an outcome is a stem that is one line. Does not allocate.
fn has_line(outcome: &Outcome) -> bool
    ensures { result ≡ spec.has_line (outcome_of outcome.now) }
{
    match outcome {
        Outcome::Stem(stem) => is_line(stem.as_slice()),
        Outcome::Refused(_) => false,
    }
}

/// Returns whether the run of each word of a bench gives a stem without a line feed and without a carriage return at its end. Does not
/// allocate.
pub fn has_stem_lines(bench: &Bench) -> bool
    ensures { result ≡ spec.have_lines (rows_now (contents_of bench.now)) }
{
    for i in 0..bench.len() {
        // A bench has a row at each number below its length: the case without one is proved impossible.
        if let Some(row) = bench.row(i) {
            if !has_line(row.outcome) {
                return false;
            }
        }
    }
    true
}

/// Appends the line of a stem; nothing for a run that is refused. Returns `AllocError` if an allocation fails.
fn push_line(alloc: Global, text: &mut Vec<u8>, outcome: &Outcome) -> Result<(), AllocError>
    ensures { OnOk result (text.new.items ≡ text.old.items ++ spec.stem_line (outcome_of outcome.now)) }
{
    match outcome {
        Outcome::Stem(stem) => {
            let line = text_of(alloc, stem.as_slice())?;
            text.extend_from_slice(line.as_bytes())?;
            text.extend_from_slice(b"\n")
        }
        Outcome::Refused(_) => Ok(()),
    }
}

/// Returns the lines of the stems of rows. Returns `AllocError` if an allocation fails.
fn lines_of_rows(alloc: Global, rows: &[Row<'_>]) -> Result<Vec<u8>, AllocError>
    ensures { IfOk result (λ text. text.items ≡ flat_map (λ r. spec.stem_line r.outcome) (view_rows rows.now)) }
{
    let mut text = Vec::new(alloc);
    for row in rows {
        push_line(alloc, &mut text, row.outcome)?;
    }
    Ok(text)
}

/// Returns the stems of a bench, one a line, in vocabulary order; `None` if a run is refused, or if a stem has a line feed or ends in a
/// carriage return. Returns `AllocError` if an allocation fails.
pub fn stem_lines(alloc: Global, bench: &Bench) -> Result<Option<Vec<u8>>, AllocError>
    ensures { IfOk result (λ text. option_map (λ t. t.items) text ≡ spec.stem_lines (rows_now (contents_of bench.now))) }
{
    if !has_stem_lines(bench) {
        return Ok(None);
    }
    let rows = bench.rows()?;
    let text = lines_of_rows(alloc, &rows)?;
    Ok(Some(text))
}

/// Returns whether bytes are UTF-8. Does not allocate.
fn is_text(bytes: &[u8]) -> bool
    ensures { result ≡ is_utf8 bytes.now }
{
    str::from_utf8(bytes).is_ok()
}

/// Returns the number of lines of bytes; `None` if one of them is not UTF-8. Does not allocate.
pub fn text_line_count(bytes: &[u8]) -> Option<usize>
    ensures { MatchOption result (spec.are_text (lines_of bytes.now) ≡ false) (λ n. (spec.are_text (lines_of bytes.now) ≡ true) × (n ≡ length (lines_of bytes.now))) }
{
    let mut count = 0;
    let mut rest = bytes;
    while let Some((line, after)) = first_line(rest) {
        if !is_text(line) {
            return None;
        }
        count += 1;
        rest = after;
    }
    Some(count)
}

/// Returns the characters of a text. Returns `AllocError` if an allocation fails.
fn characters_of(alloc: Global, text: &str) -> Result<Vec<char>, AllocError>
    ensures { IfOk result (λ characters. characters.items ≡ chars text.now) }
{
    let mut characters = Vec::with_capacity(alloc, text.chars().count())?;
    characters.extend(text.chars())?;
    Ok(characters)
}

/// Returns the stem in a line.
fn stem_in(alloc: Global, line: &[u8]) -> Result<Vec<char>, AllocError>
    requires { is_utf8 line.now ≡ true }
    ensures { IfOk result (λ stem. stem.items ≡ chars line.now) }
{
    match str::from_utf8(line) {
        Ok(text) => characters_of(alloc, text),
        Err(_) => unreachable!(),
    }
}

/// Returns the stems in the lines of bytes. Each line has to be UTF-8. Returns `AllocError` if an allocation fails.
pub fn stems_in(alloc: Global, bytes: &[u8]) -> Result<Vec<Vec<char>>, AllocError>
    requires { spec.are_text (lines_of bytes.now) ≡ true }
    ensures { IfOk result (λ stems. map (λ s. s.items) stems.items ≡ spec.stems_in bytes.now) }
{
    let mut stems = Vec::new(alloc);
    let mut rest = bytes;
    while let Some((line, after)) = first_line(rest) {
        let stem = stem_in(alloc, line)?;
        stems.push(stem)?;
        rest = after;
    }
    Ok(stems)
}

//! Figures about rows and their classes.

ghost use Rattle.std.specs.Prelude.{◌≡◌, IfOk, count_by, map, option_map};
ghost use Rattle.sbl_rows.specs.Changes.{is_one};
ghost use Rattle.sbl_rows.specs.Classes as classes;
ghost use Rattle.sbl_rows.specs.Classes.{view_class, view_stem_classes};
ghost use Rattle.sbl_rows.specs.Grouping.{view_pair, view_pairs};
ghost use Rattle.sbl_rows.specs.Rows.{view_row, view_rows};
ghost use Rattle.sbl_rows.specs.Stats as spec;

use crate::class::Class;
use crate::lists::push_some;
use crate::row::Row;
use crate::stem_class::{StemClass, StemPair, classes_of};
use sbl_semantics::Outcome;
use std::alloc::{AllocError, Global};

/// Figures about rows and their classes.
#[derive(Clone, Copy, Debug, PartialEq, Eq)]
pub struct RowStats {
    /// The number of words.
    pub words: usize,
    /// The number of words whose run is refused.
    pub refused: usize,
    /// The number of classes.
    pub classes: usize,
    /// The number of classes of one word.
    pub alone: usize,
    /// The number of words in the largest class; 0 if there is none.
    pub largest: usize,
    /// The number of words that are their own stem.
    pub unchanged: usize,
}

/// Returns figures about rows, whose classes these are. Each word has one row. Does not allocate.
pub fn stats(rows: &[Row<'_>], classes: &[Class]) -> RowStats
    ensures { spec.view_stats result ≡ spec.stats_in (view_rows rows.now) (map view_class classes.now) }
{
    RowStats {
        words: rows.len(),
        refused: refused_words(rows),
        classes: classes.len(),
        alone: classes_of_one(classes),
        largest: largest_size(classes),
        unchanged: unchanged_words(rows),
    }
}

/// Returns the classes of the rows, stems and words in code point order. Returns `AllocError` if an allocation fails.
pub(crate) fn word_classes<'a>(
    alloc: Global,
    rows: &[Row<'a>],
) -> Result<Vec<StemClass<'a>>, AllocError>
    ensures { IfOk result (λ found. view_stem_classes found.items ≡ classes.classes_of (view_rows rows.now)) }
{
    classes_of(alloc, &word_pairs(alloc, rows)?)
}

/// Returns each word that has a stem with it. Returns `AllocError` if an allocation fails.
fn word_pairs<'a>(alloc: Global, rows: &[Row<'a>]) -> Result<Vec<StemPair<'a>>, AllocError>
    ensures { IfOk result (λ pairs. view_pairs pairs.items ≡ classes.stem_pairs (view_rows rows.now)) }
{
    let mut pairs = Vec::new(alloc);
    for row in rows {
        push_some(&mut pairs, pair_of(row))?;
    }
    Ok(pairs)
}

/// Returns the word with its stem, if it has one.
fn pair_of<'a>(row: &Row<'a>) -> Option<StemPair<'a>>
    ensures { option_map view_pair result ≡ classes.pair_of (view_row row.now).word (view_row row.now).outcome }
{
    match row.outcome {
        Outcome::Stem(stem) => Some(StemPair {
            stem: stem.as_slice(),
            member: row.word,
        }),
        Outcome::Refused(_) => None,
    }
}

/// Returns whether the word is its own stem.
fn is_itself(row: &Row<'_>) -> bool
    ensures { result ≡ spec.is_itself (view_row row.now).word (view_row row.now).outcome }
{
    match row.outcome {
        Outcome::Stem(stem) => row.word == stem.as_slice(),
        Outcome::Refused(_) => false,
    }
}

/// Returns whether the word's run is refused.
fn is_refused(row: &Row<'_>) -> bool
    ensures { result ≡ spec.is_refused (view_row row.now).outcome }
{
    match row.outcome {
        Outcome::Stem(_) => false,
        Outcome::Refused(_) => true,
    }
}

/// Returns the number of words whose run is refused.
fn refused_words(rows: &[Row<'_>]) -> usize
    ensures { result ≡ count_by (λ r. spec.is_refused (view_row r).outcome) rows.now }
{
    rows.iter().filter(|row| is_refused(row)).count()
}

/// Returns the number of words that are their own stem.
fn unchanged_words(rows: &[Row<'_>]) -> usize
    ensures { result ≡ count_by (λ r. spec.is_itself (view_row r).word (view_row r).outcome) rows.now }
{
    rows.iter().filter(|row| is_itself(row)).count()
}

/// Returns the number of classes of one word.
fn classes_of_one(classes: &[Class]) -> usize
    ensures { result ≡ count_by (λ c. is_one (view_class c).members) classes.now }
{
    classes.iter().filter(|class| is_of_one(class)).count()
}

/// Returns whether the class has one word.
fn is_of_one(class: &Class) -> bool
    ensures { result ≡ is_one (view_class class.now).members }
{
    matches!(class.words.as_slice(), [_])
}

/// Returns the number of words in the largest class; 0 if there is none.
fn largest_size(classes: &[Class]) -> usize
    ensures { result ≡ spec.largest_size (map view_class classes.now) }
{
    let mut largest = 0;
    for class in classes {
        largest = class.words.len().max(largest);
    }
    largest
}

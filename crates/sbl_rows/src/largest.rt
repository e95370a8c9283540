//! The largest classes.

ghost use Rattle.std.specs.Prelude.{◌≡◌, IfOk, map};
ghost use Rattle.sbl_rows.specs.Classes.{view_stem_classes};
ghost use Rattle.sbl_rows.specs.Largest as spec;
ghost use Rattle.sbl_rows.specs.Ranking as ranked;
ghost use Rattle.sbl_rows.specs.Rows.{view_rows};

use crate::figures::word_classes;
use crate::row::Row;
use crate::stem_class::StemClass;
use std::alloc::{AllocError, Global};
use std::cmp::Reverse;
use std::collections::BTreeMap;

/// The members of classes, by size and stem; the largest class is first.
type Ranking<'a> = BTreeMap<(Reverse<usize>, &'a [char]), Vec<&'a [char]>>;

/// Returns the `n` largest classes of the rows, the largest first; classes of one size are in code point order of their stems. Returns
/// all classes, if there are no more than `n`. Each word has one row. Returns `AllocError` if an allocation fails.
pub fn largest_classes<'a>(
    alloc: Global,
    rows: &[Row<'a>],
    n: usize,
) -> Result<Vec<StemClass<'a>>, AllocError>
    ensures { IfOk result (λ largest. view_stem_classes largest.items ≡ spec.largest_of n (view_rows rows.now)) }
{
    let classes = word_classes(alloc, rows)?;
    let ranking = ranking_of(alloc, classes)?;
    let mut largest = in_rank(alloc, ranking)?;
    largest.truncate(n);
    Ok(largest)
}

/// Returns the classes by size and stem. Returns `AllocError` if an allocation fails.
fn ranking_of<'a>(alloc: Global, mut classes: Vec<StemClass<'a>>) -> Result<Ranking<'a>, AllocError>
    ensures { IfOk result (λ found. map ranked.view_entry found.entries ≡ spec.by_size (view_stem_classes classes.entry.items)) }
{
    let mut ranking = BTreeMap::new(alloc);
    while let Some(class) = classes.pop() {
        let StemClass { stem, members } = class;
        ranking.insert((Reverse(members.len()), stem), members)?;
    }
    Ok(ranking)
}

/// Returns the classes in the order of the ranking. Returns `AllocError` if an allocation fails.
fn in_rank<'a>(alloc: Global, ranking: Ranking<'a>) -> Result<Vec<StemClass<'a>>, AllocError>
    ensures { IfOk result (λ classes. view_stem_classes classes.items ≡ map ranked.view_entry ranking.entry.entries) }
{
    let mut classes = Vec::new(alloc);
    for ((_, stem), members) in ranking {
        classes.push(StemClass { stem, members })?;
    }
    Ok(classes)
}

//! Families: words that belong together, and how far their stems agree with that.

ghost use Rattle.std.specs.Prelude.{◌≡◌, IfOk};
ghost use Rattle.sbl_rows.specs.Families.{family_results, view_results, view_words};
ghost use Rattle.sbl_rows.specs.Rows.{view_rows};

use crate::counted_words::families_of;
use crate::family_pairs::pairs_row;
use crate::family_rows::{push_over, push_under};
use crate::outcomes::outcomes_of;
use crate::row::Row;
use crate::stem_class::StemClass;
use crate::unknown_words::count_unknown;
use std::alloc::{AllocError, Global};

/// A row about families.
#[derive(Debug, Drop)]
pub enum FamilyRow<'a> {
    /// The words of a family have two stems or more.
    Under {
        /// The first word of the family.
        word: &'a [char],
        /// The stems, in code point order.
        stems: Vec<&'a [char]>,
    },
    /// Words of two families or more have one stem. The members are the first word with it of each such family, in the order of
    /// the families.
    Over(StemClass<'a>),
    /// The numbers of pairs of words.
    Pairs(PairCounts),
    /// The number of words that have no row.
    Unknown(usize),
}

/// Numbers of pairs of words.
#[derive(Clone, Copy, Debug)]
pub struct PairCounts {
    /// The pairs of words of one family.
    pub within: u128,
    /// Those of them that have different stems.
    pub apart: u128,
    /// The pairs of words of two families.
    pub across: u128,
    /// Those of them that have the same stem.
    pub joined: u128,
}

/// Returns how far stems agree with families, which are lists of words. A word counts if it has a row and a stem, and was not before,
/// in its family or an earlier one. First the families whose words have two stems or more, in their order; then the stems that words
/// of two families or more have, in code point order; then the numbers of pairs; last the number of different words of the lists that
/// have no row. Each word has one row; of several the first counts. Returns `AllocError` if an allocation fails.
pub fn families<'a>(
    alloc: Global,
    rows: &[Row<'a>],
    lists: &[Vec<&'a [char]>],
) -> Result<Vec<FamilyRow<'a>>, AllocError>
    ensures { IfOk result (λ found. view_results found.items ≡ family_results (view_rows rows.now) (view_words lists.now)) }
{
    let mut outcomes = outcomes_of(alloc, rows)?;
    let unknown = count_unknown(alloc, &outcomes, lists)?;
    let families = families_of(alloc, &mut outcomes, lists)?;
    let mut found = Vec::new(alloc);
    push_under(alloc, &mut found, &families)?;
    push_over(alloc, &mut found, &families)?;
    let pairs = pairs_row(alloc, &families)?;
    found.push(pairs)?;
    found.push(FamilyRow::Unknown(unknown))?;
    Ok(found)
}

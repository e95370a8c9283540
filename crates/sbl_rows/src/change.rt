//! A change between two lists of rows.

use crate::stem_class::StemClass;
use sbl_semantics::Outcome;

/// A change between two lists of rows.
#[derive(Debug, Drop)]
pub enum ChangeRow<'a> {
    /// The word has a row only in the second list.
    Added(&'a [char]),
    /// The word has a row only in the first list.
    Removed(&'a [char]),
    /// The word has another outcome in the second list than in the first.
    Changed {
        /// The word.
        word: &'a [char],
        /// Its outcome in the first list.
        before: &'a Outcome,
        /// Its outcome in the second list.
        after: &'a Outcome,
    },
    /// The words of a class of the first list have two stems or more in the second, which are the members here.
    Split(StemClass<'a>),
    /// The words of a class of the second list have two stems or more in the first, which are the members here.
    Merged(StemClass<'a>),
    /// The words of a class of the first list are exactly those of one class of the second, and that has another stem.
    Renamed {
        /// The stem in the first list.
        from: &'a [char],
        /// The stem in the second list.
        to: &'a [char],
    },
}

/// One of the two lists of rows.
#[derive(Clone, Copy, Debug)]
pub(crate) enum Side {
    /// The first list.
    First,
    /// The second list.
    Second,
}

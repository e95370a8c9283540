//! The tables of a script's amongs, by number.

ghost use Rattle.std.specs.Prelude.{◌≡◌, ◌≤◌, ◌++◌, ◌∷◌, List, ℕ, length, map, slice_get, IfOk};
ghost use Rattle.sbl_semantics.specs.Fitting.{first};
ghost use Rattle.sbl_program.specs.AmongStrings.{Listing};
ghost use Rattle.sbl_program.specs.FoundView.{listing_found};
ghost use Rattle.sbl_program.specs.Listing.{fits_at, listed_by, listed_of};

use sbl_program::{AmongSearch, AmongStrings};
use std::alloc::{AllocError, Global};

/// The searches of all amongs of a script.
pub trait Tables {
    /// The strings of an among, and the mode in which they are read.
    ghost listed: { Self → ℕ → Listing };

    /// Returns the longest string of an among that matches at an offset, up to a bound.
    fn longest(&self, table: usize, text: &[char], at: usize, bound: usize) -> Option<usize>
        requires at_in { at ≤ length text.now }
        requires bound_in { bound ≤ length text.now }
        ensures { result ≡ first (fits_at (listed self.now table) text.now at bound) };

    /// Returns the longest string after this one that matches wherever this one does.
    fn next_shorter(&self, table: usize, i: usize) -> Option<usize>
        ensures { (text : List ℕ) (at bound : ℕ) (before rest : List ℕ) → fits_at (listed self.now table) text at bound ≡ before ++ (i ∷ rest) → result ≡ first rest };
}

/// One table for each among.
#[derive(Drop)]
pub struct TableList<S> {
    /// The tables, in the order of their amongs.
    pub tables: Vec<S>,
}

impl<S: AmongSearch> Tables for TableList<S> {
    ghost listed = { λ t k. listed_by S S.entries S.mode (slice_get t.tables.items k) };

    fn longest(&self, table: usize, text: &[char], at: usize, bound: usize) -> Option<usize> {
        match self.tables.get(table) {
            None => None,
            Some(search) => search.longest(text, at, bound),
        }
    }

    fn next_shorter(&self, table: usize, i: usize) -> Option<usize> {
        match self.tables.get(table) {
            None => None,
            Some(search) => search.next_shorter(i),
        }
    }
}

/// Returns a table for each among. Returns `AllocError` if an allocation fails.
pub fn tables_of<S: AmongSearch>(
    alloc: Global,
    amongs: &[AmongStrings],
) -> Result<Vec<S>, AllocError>
    ensures { IfOk result (λ ts. map (listed_of S S.entries S.mode) ts.items ≡ map listing_found amongs.now) }
{
    let mut tables = Vec::new(alloc);
    for among in amongs {
        tables.push(S::build(alloc, &among.strings, among.mode)?)?;
    }
    Ok(tables)
}

//! The occurrences collected so far.

ghost use Rattle.std.specs.Prelude.{◌≡◌, [], List, ◌+◌, OnOk, ◌≤◌, length};
ghost use Rattle.sbl_resolver.specs.Occurrences as spec;
ghost use Rattle.sbl_resolver.specs.inside.CheckParts as parts;
ghost use Rattle.sbl_resolver.specs.OccurrenceView.{view_notice, view_occurrences};

use crate::occurrences::{Notice, Occurrence, Site};
use std::alloc::{AllocError, Global};
use std::marker::Model;

/// The occurrences so far, and the number of amongs in the last routine among them.
#[derive(Drop)]
pub struct SoFar<'a> {
    occurrences: Vec<Occurrence<'a>>,
    amongs: usize,
}

impl<'a> Model for SoFar<'a> {
    ghost use Rattle.std.specs.Prelude.{◌≡◌, List};
    ghost use Rattle.sbl_resolver.specs.declared.occurrences.Occurrence.{Occurrence};
    ghost use Rattle.sbl_resolver.specs.Occurrences.{amongs_in};
    ghost use Rattle.sbl_resolver.specs.OccurrenceView.{view_occurrences};

    ghost Value = { List Occurrence };

    ghost view = { λ s. s.occurrences.items };

    ghost invariant = { λ s. s.amongs ≡ amongs_in (view_occurrences s.occurrences.items) 0 };
}

impl<'a> SoFar<'a> {
    /// Returns an empty list. Does not allocate.
    pub fn new(alloc: Global) -> SoFar<'a>
        ensures { result ≡ [] }
    {
        SoFar {
            occurrences: Vec::new(alloc),
            amongs: 0,
        }
    }

    /// Returns the number of the next among in its item.
    pub fn next_among(&self) -> usize
        ensures { result ≡ spec.amongs_in (view_occurrences self.now) 0 + 1 }
    {
        // There are at most as many amongs as occurrences.
        let _most = self.occurrences.as_slice().len() + 1;
        self.amongs + 1
    }

    /// Appends an occurrence. Returns `AllocError` if an allocation fails.
    pub fn put(&mut self, notice: Notice<'a>, site: Site) -> Result<(), AllocError>
        ensures { OnOk result (view_occurrences self.new ≡ spec.put (view_notice notice.entry) site (view_occurrences self.old)) }
    {
        let next = self.next_among();
        self.occurrences.push(Occurrence { site, notice })?;
        self.amongs = amongs_after(notice, self.amongs, next);
        Ok(())
    }

    /// Returns the occurrences.
    pub fn into_vec(self) -> Vec<Occurrence<'a>>
        ensures { result.items ≡ self.entry }
    {
        self.occurrences
    }
}

/// Returns the number of amongs of the current routine after an occurrence, given the number before it. `next` is that
/// number plus 1.
fn amongs_after(notice: Notice, amongs: usize, next: usize) -> usize
    ensures { next ≡ amongs + 1 → result ≡ parts.amongs_after (view_notice notice.entry) amongs }
{
    match notice {
        Notice::DefinesRoutine(_) => 0,
        Notice::Among {
            has_starter: _,
            is_empty: _,
        } => next,
        _ => amongs,
    }
}

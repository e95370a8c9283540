//! A search of sorted strings. Each string has a link to the longest shorter string that is a prefix of it.

ghost use Rattle.std.specs.Prelude.{map};
ghost use Rattle.sbl_semantics.specs.Fitting.{read_all};
ghost use Rattle.sbl_program.specs.Beginnings.{AreBeginnings, has_remainder};
ghost use Rattle.sbl_program.specs.Keys.{AreKeys};
ghost use Rattle.sbl_program.specs.Linked.{IsLinked, texts_of};

mod beginnings;
mod keys;
mod links;
mod reading;
mod rows;

use crate::linked::beginnings::{Beginnings, beginnings_of};
use crate::linked::keys::keys_of;
use crate::linked::links::{best_of, links_of};
use crate::linked::rows::rows_of;
use crate::plain::{ahead, copy_strings};
use crate::search::AmongSearch;
use sbl_ast::Mode;
use std::alloc::{AllocError, Global};
use std::cmp::Reverse;

/// Sorted strings with links.
#[derive(Drop)]
pub struct LinkedTable {
    direction: Mode,
    beginnings: Beginnings,
    strings: Vec<Vec<char>>,
    // The strings as read in the mode, sorted, each with its number. Of equal strings the one with the smallest number
    // is last.
    rows: Vec<(Vec<char>, Reverse<usize>)>,
    // For each row, the key of its string.
    keys: Vec<u64>,
    // For each row, the last row of the longest shorter string that is a prefix of it.
    links: Vec<Option<usize>>,
    ghost linked: { ∥ IsLinked (read_all direction (map (λ v. v.items) strings.items)) rows.items links.items ∥₁ },
    ghost keyed: { ∥ AreKeys (texts_of rows.items) keys.items ∥₁ },
    ghost begun: { ∥ AreBeginnings (has_remainder beginnings.remainders) beginnings.everywhere (texts_of rows.items) ∥₁ },
}

impl LinkedTable {
    ghost use Rattle.sbl_program.specs.Best.{IsBest};
    ghost use Rattle.sbl_semantics.specs.Fitting.{read_as};
    ghost use Rattle.sbl_program.specs.LinkedStrings.{strings_of};

    /// Returns the number of the longest string with fewer than `below` characters that is a prefix of the text read.
    fn best(&self, part: &[char], below: usize) -> Option<usize>
        ensures { ∥ IsBest (strings_of self.now) (read_as self.now.direction part.now) below result ∥₁ }
    {
        match self.direction {
            Mode::Forward => best_of(
                &self.rows,
                &self.keys,
                &self.links,
                Mode::Forward,
                part,
                below,
            ),
            Mode::Backward => best_of(
                &self.rows,
                &self.keys,
                &self.links,
                Mode::Backward,
                part,
                below,
            ),
        }
    }
}

impl AmongSearch for LinkedTable {
    ghost use Rattle.sbl_program.specs.LinkedStrings.{entries_of, mode_of};

    ghost entries = { entries_of };

    ghost mode = { mode_of };

    fn build(alloc: Global, strings: &[Vec<char>], direction: Mode) -> Result<Self, AllocError> {
        let rows = rows_of(alloc, strings, direction)?;
        let keys = keys_of(alloc, &rows)?;
        let links = links_of(alloc, &rows)?;
        let beginnings = beginnings_of(&rows);
        let copies = copy_strings(alloc, strings)?;
        Ok(LinkedTable {
            direction,
            beginnings,
            strings: copies,
            rows,
            keys,
            links,
        })
    }

    fn longest(&self, text: &[char], at: usize, bound: usize) -> Option<usize> {
        let part = ahead(self.direction, text, at, bound);
        if !self.beginnings.may_begin(self.direction, part) {
            return None;
        }
        self.best(part, part.len() + 1)
    }

    fn next_shorter(&self, i: usize) -> Option<usize> {
        match self.strings.get(i) {
            None => None,
            Some(string) => self.best(string, string.len()),
        }
    }
}

//! A search that compares each string.

ghost use Rattle.std.specs.Prelude.{◌≡◌, ◌≤◌, ◌++◌, ◌∷◌, [], IfOk, map, nat_eq, length};
ghost use Rattle.std.specs.List.{starts_with};
ghost use Rattle.sbl_semantics.specs.Fitting.{ahead_at, read_as};
ghost use Rattle.sbl_program.specs.Best.{IsBest, IsNextBest};
ghost use Rattle.sbl_program.specs.Strings.{entries_of, mode_of, strings_of};

use crate::search::AmongSearch;
use sbl_ast::Mode;
use std::alloc::{AllocError, Global};

/// A list of strings.
#[derive(Drop)]
pub struct PlainTable {
    strings: Vec<Vec<char>>,
    direction: Mode,
}

impl PlainTable {
    /// Returns the number of the longest string with fewer than `below` characters that is a prefix of the text read.
    fn best(&self, part: &[char], below: usize) -> Option<usize>
        ensures { IsBest (strings_of self.now) (read_as self.now.direction part.now) below result }
    {
        let mut best = (None, 0);
        for (i, string) in self.strings.iter().enumerate() {
            best = better(self.direction, part, below, i, string, best);
        }
        best.0
    }
}

/// Updates the best string so far, and one more than its length, for the next string.
fn better(
    direction: Mode,
    part: &[char],
    below: usize,
    i: usize,
    string: &[char],
    best: (Option<usize>, usize),
) -> (Option<usize>, usize)
    ensures { IsNextBest (read_as direction part.now) below i (read_as direction string.now) best result }
{
    if string.len() < best.1 {
        return best;
    }
    if string.len() >= below {
        return best;
    }
    if !is_prefix(direction, part, string) {
        return best;
    }
    (Some(i), string.len() + 1)
}

impl AmongSearch for PlainTable {
    ghost entries = { entries_of };

    ghost mode = { mode_of };

    fn build(alloc: Global, strings: &[Vec<char>], direction: Mode) -> Result<Self, AllocError> {
        Ok(PlainTable {
            strings: copy_strings(alloc, strings)?,
            direction,
        })
    }

    fn longest(&self, text: &[char], at: usize, bound: usize) -> Option<usize> {
        let part = ahead(self.direction, text, at, bound);
        self.best(part, part.len() + 1)
    }

    fn next_shorter(&self, i: usize) -> Option<usize> {
        match self.strings.get(i) {
            None => None,
            Some(string) => self.best(string, string.len()),
        }
    }
}

/// Returns copies of strings. Returns `AllocError` if an allocation fails.
pub fn copy_strings(alloc: Global, strings: &[Vec<char>]) -> Result<Vec<Vec<char>>, AllocError>
    ensures { IfOk result (λ copies. map (λ v. v.items) copies.items ≡ map (λ v. v.items) strings.now) }
{
    let mut copies = Vec::with_capacity(alloc, strings.len())?;
    for string in strings {
        add(alloc, &mut copies, string)?;
    }
    Ok(copies)
}

/// Returns a copy of a string. Returns `AllocError` if an allocation fails.
fn copy_string(alloc: Global, string: &[char]) -> Result<Vec<char>, AllocError>
    ensures { IfOk result (λ v. v.items ≡ string.now) }
{
    string.to_vec(alloc)
}

/// Appends a copy of a string. Returns `AllocError` if an allocation fails.
fn add(alloc: Global, copies: &mut Vec<Vec<char>>, string: &[char]) -> Result<(), AllocError>
    ensures { IfOk result (λ _. map (λ v. v.items) copies.new.items ≡ map (λ v. v.items) copies.old.items ++ (string.now ∷ [])) }
{
    copies.push(copy_string(alloc, string)?)?;
    Ok(())
}

/// Returns the text between `at` and `bound`, in text order: from `at` to `bound` in forward mode, from `bound` to `at`
/// in backward mode. Empty if `at` is already past `bound`.
pub fn ahead(direction: Mode, text: &[char], at: usize, bound: usize) -> &[char]
    requires at_in { at ≤ length text.now }
    requires bound_in { bound ≤ length text.now }
    ensures { read_as direction result.now ≡ ahead_at direction text.now at bound }
{
    match direction {
        Mode::Forward => { if at < bound { &text[at..bound] } else { &[] } }
        Mode::Backward => { if bound < at { &text[bound..at] } else { &[] } }
    }
}

// Returns whether the string is a prefix of `part` (forward mode) or a suffix of `part` (backward mode).
fn is_prefix(direction: Mode, part: &[char], string: &[char]) -> bool
    ensures { result ≡ starts_with nat_eq (read_as direction part.now) (read_as direction string.now) }
{
    match direction {
        Mode::Forward => part.starts_with(string),
        Mode::Backward => part.ends_with(string),
    }
}

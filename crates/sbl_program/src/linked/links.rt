//! The search of a linked table.

ghost use Rattle.std.specs.Prelude.{◌≡◌, ℕ, ◌<◌, ◌≤◌, ◌-◌, true, List, nat_eq, length, slice_get, Some, IfOk, IfSome, MatchBool};
ghost use Rattle.std.specs.List.{starts_with};
ghost use Rattle.std.specs.Ordering.{is_gt, nat_cmp};
ghost use Rattle.std.specs.Cmp.Lexicographic.{slice_cmp};
ghost use Rattle.sbl_program.specs.Best.{IsBest};
ghost use Rattle.sbl_program.specs.Keys.{AreKeys, IsKey};
ghost use Rattle.sbl_semantics.specs.Fitting.{read_as};
ghost use Rattle.sbl_program.specs.Linked.{AreLinks, GoDown, IsCommon, IsCount, IsLast, IsLinked, Rise, StandsAt, before, texts_of as texts};

use crate::linked::keys::{key_of, keys_upto};
use crate::linked::reading::read_at;
use sbl_ast::Mode;
use std::alloc::{AllocError, Global};
use std::cmp::Reverse;

/// Returns the number of the longest string with fewer than `below` characters that is a prefix of the text read. The
/// caller passes a constant mode, so that the search is compiled once for each mode.
#[inline(always)]
pub fn best_of(
    rows: &[(Vec<char>, Reverse<usize>)],
    keys: &[u64],
    links: &[Option<usize>],
    direction: Mode,
    part: &[char],
    below: usize,
) -> Option<usize>
    requires keyed { AreKeys (texts rows.now) keys.now }
    requires down { GoDown links.now }
    requires long { length links.now ≡ length rows.now }
    requires rise { Rise (texts rows.now) }
    ensures { (strings : List (List ℕ)) → IsLinked strings rows.now links.now → IsBest strings (read_as direction part.now) below result }
{
    let count = count_upto(rows, keys, direction, part);
    match follow(rows, links, direction, part, below, count) {
        None => None,
        Some(row) => Some(rows[row].1.0),
    }
}

/// Returns the links of the rows. Returns `AllocError` if an allocation fails.
pub fn links_of(
    alloc: Global,
    rows: &[(Vec<char>, Reverse<usize>)],
) -> Result<Vec<Option<usize>>, AllocError>
    requires { Rise (texts rows.now) }
    ensures are { IfOk result (λ links. AreLinks (texts rows.now) links.items) }
    ensures down { IfOk result (λ links. GoDown links.items) }
    ensures long { IfOk result (λ links. length links.items ≡ length rows.now) }
{
    let mut links = Vec::with_capacity(alloc, rows.len())?;
    for (i, row) in rows.iter().enumerate() {
        let link = follow(rows, &links, Mode::Forward, &row.0, row.0.len(), i);
        links.push(link)?;
    }
    Ok(links)
}

// Returns the first row that matches, following the links from row `count - 1`.
#[inline(always)]
fn follow(
    rows: &[(Vec<char>, Reverse<usize>)],
    links: &[Option<usize>],
    direction: Mode,
    part: &[char],
    below: usize,
    count: usize,
) -> Option<usize>
    requires down { GoDown links.now }
    requires linked { count ≤ length links.now }
    requires long { length links.now ≤ length rows.now }
    ensures last { AreLinks (texts rows.now) links.now → StandsAt (texts rows.now) (read_as direction part.now) below (before count) → IsLast (texts rows.now) (read_as direction part.now) below result }
    ensures inside { IfSome result (λ r. r < count) }
{
    let mut at = row_before(count);
    while let Some(row) = at {
        if is_shorter_prefix(direction, part, &rows[row].0, below) {
            return Some(row);
        }
        at = links[row];
    }
    None
}

// Returns the index of the last of the first `count` rows, or `None` if `count` is 0.
fn row_before(count: usize) -> Option<usize>
    ensures { result ≡ before count }
{
    if count == 0 { None } else { Some(count - 1) }
}

// Returns the number of rows that do not sort after the text read.
#[inline(always)]
fn count_upto(
    rows: &[(Vec<char>, Reverse<usize>)],
    keys: &[u64],
    direction: Mode,
    part: &[char],
) -> usize
    requires rise { Rise (texts rows.now) }
    requires keyed { AreKeys (texts rows.now) keys.now }
    ensures { IsCount (texts rows.now) (read_as direction part.now) result }
{
    let key = key_of(direction, part);
    let count = keys_upto(keys, key);
    if count == 0 {
        return 0;
    }
    if is_row_after(direction, part, key, &rows[count - 1], keys[count - 1]) {
        return count_before(rows, keys, direction, part, key, count - 1);
    }
    count
}

// Returns the number of rows that do not sort after the text read, if those from `end` on do.
fn count_before(
    rows: &[(Vec<char>, Reverse<usize>)],
    keys: &[u64],
    direction: Mode,
    part: &[char],
    key: u64,
    end: usize,
) -> usize
    requires rise { Rise (texts rows.now) }
    requires keyed { AreKeys (texts rows.now) keys.now }
    requires own { IsKey (read_as direction part.now) key }
    requires end_in { end ≤ length rows.now }
    requires following { (j : ℕ) (v : List ℕ) → end ≤ j → slice_get (texts rows.now) j ≡ Some v → is_gt (slice_cmp nat_cmp v (read_as direction part.now)) ≡ true }
    ensures { IsCount (texts rows.now) (read_as direction part.now) result }
{
    let mut low = 0;
    let mut high = end;
    while low < high {
        let middle = low + (high - low) / 2;
        if is_row_after(direction, part, key, &rows[middle], keys[middle]) {
            high = middle;
        } else {
            low = middle + 1;
        }
    }
    low
}

// Returns whether the row with key `row_key` sorts after the text read, whose key is `key`. Mostly the keys decide.
#[inline(always)]
fn is_row_after(
    direction: Mode,
    part: &[char],
    key: u64,
    row: &(Vec<char>, Reverse<usize>),
    row_key: u64,
) -> bool
    requires own { IsKey (read_as direction part.now) key }
    requires keyed { IsKey row.now.0.items row_key }
    ensures { result ≡ is_gt (slice_cmp nat_cmp row.now.0.items (read_as direction part.now)) }
{
    if row_key != key {
        return row_key > key;
    }
    is_after(direction, part, &row.0)
}

// Returns whether the string has fewer than `below` characters and is a prefix of the text read.
#[inline(always)]
fn is_shorter_prefix(direction: Mode, part: &[char], text: &[char], below: usize) -> bool
    ensures { let starts = starts_with nat_eq (read_as direction part.now) text.now in MatchBool result ((starts ≡ true) × (length text.now < below)) (starts ≡ true → below ≤ length text.now) }
{
    text.len() < below && common(direction, part, text) == text.len()
}

// Returns whether the string sorts after the text read.
#[inline(always)]
fn is_after(direction: Mode, part: &[char], text: &[char]) -> bool
    ensures { result ≡ is_gt (slice_cmp nat_cmp text.now (read_as direction part.now)) }
{
    let count = common(direction, part, text);
    if count >= text.len() {
        return false;
    }
    if count >= part.len() {
        return true;
    }
    read_at(direction, part, count) < text[count]
}

// Returns the length of the common prefix of the text read and the string.
#[inline(always)]
fn common(direction: Mode, part: &[char], text: &[char]) -> usize
    ensures { IsCommon (read_as direction part.now) text.now result }
{
    for (i, character) in text.iter().enumerate() {
        if i >= part.len() {
            return i;
        }
        if read_at(direction, part, i) != *character {
            return i;
        }
    }
    text.len()
}

//! The rows of a linked table.

ghost use Rattle.std.specs.Prelude.{◌≡◌, IfOk, map};
ghost use Rattle.sbl_semantics.specs.Fitting.{read_all, read_as};
ghost use Rattle.sbl_program.specs.Linked.{AreOwn, AreRows, numbers_of, texts_of};

use sbl_ast::Mode;
use std::alloc::{AllocError, Global};
use std::cmp::Reverse;

/// Returns the strings as read in the mode, sorted, each with its number. Of equal strings the one with the smallest
/// number is last. Returns `AllocError` if an allocation fails.
pub fn rows_of(
    alloc: Global,
    strings: &[Vec<char>],
    direction: Mode,
) -> Result<Vec<(Vec<char>, Reverse<usize>)>, AllocError>
    ensures { IfOk result (λ rows. AreRows (read_all direction (map (λ v. v.items) strings.now)) (texts_of rows.items) (numbers_of rows.items)) }
{
    let mut rows = rows_by_number(alloc, strings, direction)?;
    rows.sort()?;
    Ok(rows)
}

// Returns the same rows in the order of their numbers.
fn rows_by_number(
    alloc: Global,
    strings: &[Vec<char>],
    direction: Mode,
) -> Result<Vec<(Vec<char>, Reverse<usize>)>, AllocError>
    ensures texts { IfOk result (λ rows. texts_of rows.items ≡ read_all direction (map (λ v. v.items) strings.now)) }
    ensures numbers { IfOk result (λ rows. AreOwn (numbers_of rows.items)) }
{
    let mut rows = Vec::with_capacity(alloc, strings.len())?;
    for (i, string) in strings.iter().enumerate() {
        let text = as_read(alloc, direction, string)?;
        rows.push((text, Reverse(i)))?;
    }
    Ok(rows)
}

// Returns a string as read in the mode.
fn as_read(alloc: Global, direction: Mode, string: &[char]) -> Result<Vec<char>, AllocError>
    ensures { IfOk result (λ text. text.items ≡ read_as direction string.now) }
{
    let mut text = string.to_vec(alloc)?;
    match direction {
        Mode::Forward => {}
        Mode::Backward => text.reverse(),
    }
    Ok(text)
}

//! The keys of strings: the first three characters of a string as one number. If the key of one string is less than the
//! key of another, the string sorts before the other.

ghost use Rattle.std.specs.Prelude.{◌≡◌, ◌<◌, ◌+◌, ◌^◌, length, IfOk};
ghost use Rattle.sbl_semantics.specs.Fitting.{read_as};
ghost use Rattle.sbl_program.specs.Keys.{AreKeys, IsInDoubt, IsKey, IsKeyCount, KeysRise, digit};
ghost use Rattle.sbl_program.specs.Linked.{texts_of};

use crate::linked::reading::read_at;
use sbl_ast::Mode;
use std::alloc::{AllocError, Global};
use std::cmp::Reverse;

// Each digit of a key is less than this. A character is at most 0x10FFFF.
const BASE: u64 = 1 << 21;

// This many keys are counted without a branch for each (our own choice).
const FEW: usize = 16;

/// Returns the key of the text read.
#[inline(always)]
pub fn key_of(direction: Mode, part: &[char]) -> u64
    ensures { IsKey (read_as direction part.now) result }
{
    let first = digit(direction, part, 0);
    let second = digit(direction, part, 1);
    let third = digit(direction, part, 2);
    (first * BASE + second) * BASE + third
}

/// Returns the keys of the rows. Returns `AllocError` if an allocation fails.
pub fn keys_of(alloc: Global, rows: &[(Vec<char>, Reverse<usize>)]) -> Result<Vec<u64>, AllocError>
    ensures { IfOk result (λ keys. AreKeys (texts_of rows.now) keys.items) }
{
    let mut keys = Vec::with_capacity(alloc, rows.len())?;
    for row in rows {
        keys.push(key_of(Mode::Forward, &row.0))?;
    }
    Ok(keys)
}

/// Returns the number of keys that are at most `key`.
#[inline(always)]
pub fn keys_upto(keys: &[u64], key: u64) -> usize
    requires { KeysRise keys.now }
    ensures { IsKeyCount keys.now key result }
{
    let mut count = first_in_doubt(keys, key);
    for i in count..keys.len().min(count + FEW) {
        if keys[i] <= key {
            count += 1;
        }
    }
    count
}

// Returns an index such that the keys before it are at most `key`, and the keys `FEW` or more after it are greater.
#[inline(always)]
fn first_in_doubt(keys: &[u64], key: u64) -> usize
    requires { KeysRise keys.now }
    ensures { IsInDoubt keys.now key result (result + 16) }
{
    let mut low = 0;
    let mut high = keys.len();
    while high - low > FEW {
        let middle = low + (high - low) / 2;
        if keys[middle] <= key {
            low = middle + 1;
        } else {
            high = middle;
        }
    }
    low
}

// Returns one more than the character at index `i` of the text read, or 0 if there is none.
#[inline(always)]
fn digit(direction: Mode, part: &[char], i: usize) -> u64
    ensures is { result ≡ digit (read_as direction part.now) i }
    ensures small { result < 2 ^ 21 }
{
    if i < part.len() {
        read_at(direction, part, i) as u64 + 1
    } else {
        0
    }
}

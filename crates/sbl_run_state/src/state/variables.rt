//! The variables, by number. One that was not set has its initial value, so that a run pays only for those that it sets.

ghost use Rattle.std.specs.Prelude.{◌≡◌, pos, false, [], map, replicate, IfOk, slice_index_or, slice_set};
ghost use Rattle.sbl_run_state.specs.Slots.{text_or_empty, value_or};

use crate::slots::Slots;
use std::alloc::{AllocError, Global};

/// Makes this many integers, all 0.
#[inline(always)]
pub fn reset_integers(integers: &mut Slots<i32>, count: usize)
    ensures { map (value_or (pos 0)) integers.new ≡ replicate count (pos 0) }
{
    integers.reset(count);
}

/// Makes this many booleans, all false.
#[inline(always)]
pub fn reset_booleans(booleans: &mut Slots<bool>, count: usize)
    ensures { map (value_or false) booleans.new ≡ replicate count false }
{
    booleans.reset(count);
}

/// Makes this many strings, all empty.
#[inline(always)]
pub fn reset_strings(strings: &mut Slots<Vec<char>>, count: usize)
    ensures { map text_or_empty strings.new ≡ replicate count [] }
{
    strings.reset(count);
}

/// Returns an integer; 0 past the end.
#[inline(always)]
pub fn integer_of(integers: &Slots<i32>, number: usize) -> i32
    ensures { result ≡ slice_index_or (map (value_or (pos 0)) integers.now) number (pos 0) }
{
    match integers.get(number) {
        None => 0,
        Some(value) => *value,
    }
}

/// Returns a boolean; false past the end.
#[inline(always)]
pub fn boolean_of(booleans: &Slots<bool>, number: usize) -> bool
    ensures { result ≡ slice_index_or (map (value_or false) booleans.now) number false }
{
    match booleans.get(number) {
        None => false,
        Some(value) => *value,
    }
}

/// Returns a string; an empty one past the end.
#[inline(always)]
pub fn string_of(strings: &Slots<Vec<char>>, number: usize) -> &[char]
    ensures { result.now ≡ slice_index_or (map text_or_empty strings.now) number [] }
{
    match strings.get(number) {
        None => &[],
        Some(string) => string,
    }
}

/// Sets an integer; past the end nothing is done. Returns `AllocError` if an allocation fails.
#[inline(always)]
pub fn set_integer(integers: &mut Slots<i32>, number: usize, value: i32) -> Result<(), AllocError>
    ensures { IfOk result (λ _. map (value_or (pos 0)) integers.new ≡ slice_set (map (value_or (pos 0)) integers.old) number value) }
{
    integers.set(number, value)
}

/// Sets a boolean; past the end nothing is done. Returns `AllocError` if an allocation fails.
#[inline(always)]
pub fn set_boolean(booleans: &mut Slots<bool>, number: usize, value: bool) -> Result<(), AllocError>
    ensures { IfOk result (λ _. map (value_or false) booleans.new ≡ slice_set (map (value_or false) booleans.old) number value) }
{
    booleans.set(number, value)
}

/// Sets a string; past the end nothing is done. Returns `AllocError` if an allocation fails.
#[inline(always)]
pub fn set_string(
    strings: &mut Slots<Vec<char>>,
    number: usize,
    string: Vec<char>,
) -> Result<(), AllocError>
    ensures { IfOk result (λ _. map text_or_empty strings.new ≡ slice_set (map text_or_empty strings.old) number string.items) }
{
    strings.set(number, string)
}

/// Returns all integers. Returns `AllocError` if an allocation fails.
pub fn all_integers(alloc: Global, integers: &Slots<i32>) -> Result<Vec<i32>, AllocError>
    ensures { IfOk result (λ v. v.items ≡ map (value_or (pos 0)) integers.now) }
{
    let mut values = Vec::new(alloc);
    for number in 0..integers.count() {
        values.push(integer_of(integers, number))?;
    }
    Ok(values)
}

//! Characters written as numbers, for `stringdef` and `U+`.

ghost use Rattle.std.specs.Prelude.{◌+◌, ◌∷◌, drop, ◌≡◌, ◌≤◌, ◌<◌, true, false, length};
ghost use Rattle.std.specs.List.{position};
ghost use Rattle.sbl_text.specs.Classes.{is_white};
ghost use Rattle.sbl_text.specs.Codes as spec;

use crate::classes::{CharKind, is_in};
use crate::fault::ScriptFault;
use std::alloc::Global;

/// The largest code point.
const LARGEST: u32 = 0x10FFFF;

/// What a text means: characters, or a fault.
pub type Characters = Result<Vec<char>, ScriptFault>;

/// The most digits of a hexadecimal code.
pub(crate) const MAX_HEX_DIGITS: usize = 6;

/// The most digits of a decimal code.
pub(crate) const MAX_DECIMAL_DIGITS: usize = 7;

/// Returns the character whose code point the digits write in this base, or `None` if there are no digits, more than
/// `most`, a character that is no digit of the base, or if the number is not the code point of a character.
pub fn code(base: u32, most: usize, mut digits: &[char]) -> Option<char>
    requires low { 2 ≤ base }
    requires high { base ≤ 16 }
    ensures { result ≡ spec.code_of base most digits.entry.now }
{
    if digits.is_empty() || most < digits.len() {
        return None;
    }
    let mut value: u32 = 0;
    while let [c, rest @ ..] = digits {
        match c.to_digit(base) {
            Some(digit) => value = value * base + digit,
            None => return None,
        }
        if LARGEST < value {
            return None;
        }
        digits = rest;
    }
    char::from_u32(value)
}

/// Returns the index of the first white space character.
fn first_white(chars: &[char]) -> Option<usize>
    ensures { result ≡ position is_white chars.now }
{
    chars.iter().position(|c| is_in(CharKind::White, *c))
}

/// Splits the characters before the first white space character.
fn split_run(chars: &[char]) -> (&[char], &[char])
    ensures number { (length result.0.now ≡ 0 → ⊥) → spec.numbers_in chars.now ≡ result.0.now ∷ spec.numbers_in result.1.now }
    ensures white { length result.0.now ≡ 0 → 0 < length chars.now → spec.numbers_in chars.now ≡ spec.numbers_in (drop 1 chars.now) }
    ensures parts { length result.0.now + length result.1.now ≡ length chars.now }
{
    let end = first_white(chars).unwrap_or(chars.len());
    chars.split_at(end)
}

/// Reads numbers that are separated by white space and returns the characters with these code points. Returns `BadCode`
/// at `place` if anything else is found, and `OutOfMemory` if an allocation fails.
pub fn codes(alloc: Global, base: u32, most: usize, mut chars: &[char], place: usize) -> Characters
    requires low { 2 ≤ base }
    requires high { base ≤ 16 }
    ensures { spec.GivesCharacters (spec.all_codes base most (spec.numbers_in chars.entry.now)) place result }
{
    let mut value = Vec::new(alloc);
    while let [_, following @ ..] = chars {
        let (run, rest) = split_run(chars);
        if run.is_empty() {
            chars = following;
            continue;
        }
        match code(base, most, run) {
            Some(c) => value.push(c)?,
            None => return Err(ScriptFault::BadCode { place }),
        }
        chars = rest;
    }
    Ok(value)
}

/// Returns the value of a macro, given the characters of its `hex` (otherwise `decimal`) literal: numbers of 1 to 6
/// hexadecimal or 1 to 7 decimal digits, separated by white space, each the code point of a character.
///
/// Returns `BadCode` at 0 if anything else is found (Snowball manual, "stringdef"; the limits are our own choice), and
/// `OutOfMemory` if an allocation fails.
pub fn read_codes(alloc: Global, hex: bool, chars: &[char]) -> Characters
    ensures { spec.GivesCharacters (spec.codes_of hex chars.now) 0 result }
{
    if hex {
        codes(alloc, 16, MAX_HEX_DIGITS, chars, 0)
    } else {
        codes(alloc, 10, MAX_DECIMAL_DIGITS, chars, 0)
    }
}

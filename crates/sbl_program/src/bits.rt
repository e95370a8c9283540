//! Bits in words of 64. Bits past the end are not set.

ghost use Rattle.std.specs.Prelude.{◌≡◌, ◌≤◌, ◌<◌, ℕ, true, length, nat_eq, if◌then◌else◌, ◌%◌, slice_index_or, IfOk, OnErr, OnOk};
ghost use Rattle.sbl_program.specs.Bits.{has_bit, is_set};

use std::alloc::AllocError;

// The number of bits in a word.
const WORD: usize = 64;

/// Returns whether the bit at index `place` is set.
#[inline(always)]
pub fn is_set(words: &[u64], place: usize) -> bool
    ensures { result ≡ is_set words.now place }
{
    match words.get(place / WORD) {
        None => false,
        Some(word) => (*word >> (place % WORD)) & 1 == 1,
    }
}

// Returns the word in which only the bit for index `place` is set.
fn bit_of(place: usize) -> u64
    ensures { (bit : ℕ) → has_bit result bit ≡ nat_eq (place % 64) bit }
{
    1 << (place % WORD)
}

// Sets to `value` all bits of `word` that are set in `other`.
fn put_word(word: u64, other: u64, value: bool) -> u64
    ensures { (bit : ℕ) → has_bit result bit ≡ (if has_bit other bit then value else has_bit word bit) }
{
    if value {
        word | other
    } else {
        word ^ (word & other)
    }
}

// Grows `words` to at least `count` words. No bit changes, also if an allocation fails. Returns `AllocError` if an
// allocation fails.
fn grow(words: &mut Vec<u64>, count: usize) -> Result<(), AllocError>
    ensures same { (number : ℕ) → slice_index_or words.new.items number 0 ≡ slice_index_or words.old.items number 0 }
    ensures there { IfOk result (λ _. count ≤ length words.new.items) }
{
    if words.len() < count {
        words.reserve_exact(count - words.len())?;
        while words.len() < count {
            words.push(0)?;
        }
    }
    Ok(())
}

/// Sets the bit at index `place` to `value`. Returns `AllocError` if an allocation fails; then no bit is changed.
pub fn put_bit(words: &mut Vec<u64>, place: usize, value: bool) -> Result<(), AllocError>
    ensures put { (p : ℕ) → OnOk result (is_set words.new.items p ≡ (if nat_eq place p then value else is_set words.old.items p)) }
    ensures same { (p : ℕ) → OnErr result (is_set words.new.items p ≡ is_set words.old.items p) }
{
    if is_set(words, place) == value {
        return Ok(());
    }
    let number = place / WORD;
    grow(words, number + 1)?;
    words[number] = put_word(words[number], bit_of(place), value);
    Ok(())
}

/// Sets to `value` all bits that are set in `others`. Returns `AllocError` if an allocation fails; then no bit is
/// changed.
pub fn put_bits(words: &mut Vec<u64>, others: &[u64], value: bool) -> Result<(), AllocError>
    ensures put { (p : ℕ) → OnOk result (is_set words.new.items p ≡ (if is_set others.now p then value else is_set words.old.items p)) }
    ensures same { (p : ℕ) → OnErr result (is_set words.new.items p ≡ is_set words.old.items p) }
{
    if value {
        grow(words, others.len())?;
    }
    for number in 0..words.len().min(others.len()) {
        words[number] = put_word(words[number], others[number], value);
    }
    Ok(())
}

// Returns the word with this number, or 0 past the end.
fn word_at(words: &[u64], number: usize) -> u64
    ensures { result ≡ slice_index_or words.now number 0 }
{
    match words.get(number) {
        None => 0,
        Some(word) => *word,
    }
}

// Returns whether each bit that is set in `other` has this value in `word`.
fn has_all(word: u64, other: u64, value: bool) -> bool
    ensures only { result ≡ true → (bit : ℕ) → has_bit other bit ≡ true → has_bit word bit ≡ value }
    ensures all { ((bit : ℕ) → bit < 64 → has_bit other bit ≡ true → has_bit word bit ≡ value) → result ≡ true }
{
    put_word(word, other, value) == word
}

/// Returns whether all bits that are set in `others` have this value in `words`.
pub fn are_put(words: &[u64], others: &[u64], value: bool) -> bool
    ensures only { result ≡ true → (p : ℕ) → is_set others.now p ≡ true → is_set words.now p ≡ value }
    ensures all { ((p : ℕ) → is_set others.now p ≡ true → is_set words.now p ≡ value) → result ≡ true }
{
    let mut all = true;
    for number in 0..others.len() {
        all &= has_all(word_at(words, number), others[number], value);
    }
    all
}

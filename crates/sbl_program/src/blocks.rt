//! A list of blocks of bits.

ghost use Rattle.std.specs.Prelude.{◌≡◌, ◌≤◌, ℕ, length, nat_eq, if◌then◌else◌, IfOk, OnErr, OnOk};
ghost use Rattle.sbl_program.specs.CharacterClasses.{has_place, is_in_block};

use crate::block::Block;
use std::alloc::{AllocError, Global};

// The number of bits in a block (our own choice).
const BLOCK: usize = 4096;

/// Returns whether the bit at index `place` is set. Bits past the end are not set.
pub fn is_in_blocks(blocks: &[Block], place: usize) -> bool
    ensures { result ≡ has_place blocks.now place }
{
    match blocks.get(place / BLOCK) {
        None => false,
        Some(block) => block.has(place % BLOCK),
    }
}

// Grows `blocks` to at least `count` blocks. No bit changes, also if an allocation fails. Returns `AllocError` if an
// allocation fails.
fn grow(alloc: Global, blocks: &mut Vec<Block>, count: usize) -> Result<(), AllocError>
    ensures same { (k p : ℕ) → is_in_block blocks.new.items k p ≡ is_in_block blocks.old.items k p }
    ensures there { IfOk result (λ _. count ≤ length blocks.new.items) }
{
    if blocks.len() < count {
        let none = Block::new(alloc)?;
        blocks.reserve_exact(count - blocks.len())?;
        while blocks.len() < count {
            blocks.push(none.share()?)?;
        }
    }
    Ok(())
}

/// Sets the bit at index `place` to `value`. Returns `AllocError` if an allocation fails; then no bit is changed.
pub fn put_place(
    alloc: Global,
    blocks: &mut Vec<Block>,
    place: usize,
    value: bool,
) -> Result<(), AllocError>
    ensures put { (p : ℕ) → OnOk result (has_place blocks.new.items p ≡ (if nat_eq place p then value else has_place blocks.old.items p)) }
    ensures same { (p : ℕ) → OnErr result (has_place blocks.new.items p ≡ has_place blocks.old.items p) }
{
    let number = place / BLOCK;
    if value {
        grow(alloc, blocks, number + 1)?;
    }
    if number < blocks.len() {
        blocks[number].put(place % BLOCK, value)?;
    }
    Ok(())
}

/// Sets to `value` all bits that are set in `others`. Returns `AllocError` if an allocation fails; then some of the
/// bits may have been set already.
pub fn put_blocks(
    alloc: Global,
    blocks: &mut Vec<Block>,
    others: &[Block],
    value: bool,
) -> Result<(), AllocError>
    ensures { (p : ℕ) → OnOk result (has_place blocks.new.items p ≡ (if has_place others.now p then value else has_place blocks.old.items p)) }
{
    if value {
        grow(alloc, blocks, others.len())?;
    }
    for number in 0..blocks.len().min(others.len()) {
        blocks[number].put_block(alloc, &others[number], value)?;
    }
    Ok(())
}

//! Shared blocks of bits.

ghost use Rattle.std.specs.Prelude.{◌≡◌, [], ℕ, nat_eq, if◌then◌else◌, IfOk, OnErr, OnOk};
ghost use Rattle.sbl_program.specs.Bits.{is_set};

use crate::bits::{are_put, is_set, put_bit, put_bits};
use std::alloc::{AllocError, Global};
use std::marker::Model;
use std::rc::Rc;

/// Bits that several owners share until one of them changes its own.
#[derive(Drop)]
pub struct Block {
    words: Rc<Vec<u64>>,
}

impl Model for Block {
    ghost use Rattle.std.specs.Prelude.{ℕ, List};

    ghost Value = { List ℕ };

    ghost view = { λ b. b.words.value.items };
}

impl Block {
    /// Returns a block with no bit set. Returns `AllocError` if an allocation fails.
    pub fn new(alloc: Global) -> Result<Block, AllocError>
        ensures { IfOk result (λ b. b ≡ []) }
    {
        let words = Rc::new(alloc, Vec::new(alloc))?;
        Ok(Block { words })
    }

    /// Returns another owner of the same bits. Returns `AllocError` if the number of owners cannot be counted any more.
    pub fn share(&self) -> Result<Block, AllocError>
        ensures { IfOk result (λ b. b ≡ self.now) }
    {
        let words = self.words.clone()?;
        Ok(Block { words })
    }

    /// Returns whether the bit at index `place` is set.
    #[inline(always)]
    pub fn has(&self, place: usize) -> bool
        ensures { result ≡ is_set self.now place }
    {
        is_set(&self.words, place)
    }

    /// Sets the bit at index `place` to `value`. Returns `AllocError` if an allocation fails; then no bit is changed.
    pub fn put(&mut self, place: usize, value: bool) -> Result<(), AllocError>
        ensures put { (p : ℕ) → OnOk result (is_set self.new p ≡ (if nat_eq place p then value else is_set self.old p)) }
        ensures same { (p : ℕ) → OnErr result (is_set self.new p ≡ is_set self.old p) }
    {
        if self.has(place) == value {
            return Ok(());
        }
        put_bit(Rc::make_mut(&mut self.words)?, place, value)
    }

    /// Sets to `value` all bits that are set in `other`. If nothing changes, the bits stay shared; if the result has
    /// the bits of `other`, it shares them. Returns `AllocError` if an allocation fails; then no bit is changed.
    pub fn put_block(&mut self, alloc: Global, other: &Block, value: bool) -> Result<(), AllocError>
        ensures put { (p : ℕ) → OnOk result (is_set self.new p ≡ (if is_set other.now p then value else is_set self.old p)) }
        ensures same { (p : ℕ) → OnErr result (is_set self.new p ≡ is_set self.old p) }
    {
        if are_put(&self.words, &other.words, value) {
            return Ok(());
        }
        if are_put(&other.words, &self.words, true) {
            *self = if value {
                other.share()?
            } else {
                Block::new(alloc)?
            };
            return Ok(());
        }
        put_bits(Rc::make_mut(&mut self.words)?, &other.words, value)
    }
}

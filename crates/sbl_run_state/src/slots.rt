//! Values by number, some of them missing. All are removed at once, at a cost that does not depend on how many there are.

ghost use Rattle.std.specs.Prelude.{◌≡◌, ℕ, ◌<◌, ◌≤◌, [], length, replicate, map, Some, None, IfOk, MatchResult, slice_set, slice_index_or};
ghost use Rattle.std.specs.Option.{option_copied};
ghost use Rattle.sbl_run_state.specs.Slots.{slot_values, AreUpTo};

use std::alloc::{AllocError, Global};
use std::marker::Model;

/// A type with a value that takes no memory.
pub trait Blank {
    /// Returns a value that takes no memory.
    fn blank(alloc: Global) -> Self;
}

impl Blank for usize {
    fn blank(_alloc: Global) -> usize {
        0
    }
}

impl Blank for i32 {
    fn blank(_alloc: Global) -> i32 {
        0
    }
}

impl Blank for bool {
    fn blank(_alloc: Global) -> bool {
        false
    }
}

impl Blank for Vec<char> {
    fn blank(alloc: Global) -> Vec<char> {
        Vec::new(alloc)
    }
}

// A value, and the round in which it was set.
#[derive(Drop)]
struct Slot<T> {
    round: u32,
    value: T,
}

/// Values by number. A value is missing unless it was set after the last `reset`.
#[derive(Drop)]
pub struct Slots<T> {
    // They grow if a value past their end is set, and stay. A value of an earlier round is missing.
    slots: Vec<Slot<T>>,
    round: u32,
    count: usize,
}

impl<T> Model for Slots<T> {
    ghost use Rattle.std.specs.Prelude.{List, Option, ◌<◌};
    ghost use Rattle.sbl_run_state.specs.Slots.{slot_values, AreUpTo};

    ghost Value = { List (Option T) };

    ghost view = { λ s. slot_values s.round s.count s.slots.items };

    ghost invariant = { λ s. (0 < s.round) × AreUpTo s.round s.slots.items };
}

impl<T: Blank + Drop> Slots<T> {
    /// Returns no values. Does not allocate.
    pub fn new(alloc: Global) -> Slots<T>
        ensures { result ≡ [] }
    {
        Slots {
            slots: Vec::new(alloc),
            round: 1,
            count: 0,
        }
    }

    /// Returns the number of values, with those that are missing.
    #[inline(always)]
    pub fn count(&self) -> usize
        ensures { result ≡ length self.now }
    {
        self.count
    }

    /// Makes this many values, which are all missing, in time that does not depend on their number.
    #[inline(always)]
    pub fn reset(&mut self, count: usize)
        ensures { self.new ≡ replicate count None }
    {
        self.round = next_round(&mut self.slots, self.round);
        self.count = count;
    }

    /// Returns a value, if it is there.
    #[inline(always)]
    pub fn get(&self, number: usize) -> Option<&T>
        ensures { option_copied result ≡ slice_index_or self.now number None }
    {
        if number >= self.count {
            return None;
        }
        if number >= self.slots.len() {
            return None;
        }
        let slot = &self.slots[number];
        if slot.round == self.round {
            Some(&slot.value)
        } else {
            None
        }
    }

    /// Sets a value; past the end nothing is done. Returns `AllocError` if an allocation fails; then nothing changes.
    #[inline(always)]
    pub fn set(&mut self, number: usize, value: T) -> Result<(), AllocError>
        ensures { MatchResult result (λ _. self.new ≡ slice_set self.old number (Some value)) (λ _. self.new ≡ self.old) }
    {
        if number < self.count {
            ensure_slot(&mut self.slots, number)?;
            self.slots[number] = Slot {
                round: self.round,
                value,
            };
        }
        Ok(())
    }

    /// Makes a value missing; past the end nothing is done.
    #[inline(always)]
    pub fn unset(&mut self, number: usize)
        ensures { self.new ≡ slice_set self.old number None }
    {
        if number < self.slots.len() {
            self.slots[number].round = 0;
        }
    }
}

// Returns a round in which all values are missing: the next one. If there is none, it is the first, and no slot is kept.
#[inline(always)]
fn next_round<T: Drop>(slots: &mut Vec<Slot<T>>, round: u32) -> u32
    requires { AreUpTo round slots.old.items }
    ensures begun { 0 < result }
    ensures up_to { AreUpTo result slots.new.items }
    ensures missing { (count : ℕ) → slot_values result count slots.new.items ≡ replicate count None }
{
    if round == u32::MAX {
        slots.clear();
        return 1;
    }
    round + 1
}

// Makes sure that a slot exists. A slot that is made is missing its value. Returns `AllocError` if an allocation fails.
#[inline(always)]
fn ensure_slot<T: Blank + Drop>(slots: &mut Vec<Slot<T>>, number: usize) -> Result<(), AllocError>
    ensures same { (round count : ℕ) → 0 < round → slot_values round count slots.new.items ≡ slot_values round count slots.old.items }
    ensures up_to { (round : ℕ) → AreUpTo round slots.old.items → AreUpTo round slots.new.items }
    ensures there { IfOk result (λ _. number < length slots.new.items) }
{
    if number < slots.len() {
        return Ok(());
    }
    grow(slots, number)
}

// Grows the slots until this one exists, by slots whose values are missing. Returns `AllocError` if an allocation fails.
#[cold]
#[inline(never)]
fn grow<T: Blank + Drop>(slots: &mut Vec<Slot<T>>, number: usize) -> Result<(), AllocError>
    ensures same { (round count : ℕ) → 0 < round → slot_values round count slots.new.items ≡ slot_values round count slots.old.items }
    ensures up_to { (round : ℕ) → AreUpTo round slots.old.items → AreUpTo round slots.new.items }
    ensures there { IfOk result (λ _. number < length slots.new.items) }
{
    let alloc = *slots.allocator();
    while slots.len() <= number {
        slots.push(Slot {
            round: 0,
            value: T::blank(alloc),
        })?;
    }
    Ok(())
}

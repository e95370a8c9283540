//! The choices of a call, which move by their address when a call begins or ends.

ghost use Rattle.std.specs.Prelude.{◌≡◌, [], Some, None, replicate, IfOk, MatchResult, slice_set, slice_index_or};
ghost use Rattle.sbl_run_state.specs.ChoiceLists.{choices_of};

use crate::slots::Slots;
use std::alloc::{AllocError, Global};
use std::marker::Model;

/// For each among of a routine, the group of the string that its last search took. A routine without amongs has none.
#[derive(Drop)]
pub struct Choices {
    slots: ChoiceSlots,
}

/// Where choices are kept. Most routines have one among or none, whose choice takes no memory.
#[derive(Drop)]
enum ChoiceSlots {
    /// Those of no among.
    Empty,
    /// That of one among, still open.
    Open,
    /// That of one among: this group.
    Group(usize),
    /// Those of more amongs.
    Many(Box<Slots<usize>>),
}

impl Model for Choices {
    ghost use Rattle.std.specs.Prelude.{List, Option, ℕ};
    ghost use Rattle.sbl_run_state.specs.ChoiceLists.{choices_of};

    ghost Value = { List (Option ℕ) };

    ghost view = { λ c. choices_of c.slots };
}

impl Choices {
    /// Returns no choices.
    #[inline(always)]
    pub fn none() -> Choices
        ensures { result ≡ [] }
    {
        Choices {
            slots: ChoiceSlots::Empty,
        }
    }

    /// Returns this many choices, all still open, in the memory of ended ones if there is some. Returns `AllocError` if
    /// an allocation fails. The time does not depend on their number.
    #[inline(always)]
    pub fn open(
        alloc: Global,
        spares: &mut Vec<Box<Slots<usize>>>,
        count: usize,
    ) -> Result<Choices, AllocError>
        ensures { IfOk result (λ choices. choices ≡ replicate count None) }
    {
        if count == 0 {
            return Ok(Choices::none());
        }
        if count == 1 {
            return Ok(Choices {
                slots: ChoiceSlots::Open,
            });
        }
        let mut slots = match spares.pop() {
            None => new_slots(alloc)?,
            Some(slots) => slots,
        };
        slots.reset(count);
        Ok(Choices {
            slots: ChoiceSlots::Many(slots),
        })
    }

    /// Ends these choices, and keeps their memory for others.
    #[inline(always)]
    pub fn end(self, spares: &mut Vec<Box<Slots<usize>>>) {
        if let ChoiceSlots::Many(slots) = self.slots {
            // If there is no room for it, it is freed.
            let _ = spares.push(slots);
        }
    }

    /// Returns the group that was chosen for an among, if any.
    #[inline(always)]
    pub fn get(&self, among: usize) -> Option<usize>
        ensures { result ≡ slice_index_or self.now among None }
    {
        match &self.slots {
            ChoiceSlots::Empty => None,
            ChoiceSlots::Open => None,
            ChoiceSlots::Group(group) => { if among == 0 { Some(*group) } else { None } }
            ChoiceSlots::Many(slots) => slots.get(among).copied(),
        }
    }

    /// Chooses a group for an among; past the end nothing is done. Returns `AllocError` if an allocation fails.
    #[inline(always)]
    pub fn set(&mut self, among: usize, group: usize) -> Result<(), AllocError>
        ensures { IfOk result (λ _. self.new ≡ slice_set self.old among (Some group)) }
    {
        match &mut self.slots {
            ChoiceSlots::Empty => Ok(()),
            ChoiceSlots::Open => {
                if among == 0 {
                    self.slots = ChoiceSlots::Group(group);
                }
                Ok(())
            }
            ChoiceSlots::Group(chosen) => {
                if among == 0 {
                    *chosen = group;
                }
                Ok(())
            }
            ChoiceSlots::Many(slots) => slots.set(among, group),
        }
    }

    /// Opens the choice of an among; past the end nothing is done.
    #[inline(always)]
    pub fn unset(&mut self, among: usize)
        ensures { self.new ≡ slice_set self.old among None }
    {
        match &mut self.slots {
            ChoiceSlots::Empty => {}
            ChoiceSlots::Open => {}
            ChoiceSlots::Group(_) => {
                if among == 0 {
                    self.slots = ChoiceSlots::Open;
                }
            }
            ChoiceSlots::Many(slots) => slots.unset(among),
        }
    }
}

// Returns memory for choices. Returns `AllocError` if an allocation fails.
#[inline(never)]
fn new_slots(alloc: Global) -> Result<Box<Slots<usize>>, AllocError> {
    Ok(Box::new(alloc, Slots::new(alloc))?)
}

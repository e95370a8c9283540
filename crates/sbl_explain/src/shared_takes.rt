//! Lists of taken strings that words share.

ghost use Rattle.std.specs.Prelude.{◌≡◌, IfOk, IfSome, true};
ghost use Rattle.sbl_explain.specs.Kept.{Names, taken_of, view_list};

use crate::kept_words::Taken;
use std::alloc::{AllocError, Global};
use std::rc::Rc;

/// The number of lists that words can share at a time.
const SLOTS: usize = 8_192;

/// Lists that words share, each in the slot of its digest. Of lists with one slot, the last is kept.
#[derive(Drop)]
pub(crate) struct SharedTakes {
    // no slots before the first list
    slots: Vec<Option<Rc<Vec<Taken>>>>,
}

impl SharedTakes {
    /// Returns no lists. Does not allocate.
    pub(crate) fn new(alloc: Global) -> SharedTakes {
        SharedTakes {
            slots: Vec::new(alloc),
        }
    }

    /// Returns an owner of the list in the slot of a list, if both have the same; otherwise keeps the list there. Returns
    /// `AllocError` if an allocation fails.
    pub(crate) fn share(
        &mut self,
        alloc: Global,
        list: Vec<Taken>,
    ) -> Result<Rc<Vec<Taken>>, AllocError>
        ensures { IfOk result (λ owner. (names : Names) → view_list names owner.value.items ≡ view_list names list.items) }
    {
        let slot = slot_of(&list);
        match shared_list(self.list_in(slot), &list)? {
            Some(owner) => Ok(owner),
            None => self.add(alloc, slot, list),
        }
    }

    // Returns the list in a slot, if there is one.
    fn list_in(&self, slot: usize) -> Option<&Rc<Vec<Taken>>> {
        match self.slots.get(slot) {
            Some(list) => list.as_ref(),
            None => None,
        }
    }

    // Keeps a list in a slot, and returns another owner of it.
    fn add(
        &mut self,
        alloc: Global,
        slot: usize,
        list: Vec<Taken>,
    ) -> Result<Rc<Vec<Taken>>, AllocError>
        ensures { IfOk result (λ owner. owner.value.items ≡ list.items) }
    {
        if self.slots.is_empty() {
            self.slots = empty_slots(alloc)?;
        }
        let owner = Rc::new(alloc, list)?;
        if let Some(kept) = self.slots.get_mut(slot) {
            *kept = Some(owner.clone()?);
        }
        Ok(owner)
    }
}

// Returns the slots, with no list in them.
fn empty_slots(alloc: Global) -> Result<Vec<Option<Rc<Vec<Taken>>>>, AllocError> {
    let mut slots = Vec::with_capacity(alloc, SLOTS)?;
    for _ in 0..SLOTS {
        slots.push(None).map_err(|_| AllocError)?;
    }
    Ok(slots)
}

// Returns another owner of the list if it has the same as another list. Returns `AllocError` if the list has too many owners.
fn shared_list(
    list: Option<&Rc<Vec<Taken>>>,
    other: &[Taken],
) -> Result<Option<Rc<Vec<Taken>>>, AllocError>
    ensures { IfOk result (λ found. IfSome found (λ owner. (names : Names) → view_list names owner.value.items ≡ view_list names other.now)) }
{
    if let Some(list) = list {
        if have_same(list.as_slice(), other) {
            return Ok(Some(list.clone()?));
        }
    }
    Ok(None)
}

// Returns true only if two lists have the same, in the same order.
fn have_same(one: &[Taken], other: &[Taken]) -> bool
    ensures { result ≡ true → (names : Names) → view_list names one.now ≡ view_list names other.now }
{
    if one.len() != other.len() {
        return false;
    }
    for (i, taken) in one.iter().enumerate() {
        if !is_same(taken, &other[i]) {
            return false;
        }
    }
    true
}

// Returns true only if two strings are the same and have the same among.
fn is_same(one: &Taken, other: &Taken) -> bool
    ensures { result ≡ true → (names : Names) → taken_of names one.now ≡ taken_of names other.now }
{
    one.routine == other.routine
        && one.among == other.among
        && one.string.as_slice() == other.string.as_slice()
}

// An odd number whose bits have no pattern.
const FACTOR: u64 = 0x9E37_79B9_7F4A_7C15;

// The slot of a list, by a digest of its strings. Nothing rests on it but how many lists are shared.
fn slot_of(list: &[Taken]) -> usize {
    let mut sum = list.len() as u64;
    for taken in list {
        sum = digest_after(sum, taken);
    }
    sum.wrapping_mul(FACTOR) as usize / (usize::MAX / SLOTS + 1)
}

// The digest after one string more.
fn digest_after(sum: u64, taken: &Taken) -> u64 {
    let routine = sum.wrapping_add(taken.routine as u64);
    let mut sum = routine.wrapping_mul(FACTOR).wrapping_add(taken.among);
    for character in &taken.string {
        sum = (sum ^ u64::from(*character)).wrapping_mul(FACTOR);
    }
    sum
}

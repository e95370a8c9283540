//! The last run of a word. Runs with equal touches share one list of them.

ghost use Rattle.std.specs.Prelude.{◌≡◌, IfOk, IfSome};
ghost use Rattle.sbl_semantics.specs.Outcome.{outcome_of};

use crate::run_trace::RunTrace;
use sbl_semantics::{Outcome, Touch};
use std::alloc::{AllocError, Global};
use std::marker::Model;
use std::rc::Rc;

/// The last run of a word: its outcome, what it touched, and the steps that it used.
#[derive(Drop)]
pub struct LastRun {
    outcome: Outcome,
    // may be the list of other runs too
    touches: Rc<Vec<Touch>>,
    used: u64,
}

impl Model for LastRun {
    ghost use Rattle.std.specs.Coded.{codes};
    ghost use Rattle.sbl_last_runs.specs.contracts.run_trace.RunTrace as e;
    ghost use Rattle.sbl_last_runs.specs.declared.run_trace.RunTrace as declared;

    ghost Value = { declared.RunTrace };

    ghost coded = { Prim.hlevel (codes, e.the_row.coded) };

    ghost view = { λ r. record { outcome = r.outcome; touches = r.touches.value; used = r.used } };
}

impl LastRun {
    /// Returns a run whose touches share the list of the run before it, if that has the same. Returns `AllocError` if an
    /// allocation fails.
    pub fn after(
        alloc: Global,
        before: Option<&LastRun>,
        traced: RunTrace,
    ) -> Result<LastRun, AllocError>
        ensures outcome { IfOk result (λ run. run.outcome ≡ traced.outcome) }
        ensures touches { IfOk result (λ run. run.touches.items ≡ traced.touches.items) }
        ensures used { IfOk result (λ run. run.used ≡ traced.used) }
    {
        let list = match before {
            Some(run) => Some(&run.touches),
            None => None,
        };
        let touches = list_of(alloc, list, traced.touches.as_slice())?;
        Ok(LastRun {
            outcome: traced.outcome,
            touches,
            used: traced.used,
        })
    }

    /// Returns a copy, which shares the list of touches. Returns `AllocError` if an allocation fails.
    pub fn copy(&self, alloc: Global) -> Result<LastRun, AllocError>
        ensures outcome { IfOk result (λ run. outcome_of run.outcome ≡ outcome_of self.now.outcome) }
        ensures touches { IfOk result (λ run. run.touches.items ≡ self.now.touches.items) }
        ensures used { IfOk result (λ run. run.used ≡ self.now.used) }
    {
        let outcome = copy_outcome(alloc, &self.outcome)?;
        let touches = self.touches.clone()?;
        Ok(LastRun {
            outcome,
            touches,
            used: self.used,
        })
    }

    /// Returns the outcome. Does not allocate.
    pub fn outcome(&self) -> &Outcome
        ensures { result.now ≡ self.now.outcome }
    {
        &self.outcome
    }

    /// Returns the outcome, and gives the run up. Does not allocate.
    pub fn into_outcome(self) -> Outcome
        ensures { result ≡ self.outcome }
    {
        let LastRun {
            outcome,
            touches: _touches,
            used: _,
        } = self;
        outcome
    }

    /// Returns the touches, each once, in the order of first touch. Does not allocate.
    pub fn touches(&self) -> &[Touch]
        ensures { result.now ≡ self.now.touches.items }
    {
        self.touches.as_slice()
    }

    /// Returns the number of steps. Does not allocate.
    pub fn steps(&self) -> u64
        ensures { result ≡ self.now.used }
    {
        self.used
    }
}

/// Returns a copy of an outcome. Returns `AllocError` if an allocation fails.
fn copy_outcome(alloc: Global, outcome: &Outcome) -> Result<Outcome, AllocError>
    ensures { IfOk result (λ copy. outcome_of copy ≡ outcome_of outcome.now) }
{
    match outcome {
        Outcome::Stem(stem) => Ok(Outcome::Stem(Vec::from_slice(alloc, stem.as_slice())?)),
        Outcome::Refused(fault) => Ok(Outcome::Refused(*fault)),
    }
}

/// The number of lists that runs can share at a time; a published stemmer needs less than 200.
const SLOTS: usize = 1_024;

/// Lists of touches that runs share, each in the slot of its digest. Of lists with one slot, the last is kept.
#[derive(Drop)]
pub struct SharedLists {
    // no slots before the first list
    slots: Vec<Option<Rc<Vec<Touch>>>>,
}

impl SharedLists {
    /// Returns no lists. Does not allocate.
    pub fn new(alloc: Global) -> SharedLists {
        SharedLists {
            slots: Vec::new(alloc),
        }
    }

    /// Returns a run with this outcome, these touches and this number of steps. Its touches share one of the lists, if that is equal;
    /// otherwise a new list of them is kept among the lists. Returns `AllocError` if an allocation fails.
    pub fn run_with(
        &mut self,
        alloc: Global,
        outcome: Outcome,
        touches: &[Touch],
        used: u64,
    ) -> Result<LastRun, AllocError>
        ensures outcome { IfOk result (λ run. run.outcome ≡ outcome) }
        ensures touches { IfOk result (λ run. run.touches.items ≡ touches.now) }
        ensures used { IfOk result (λ run. run.used ≡ used) }
    {
        let list = self.share(alloc, touches)?;
        Ok(LastRun {
            outcome,
            touches: list,
            used,
        })
    }

    // Returns an owner of the list in the slot of these touches, if that list has them; otherwise a new list, which is kept.
    fn share(&mut self, alloc: Global, touches: &[Touch]) -> Result<Rc<Vec<Touch>>, AllocError>
        ensures { IfOk result (λ list. list.value.items ≡ touches.now) }
    {
        let slot = slot_of(touches);
        match shared_list(self.list_in(slot), touches)? {
            Some(list) => Ok(list),
            None => self.add(alloc, slot, touches),
        }
    }

    // Returns the list in a slot, if there is one.
    fn list_in(&self, slot: usize) -> Option<&Rc<Vec<Touch>>> {
        match self.slots.get(slot) {
            Some(list) => list.as_ref(),
            None => None,
        }
    }

    // Returns a new list of touches, and keeps it in a slot.
    fn add(
        &mut self,
        alloc: Global,
        slot: usize,
        touches: &[Touch],
    ) -> Result<Rc<Vec<Touch>>, AllocError>
        ensures { IfOk result (λ list. list.value.items ≡ touches.now) }
    {
        if self.slots.is_empty() {
            self.slots = empty_slots(alloc)?;
        }
        let list = new_list(alloc, touches)?;
        if let Some(kept) = self.slots.get_mut(slot) {
            *kept = Some(list.clone()?);
        }
        Ok(list)
    }
}

// Returns the slots, with no list in them.
fn empty_slots(alloc: Global) -> Result<Vec<Option<Rc<Vec<Touch>>>>, AllocError> {
    let mut slots = Vec::with_capacity(alloc, SLOTS)?;
    for _ in 0..SLOTS {
        slots.push(None).map_err(|_| AllocError)?;
    }
    Ok(slots)
}

// Returns another owner of the list if it has these touches. Returns `AllocError` if the list has too many owners.
fn shared_list(
    list: Option<&Rc<Vec<Touch>>>,
    touches: &[Touch],
) -> Result<Option<Rc<Vec<Touch>>>, AllocError>
    ensures { IfOk result (λ found. IfSome found (λ list. list.value.items ≡ touches.now)) }
{
    if let Some(list) = list {
        if list.as_slice() == touches {
            return Ok(Some(list.clone()?));
        }
    }
    Ok(None)
}

// Returns a new list of touches, with no spare room.
fn new_list(alloc: Global, touches: &[Touch]) -> Result<Rc<Vec<Touch>>, AllocError>
    ensures { IfOk result (λ list. list.value.items ≡ touches.now) }
{
    let touches = Vec::from_slice(alloc, touches)?;
    Ok(Rc::new(alloc, touches)?)
}

// Returns another owner of the list if it has these touches, and otherwise a new list of them.
fn list_of(
    alloc: Global,
    list: Option<&Rc<Vec<Touch>>>,
    touches: &[Touch],
) -> Result<Rc<Vec<Touch>>, AllocError>
    ensures { IfOk result (λ list. list.value.items ≡ touches.now) }
{
    match shared_list(list, touches)? {
        Some(list) => Ok(list),
        None => new_list(alloc, touches),
    }
}

// An odd number whose bits have no pattern.
const FACTOR: u64 = 0x9E37_79B9_7F4A_7C15;

// What tells the places of a list apart.
const STRIDE: u64 = 0xD6E8_FEB8_6659_FD93;

// The slot of a list, by a digest of its touches and their order. Nothing rests on it but how many lists are shared. The digest is
// a sum, so that no touch waits for the one before it.
fn slot_of(touches: &[Touch]) -> usize {
    let mut sum = touches.len() as u64;
    let mut place = 0u64;
    for touch in touches {
        place = place.wrapping_add(STRIDE);
        sum = sum.wrapping_add(square(*touch, place));
    }
    sum.wrapping_mul(FACTOR) as usize / (usize::MAX / SLOTS + 1)
}

// The square of a number for a touch at a place. A sum of the numbers themselves would be the same for lists with the same sum.
#[inline(always)]
fn square(touch: Touch, place: u64) -> u64 {
    let word = match touch {
        Touch::Entered(routine) => u64::from(routine),
        Touch::Searched(routine, among) => u64::from(routine) ^ ((u64::from(among) + 1) << 32),
        Touch::Tested(grouping) => !u64::from(grouping),
    };
    let number = word.wrapping_add(place);
    number.wrapping_mul(number)
}

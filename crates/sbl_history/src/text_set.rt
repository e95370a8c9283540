//! Sets of texts that may have more than what was put in.
ghost use Rattle.std.specs.Prelude.{◌≡◌, ℕ, IfOk, List, true};
ghost use Rattle.sbl_history.specs.inside.TextSets as spec;

use std::alloc::{AllocError, Global};

/// The number of places for texts.
const PLACES: usize = 262_144;

/// A set of texts, by the place of each. Several texts have one place; if one of them was put in, the set has all of them.
#[derive(Drop)]
pub(crate) struct TextSet {
    // for each place, whether a text with it was put in
    places: Vec<bool>,
}

/// Returns the place of a text.
pub(crate) fn place_of(text: &[char]) -> usize
    ensures { result ≡ spec.place_of text.now }
{
    let mut place: usize = 0;
    for character in text {
        place = (place * 31 + *character as usize) % PLACES;
    }
    place
}

impl TextSet {
    /// Returns the empty set. Returns `AllocError` if an allocation fails.
    pub(crate) fn new(alloc: Global) -> Result<TextSet, AllocError> {
        Ok(TextSet {
            places: vec![in alloc; false; PLACES]?,
        })
    }

    /// Returns a copy. Returns `AllocError` if an allocation fails.
    pub(crate) fn copy(&self, alloc: Global) -> Result<TextSet, AllocError>
        ensures { IfOk result (λ copy. (t : List ℕ) → spec.has copy t ≡ spec.has self.now t) }
    {
        Ok(TextSet {
            places: Vec::from_slice(alloc, self.places.as_slice())?,
        })
    }

    /// Returns whether the set has a text.
    pub(crate) fn has(&self, text: &[char]) -> bool
        ensures { result ≡ spec.has self.now text.now }
    {
        *self.places.get(place_of(text)).unwrap_or(&true)
    }

    /// Puts a text in.
    pub(crate) fn insert(&mut self, text: &[char])
        ensures own { spec.has self.new text.now ≡ true }
        ensures others { (t : List ℕ) → spec.has self.old t ≡ true → spec.has self.new t ≡ true }
    {
        if let Some(place) = self.places.get_mut(place_of(text)) {
            *place = true;
        }
    }
}

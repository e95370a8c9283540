//! The macros, by name.

ghost use Rattle.std.specs.Prelude.{◌≡◌, ◌++◌, ◌∷◌, [], IfOk, if◌then◌else◌, is_ok, map, option_map, List, ℕ};
ghost use Rattle.sbl_text.specs.Escapes.{Definition, find};
ghost use Rattle.sbl_text.specs.Latest.{IsLatest, at_name};

use std::alloc::{AllocError, Global};
use std::collections::BTreeMap;
use std::marker::Model;

/// A macro: its name and the characters that it stands for.
#[derive(Drop)]
struct Macro {
    name: Vec<char>,
    value: Vec<char>,
}

/// The definitions of macros in order, and for each name the index of its last definition.
#[derive(Drop)]
pub struct Macros {
    definitions: Vec<Macro>,
    latest: BTreeMap<Vec<char>, usize>,
}

impl Model for Macros {
    ghost Value = { List Definition };

    ghost view = { λ s. map (λ m. record { name = m.name.items; value = m.value.items }) s.definitions.items };

    ghost invariant = { λ s. (q : List ℕ) → IsLatest (map (λ m. record { name = m.name.items; value = m.value.items }) s.definitions.items) q (at_name s.latest q) };
}

impl Macros {
    /// Returns an empty set of macros.
    pub fn new(alloc: Global) -> Macros
        ensures { result ≡ [] }
    {
        Macros {
            definitions: Vec::new(alloc),
            latest: BTreeMap::new(alloc),
        }
    }

    /// Appends a definition. Returns `AllocError` if an allocation fails; then nothing is changed.
    pub fn define(&mut self, alloc: Global, name: &[char], value: &[char]) -> Result<(), AllocError>
        ensures { self.new ≡ (if is_ok result then self.old ++ record { name = name.now; value = value.now } ∷ [] else self.old) }
    {
        let key = Vec::from_slice(alloc, name)?;
        let definition = Macro {
            name: Vec::from_slice(alloc, name)?,
            value: Vec::from_slice(alloc, value)?,
        };
        let place = self.definitions.len();
        self.definitions.push(definition)?;
        match self.latest.insert(key, place) {
            Ok(_) => Ok(()),
            Err(refused) => {
                self.definitions.pop();
                Err(AllocError::from(refused))
            }
        }
    }

    /// Returns the value of the last definition of this name, or `None` if there is none.
    pub fn find(&self, name: &[char]) -> Option<&[char]>
        ensures { option_map (λ v. v.now) result ≡ find self.now name.now }
    {
        match self.latest.get(name) {
            Some(place) => Some(self.definitions[*place].value.as_slice()),
            None => None,
        }
    }

    /// Returns a copy. Returns `AllocError` if an allocation fails.
    pub fn copy(&self, alloc: Global) -> Result<Macros, AllocError>
        ensures { IfOk result (λ m. m ≡ self.now) }
    {
        let mut copy = Macros::new(alloc);
        for each in &self.definitions {
            copy.define(alloc, &each.name, &each.value)?;
        }
        Ok(copy)
    }
}

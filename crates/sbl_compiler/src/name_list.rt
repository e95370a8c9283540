//! A list of names, with the number of the first of each name.

ghost use Rattle.std.specs.Prelude.{◌≡◌, ◌++◌, ◌∷◌, [], ℕ, List, Some, None, length, map, if◌then◌else◌, MatchResult, OnOk, OnErr, string_bytes};
ghost use Rattle.std.specs.BTreeMap.{get_by_text};
ghost use Rattle.std.specs.Option.{option_or};
ghost use Rattle.std.specs.Str.{bytes_eq};
ghost use Rattle.sbl_compiler.specs.NumberedNames as spec;

use std::alloc::{AllocError, Global};
use std::collections::BTreeMap;
use std::marker::Model;

/// Names in their order. The number of a name is found without a search through them.
#[derive(Drop)]
pub struct NameList {
    names: Vec<String>,
    // The number of the first of each name.
    numbers: BTreeMap<String, usize>,
}

impl Model for NameList {
    ghost use Rattle.std.specs.Prelude.{ℕ, List, map, string_bytes};
    ghost use Rattle.sbl_compiler.specs.NameList.{AreNumbered};

    ghost Value = { List (List ℕ) };

    ghost view = { λ s. map string_bytes s.names.items };

    ghost invariant = { λ s. AreNumbered (map string_bytes s.names.items) s.numbers };
}

impl NameList {
    /// Returns an empty list. Does not allocate.
    pub fn new(alloc: Global) -> NameList
        ensures { result ≡ [] }
    {
        NameList {
            names: Vec::new(alloc),
            numbers: BTreeMap::new(alloc),
        }
    }

    /// Adds a name at the end. Returns `AllocError` if an allocation fails; then the names are unchanged.
    pub fn add(&mut self, alloc: Global, name: &str) -> Result<(), AllocError>
        ensures { MatchResult result (λ _. self.new ≡ self.old ++ name.now ∷ []) (λ _. self.new ≡ self.old) }
    {
        let number = self.names.len();
        self.names.push(String::from_str(alloc, name)?)?;
        match keep_first(alloc, &mut self.numbers, name, number) {
            Ok(()) => Ok(()),
            Err(refused) => {
                let _ = self.names.pop();
                Err(refused)
            }
        }
    }

    /// Returns the number of names.
    pub fn len(&self) -> usize
        ensures { result ≡ length self.now }
    {
        self.names.len()
    }

    /// Returns the number of a name; of the first one if several are equal; the number of names if there is none.
    pub fn number_of(&self, name: &str) -> usize
        ensures { result ≡ spec.number_of self.now name.now }
    {
        match self.numbers.get(name) {
            Some(number) => *number,
            None => self.names.len(),
        }
    }

    /// Returns whether the list has the name.
    pub fn is_one_of(&self, name: &str) -> bool
        ensures { result ≡ spec.is_one_of self.now name.now }
    {
        self.number_of(name) < self.len()
    }

    /// Returns the names as a vector.
    pub fn into_names(self) -> Vec<String>
        ensures { map string_bytes result.items ≡ self }
    {
        let NameList { names, .. } = self;
        names
    }
}

// Stores a number for a name that has none. Returns `AllocError` if an allocation fails; then nothing is changed.
fn keep_first(
    alloc: Global,
    numbers: &mut BTreeMap<String, usize>,
    name: &str,
    number: usize,
) -> Result<(), AllocError>
    ensures kept { (n : List ℕ) → OnOk result (get_by_text numbers.new n ≡ option_or (get_by_text numbers.old n) (if bytes_eq name.now n then Some number else None)) }
    ensures same { (n : List ℕ) → OnErr result (get_by_text numbers.new n ≡ get_by_text numbers.old n) }
{
    if !numbers.contains_key(name) {
        numbers.insert(String::from_str(alloc, name)?, number)?;
    }
    Ok(())
}

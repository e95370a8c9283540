//! Numbers of amongs, by the name of their routine.

ghost use Rattle.std.specs.Prelude.{◌≡◌, ◌<◌, ◌∷◌, ◌++◌, ℕ, List, [], length, map, slice_index_or, slice_set, OnOk};
ghost use Rattle.sbl_machine.specs.AmongList as spec;

use sbl_compiler::NameList;
use std::alloc::{AllocError, Global};
use std::marker::Model;

/// Numbers of amongs, by the name of their routine. The numbers of a routine are found without a search through the
/// others.
#[derive(Drop)]
pub struct AmongList {
    // The routines that have numbers, each once.
    routines: NameList,
    // The numbers of each of them.
    numbers: Vec<Vec<usize>>,
}

impl Model for AmongList {
    ghost use Rattle.std.specs.Prelude.{◌≡◌, length, map};
    ghost use Rattle.sbl_machine.specs.AmongList.{AmongList'};

    ghost Value = { AmongList' };

    ghost view = { λ a. record { routines = a.routines; numbers = map (λ row. row.items) a.numbers.items } };

    ghost invariant = { λ a. length a.numbers.items ≡ length a.routines };
}

impl AmongList {
    /// Returns an empty list. Does not allocate.
    pub fn new(alloc: Global) -> AmongList
        ensures { (n : List ℕ) → spec.numbers_of result n ≡ [] }
    {
        AmongList {
            routines: NameList::new(alloc),
            numbers: Vec::new(alloc),
        }
    }

    /// Adds a number to those of a routine. Returns `AllocError` if an allocation fails.
    pub fn add(&mut self, alloc: Global, routine: &str, among: usize) -> Result<(), AllocError>
        ensures { (n : List ℕ) → OnOk result (spec.numbers_of self.new n ≡ spec.with_number routine.now among n (spec.numbers_of self.old n)) }
    {
        let home = self.routines.number_of(routine);
        if home < self.numbers.len() {
            return add_at(&mut self.numbers, home, among);
        }
        let mut own = Vec::new(alloc);
        own.push(among)?;
        self.numbers.push(own)?;
        match self.routines.add(alloc, routine) {
            Ok(()) => Ok(()),
            Err(refused) => {
                let _ = self.numbers.pop();
                Err(refused)
            }
        }
    }

    /// Returns the numbers of a routine, in the order in which they were added.
    pub fn numbers_of(&self, routine: &str) -> &[usize]
        ensures { result.now ≡ spec.numbers_of self.now routine.now }
    {
        row_at(&self.numbers, self.routines.number_of(routine))
    }
}

// Adds a number to a row. Returns `AllocError` if an allocation fails.
fn add_at(rows: &mut Vec<Vec<usize>>, i: usize, number: usize) -> Result<(), AllocError>
    requires { i < length rows.old.items }
    ensures length { length rows.new.items ≡ length rows.old.items }
    ensures added { OnOk result (map (λ row. row.items) rows.new.items ≡ slice_set (map (λ row. row.items) rows.old.items) i (slice_index_or (map (λ row. row.items) rows.old.items) i [] ++ number ∷ [])) }
{
    rows[i].push(number)?;
    Ok(())
}

// Returns a row; past the end it is empty.
fn row_at(rows: &[Vec<usize>], i: usize) -> &[usize]
    ensures { result.now ≡ slice_index_or (map (λ row. row.items) rows.now) i [] }
{
    match rows.get(i) {
        Some(row) => row,
        None => &[],
    }
}

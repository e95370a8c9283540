//! The amongs in which two parts of a routine differ.

ghost use Rattle.std.specs.Prelude.{◌≡◌, ◌++◌, [], ◌∷◌, suc, nat_eq, if◌then◌else◌, IfOk, IfSome, Some, None};
ghost use Rattle.sbl_tree_diff.specs.WalkViews.{after_among, numbers_in};
ghost use Rattle.sbl_semantics.specs.DiffersByParts as parts;
ghost use Rattle.sbl_ast.specs.Counts.{count_in_among};
ghost use Rattle.sbl_ast.specs.View.{view_among};

use crate::counting::past_among;
use sbl_ast::Among;
use std::alloc::{AllocError, Global};

/// The amongs in which two parts of a routine differ.
#[derive(Drop)]
pub(crate) struct Picks {
    /// Their numbers in the routine.
    pub(crate) numbers: Vec<u64>,
    /// How many amongs of the routine come before what follows the first part.
    pub(crate) after: u64,
}

impl Picks {
    /// Returns no among.
    pub(crate) fn none(alloc: Global, after: u64) -> Picks
        ensures numbers { result.numbers.items ≡ [] }
        ensures after { result.after ≡ after }
    {
        Picks {
            numbers: Vec::new(alloc),
            after,
        }
    }

    /// Returns these amongs and those of the part that follows. Returns `AllocError` if an allocation fails.
    pub(crate) fn then(self, following: Picks) -> Result<Picks, AllocError>
        ensures numbers { IfOk result (λ p. p.numbers.items ≡ self.numbers.items ++ following.numbers.items) }
        ensures after { IfOk result (λ p. p.after ≡ following.after) }
    {
        let Picks {
            mut numbers,
            after: _,
        } = self;
        numbers.extend_from_slice(following.numbers.as_slice())?;
        Ok(Picks {
            numbers,
            after: following.after,
        })
    }
}

/// Returns no among if two parts without an among are the same.
pub(crate) fn when(alloc: Global, same: bool, after: u64) -> Option<Picks>
    ensures numbers { numbers_in result ≡ parts.when same }
    ensures after { IfSome result (λ p. p.after ≡ after) }
{
    if same {
        Some(Picks::none(alloc, after))
    } else {
        None
    }
}

/// Returns the first of two amongs if both contain as many amongs. So many amongs of the routine come before them.
/// Returns `AllocError` if an allocation fails or there are 2^64 amongs.
pub(crate) fn pick_among(
    alloc: Global,
    one: &Among,
    other: &Among,
    before: u64,
) -> Result<Option<Picks>, AllocError>
    ensures numbers { IfOk result (λ r. numbers_in r ≡ (if nat_eq (count_in_among (view_among one.now)) (count_in_among (view_among other.now)) then Some (suc before ∷ []) else None)) }
    ensures after { IfOk result (λ r. IfSome r (λ p. p.after ≡ after_among one.now before)) }
{
    let Some(number) = before.checked_add(1) else {
        return Err(AllocError);
    };
    let after = past_among(one, before)?;
    if past_among(other, before)? != after {
        return Ok(None);
    }
    let mut numbers = Vec::new(alloc);
    numbers.push(number)?;
    Ok(Some(Picks { numbers, after }))
}

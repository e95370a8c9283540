//! Laws of sbl_program (specs/Laws.antt), written out.

ghost use Rattle.std.specs.Prelude.{◌≡◌, ℕ, suc, ◌<◌, ◌≤◌, List, ◌∷◌, ◌++◌, length, Option, Some, slice_get};
ghost use Rattle.sbl_semantics.specs.Fitting.{below, fitting, first, length_at};
ghost use Rattle.sbl_program.specs.Best.{IsBest};

use sbl_program::laws::{best_comes_first, fitting_fall, rest_is_its_own};

/// Needs the whole of the law `best_comes_first`.
pub fn needs_best_comes_first()
    ensures { (strings : List (List ℕ)) (x : List ℕ) (b : ℕ) (r : Option ℕ) → b ≤ suc (length x) → IsBest strings x b r → r ≡ first (below strings x b) }
{
    best_comes_first();
}

/// Needs the whole of the law `rest_is_its_own`.
pub fn needs_rest_is_its_own()
    ensures { (strings : List (List ℕ)) (x before rest : List ℕ) (i : ℕ) → fitting strings x ≡ before ++ (i ∷ rest) → (w : List ℕ) × (slice_get strings i ≡ Some w) × (rest ≡ below strings w (length w)) }
{
    rest_is_its_own();
}

/// Needs the whole of the law `fitting_fall`.
pub fn needs_fitting_fall()
    ensures { (strings : List (List ℕ)) (x : List ℕ) (before rest : List ℕ) (i j : ℕ) → fitting strings x ≡ before ++ (i ∷ (j ∷ rest)) → length_at strings j < length_at strings i }
{
    fitting_fall();
}

//! Laws of sbl_rows (specs/LargestAreSound.antt), written out.

ghost use Rattle.std.specs.Prelude.{◌≡◌, ℕ, List, length, min};
ghost use Rattle.sbl_rows.specs.Classes.{classes_of};
ghost use Rattle.sbl_rows.specs.Largest.{largest_of};
ghost use Rattle.sbl_rows.specs.Rows.{Row};
ghost use Rattle.law_tests.specs.Classes.{AreFirst};

use sbl_rows::laws::largest_are_sound;

/// Needs the whole of the law `largest_are_sound`.
pub fn needs_largest_are_sound()
    ensures { (n : ℕ) (rows : List Row) → AreFirst (largest_of n rows) (classes_of rows) × (length (largest_of n rows) ≡ min n (length (classes_of rows))) }
{
    largest_are_sound();
}

//! Laws of snowbench (specs/WholeCheck.antt), written out.

ghost use Rattle.std.specs.Prelude.{◌≡◌, ℕ, List, [], ◌∷◌, ◌++◌, Some};
ghost use Rattle.std.specs.List.{flat_map};
ghost use Rattle.sbl_io.specs.HeldInput.{Took};
ghost use Rattle.sbl_io.specs.LinesOf.{lines_of};

use snowbench::laws::lists_are_read;

/// Needs the whole of the law `lists_are_read`.
pub fn needs_lists_are_read()
    ensures { (input rest : List ℕ) (lines more : List (List ℕ)) → Took (Some input) (Some rest) (lines ++ more)
        → lines_of (flat_map (λ line. line ++ 13 ∷ 10 ∷ []) lines) ≡ lines }
{
    lists_are_read();
}

//! Laws of replaced amongs (sbl_tree_amongs, specs/Replacement.antt), written out.

ghost use Rattle.std.specs.Prelude.{◌≡◌, ℕ, Some, None};
ghost use Rattle.sbl_ast.specs.Tree.{Command, Others, Starter, Groups};
ghost use Rattle.sbl_ast.specs.Texts.{body, places_in};
ghost use Rattle.sbl_tree_amongs.specs.Amongs.{AmongContents, amongs_of_body as amongs_of, nth_held, put_in_body};
ghost use Rattle.sbl_tree_amongs.specs.Replacement.{IsBetween};

use sbl_tree_amongs::laws::one_is_replaced;

/// Needs the whole of the law `one_is_replaced`.
pub fn needs_one_is_replaced()
    ensures one { (b : Command × Others) (k : ℕ) (a : Starter × Groups) (h : AmongContents) → nth_held k (amongs_of b) ≡ Some h → IsBetween k h a (places_in body b) (places_in body (put_in_body b k a)) }
    ensures none { (b : Command × Others) (k : ℕ) (a : Starter × Groups) → nth_held k (amongs_of b) ≡ None → places_in body (put_in_body b k a) ≡ places_in body b }
{
    one_is_replaced();
}

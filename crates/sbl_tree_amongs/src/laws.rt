//! Laws of replaced amongs.

ghost use Rattle.sbl_tree_amongs.specs.Replacement.{NoneIsReplaced, OneIsReplaced};

/// If an among of a body is replaced, the tokens are those before it, those of the new among at the same depth, and
/// those after it, each at its old depth. If no among has this number, all tokens stay.
pub fn one_is_replaced()
    ensures one { OneIsReplaced }
    ensures none { NoneIsReplaced }
{}

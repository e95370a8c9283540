//! Laws of the canonical text.

ghost use Rattle.sbl_print.specs.SpacedItems.{CanonicalIsSpaced};

/// The canonical text of items consists of their tokens, in order, each followed by one white space character.
pub fn canonical_is_spaced()
    ensures { CanonicalIsSpaced }
{}

//! Laws of sbl_compiler (specs/Laws.antt), written out.

ghost use Rattle.std.specs.Prelude.{◌≡◌, ℕ, false, List, []};
ghost use Rattle.sbl_compiler.specs.{Ahead.routines_in, Laws.names_in, Laws.routine_at, NumberedAmongs.found_after, NumberedItems.numbered_items, NumberedItems.routines_after, NumberedNames.Names};
ghost use Rattle.sbl_semantics.specs.Items.{char_class_of, classes_after};
ghost use Rattle.sbl_program.specs.Terms.{class_at};
ghost use Rattle.sbl_ast.specs.{Order.ItemInMode, Order.in_order, Tree.Item};
ghost use Rattle.law_tests.specs.Scripts.{HasOneBody, grouping_number};

use sbl_compiler::laws::{classes_are_their_terms, own_is_made, routine_is_its_own};

/// Needs the whole of the law `own_is_made`.
pub fn needs_own_is_made()
    ensures { (ns : Names) (items : List ItemInMode) → routines_after ns items (record { coming = found_after ns items []; following = 0; waits = false }) [] ≡ routines_in ns items }
{
    own_is_made();
}

/// Needs the whole of the law `routine_is_its_own`.
pub fn needs_routine_is_its_own()
    ensures { (items items' : List Item) (external external' n : List ℕ) → names_in items ≡ names_in items' → HasOneBody items items' n → routine_at items external n ≡ routine_at items' external' n }
{
    routine_is_its_own();
}

/// Needs the whole of the law `classes_are_their_terms`.
pub fn needs_classes_are_their_terms()
    ensures { (items : List Item) (external n : List ℕ) (c : ℕ) → class_at (numbered_items items external).groupings (grouping_number items n) c ≡ char_class_of (classes_after (in_order items) []) n c }
{
    classes_are_their_terms();
}

//! The items in which two scripts differ.

ghost use Rattle.std.specs.Prelude.{◌≡◌, IfOk, map};
ghost use Rattle.sbl_ast.specs.View.{view_item};
ghost use Rattle.sbl_script.specs.ParsedScript.{source_of};
ghost use Rattle.sbl_semantics.specs.Differs as spec;
ghost use Rattle.sbl_tree_diff.specs.ItemsIn.{items_in};

use sbl_ast::ScriptItem;
use sbl_machine::Item;
use sbl_script::Script;
use sbl_tree_diff::differ_trees;
use std::alloc::{AllocError, Global};

/// The items in which two lists differ, or `None` if more differs; an error if an allocation fails.
type Differences = Result<Option<Vec<Item>>, AllocError>;

// Returns the items in which two lists of items differ. Trees with the same tokens are the same, so what differs part by
// part differs by tokens.
fn differ_items(alloc: Global, one: &[ScriptItem], other: &[ScriptItem]) -> Differences
    ensures { IfOk result (λ r. items_in r ≡ spec.differ_each spec.differ_item (map view_item one.now) (map view_item other.now)) }
{
    differ_trees(alloc, one, other)
}

/// Returns the items in which two scripts differ, in text order: a routine's amongs by their numbers if nothing else
/// differs in its body, or else the routine; and groupings. An among that differs in more than amongs inside it is one
/// of them. Returns `None` if the scripts differ in more than bodies of routines and terms of groupings, as in another
/// external or in one more item.
///
/// Takes time in proportion to the first script, and at most 64 times that if amongs inside amongs differ. Returns
/// `AllocError` if an allocation fails.
pub fn differences(
    alloc: Global,
    one: &Script,
    other: &Script,
) -> Result<Option<Vec<Item>>, AllocError>
    ensures { IfOk result (λ r. items_in r ≡ spec.differs (source_of one.now) (source_of other.now)) }
{
    if one.external() != other.external() {
        return Ok(None);
    }
    differ_items(alloc, one.items(), other.items())
}

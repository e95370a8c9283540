//! Sets of items, and the groupings that these are built from.

ghost use Rattle.std.specs.Prelude.{◌≡◌, ◌||◌, Bool, map, OnOk};
ghost use Rattle.std.specs.List.{list_any};
ghost use Rattle.sbl_machine.specs.BuiltFrom.{is_affected_by, any_names};
ghost use Rattle.sbl_machine.specs.inside.BuiltFromParts.{names};
ghost use Rattle.sbl_machine.specs.ItemRefs.{item_of_ref, items_of_refs};
ghost use Rattle.sbl_semantics.specs.TouchedItems.{same_item};
ghost use Rattle.sbl_ast.specs.NamedParts.{Part', Grouping};
ghost use Rattle.sbl_script.specs.ParsedScript.{source_of};
ghost use Rattle.sbl_ast.specs.View.{view_argument, view_plain, view_term};
ghost use Rattle.sbl_uses.specs.AddedBases.{and_terms};
ghost use Rattle.sbl_uses.specs.UnusedViews.{IsUnion};

use sbl_ast::{Argument, Plain, Term, items_in_order};
use sbl_machine::ItemRef;
use sbl_script::Script;
use std::alloc::{AllocError, Global};
use std::collections::BTreeSet;

/// Items in their order.
pub type Items<'a> = BTreeSet<ItemRef<'a>>;

/// Adds an item. Returns `AllocError` if an allocation fails.
#[tactic(auto, using(crate::proofs::Sets::item_added))]
fn add_item<'a>(items: &mut Items<'a>, item: ItemRef<'a>) -> Result<(), AllocError>
    ensures { OnOk result ((test : Part' → Bool) → list_any test (items_of_refs items.new) ≡ (test (item_of_ref item.entry) || list_any test (items_of_refs items.old))) }
{
    items.insert(item)?;
    Ok(())
}

/// Adds the items of another set. Returns `AllocError` if an allocation fails.
pub fn add_items<'a>(items: &mut Items<'a>, more: Items<'a>) -> Result<(), AllocError>
    ensures { OnOk result (IsUnion (items_of_refs items.new) (items_of_refs more.entry) (items_of_refs items.old)) }
{
    for item in more {
        add_item(items, item)?;
    }
    Ok(())
}

/// Adds the grouping that a term names, if it names one. Returns `AllocError` if an allocation fails.
fn add_argument<'a>(items: &mut Items<'a>, argument: &'a Argument) -> Result<(), AllocError>
    ensures { OnOk result ((p : Part' → Bool) → list_any p (items_of_refs items.new) ≡ (names (λ k. p (Grouping k)) (view_argument argument.now) || list_any p (items_of_refs items.old))) }
{
    match argument {
        Argument::Literal(_) => Ok(()),
        Argument::Name(name) => add_item(items, ItemRef::Grouping(name)),
    }
}

/// Adds the groupings that terms name. Returns `AllocError` if an allocation fails.
fn add_terms<'a>(items: &mut Items<'a>, terms: &'a [Term]) -> Result<(), AllocError>
    ensures { OnOk result ((p : Part' → Bool) → list_any p (items_of_refs items.new) ≡ (any_names (λ k. p (Grouping k)) (map view_term terms.now) || list_any p (items_of_refs items.old))) }
{
    for term in terms {
        add_argument(items, &term.argument)?;
    }
    Ok(())
}

/// Returns whether an item is one of some. Does not allocate.
#[tactic(auto, using(crate::proofs::Sets::item_held))]
pub(crate) fn has_item<'a>(items: &Items<'a>, item: &ItemRef<'a>) -> bool
    ensures { result ≡ list_any (same_item (item_of_ref item.now)) (items_of_refs items.now) }
{
    items.contains(item)
}

/// If a definition is that of a grouping that is one of the items, adds the groupings that its terms name. Returns `AllocError`
/// if an allocation fails.
fn add_built_from<'a>(items: &mut Items<'a>, plain: &'a Plain) -> Result<(), AllocError>
    ensures { OnOk result ((x : Part') → list_any (same_item x) (items_of_refs items.new) ≡ and_terms (view_plain plain.now) (λ y. list_any (same_item y) (items_of_refs items.old)) x) }
{
    if let Plain::Grouping(grouping) = plain {
        if has_item(items, &ItemRef::Grouping(&grouping.name)) {
            add_argument(items, &grouping.first)?;
            add_terms(items, &grouping.others)?;
        }
    }
    Ok(())
}

/// Adds the groupings that the items are built from, directly or through others: a term names only groupings that are defined
/// before it. Returns `AllocError` if an allocation fails.
pub fn add_bases<'a>(
    alloc: Global,
    items: &mut Items<'a>,
    script: &'a Script,
) -> Result<(), AllocError>
    ensures { OnOk result ((x : Part') → list_any (same_item x) (items_of_refs items.new) ≡ list_any (is_affected_by (source_of script.now) x) (items_of_refs items.old)) }
{
    let in_order = items_in_order(alloc, script.items())?;
    let mut left = in_order.len();
    while 0 < left {
        left -= 1;
        add_built_from(items, in_order[left].plain)?;
    }
    Ok(())
}

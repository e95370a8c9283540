//! The items in which two lists of items differ.

ghost use Rattle.std.specs.Prelude.{◌≡◌, ◌∷◌, ◌++◌, List, [], if◌then◌else◌, IfOk, Option, map, string_bytes};
ghost use Rattle.sbl_ast.specs.View.{view_item, view_plain};
ghost use Rattle.sbl_semantics.specs.DiffersByParts as parts;
ghost use Rattle.sbl_semantics.specs.TouchedItems.{item_of};
ghost use Rattle.sbl_ast.specs.NamedParts.{Among, Grouping, Part'};
ghost use Rattle.sbl_tree_diff.specs.ItemsIn.{items_in};
ghost use Rattle.sbl_tree_diff.specs.WalkViews.{numbers_of};

use crate::command_diff::differ_bodies;
use crate::same::{alike, same_argument, same_base, same_literal, same_names, same_terms};
use sbl_ast::{Plain, ScriptItem};
use sbl_semantics::Item;
use sbl_tree_amongs::copy_name;
use std::alloc::{AllocError, Global};

/// Returns no item if two items without a body and without terms are the same, and `None` if they differ.
fn no_item_when(alloc: Global, same: bool) -> Option<Vec<Item>>
    ensures { items_in result ≡ parts.when same }
{
    if same { Some(Vec::new(alloc)) } else { None }
}

/// Returns the items of the first list and then those of the second.
fn items_then(first: Vec<Item>, second: Vec<Item>) -> Result<Vec<Item>, AllocError>
    ensures { IfOk result (λ v. map item_of v.items ≡ map item_of first.items ++ map item_of second.items) }
{
    let mut items = first;
    let mut more = second;
    items.append(&mut more)?;
    Ok(items)
}

/// Returns the amongs of a routine with these numbers.
fn amongs_of(alloc: Global, name: &String, numbers: &Vec<u64>) -> Result<Vec<Item>, AllocError>
    ensures { IfOk result (λ v. map item_of v.items ≡ map (Among (string_bytes name.now)) numbers.now.items) }
{
    let mut items = Vec::new(alloc);
    for number in numbers {
        items.push(Item::Among(copy_name(alloc, name)?, *number))?;
    }
    Ok(items)
}

/// Returns the items of a routine whose bodies differ in these amongs; `None` stands for the whole routine.
fn items_by(
    alloc: Global,
    name: &String,
    numbers: Option<Vec<u64>>,
) -> Result<Vec<Item>, AllocError>
    ensures { IfOk result (λ v. map item_of v.items ≡ parts.items_by (string_bytes name.now) (numbers_of numbers)) }
{
    match numbers {
        None => {
            let mut items = Vec::new(alloc);
            items.push(Item::Routine(copy_name(alloc, name)?))?;
            Ok(items)
        }
        Some(numbers) => {
            let items = amongs_of(alloc, name, &numbers)?;
            Ok(items)
        }
    }
}

/// Returns the grouping unless its terms are the same.
fn grouping_unless(alloc: Global, name: &String, same: bool) -> Result<Vec<Item>, AllocError>
    ensures { IfOk result (λ v. map item_of v.items ≡ (if same then [] else Grouping (string_bytes name.now) ∷ [])) }
{
    let mut items = Vec::new(alloc);
    if !same {
        items.push(Item::Grouping(copy_name(alloc, name)?))?;
    }
    Ok(items)
}

/// Returns the items in which two plain items differ, and `None` if more differs than the body of a routine or the
/// terms of a grouping.
fn differ_plain(alloc: Global, one: &Plain, other: &Plain) -> Result<Option<Vec<Item>>, AllocError>
    ensures { IfOk result (λ r. items_in r ≡ parts.differ_plain (view_plain one.now) (view_plain other.now)) }
{
    match one {
        Plain::Declaration(kind, names) =>
            alike!(other, Plain::Declaration(other_kind, other_names) => {
            let same = *kind == *other_kind && same_names(names, other_names);
            Ok(no_item_when(alloc, same))
        }),
        Plain::StringEscapes(left, right) =>
            alike!(other, Plain::StringEscapes(other_left, other_right) => {
            Ok(no_item_when(alloc, *left == *other_left && *right == *other_right))
        }),
        Plain::StringDef { name, base, value } =>
            alike!(other, Plain::StringDef { name: other_name, base: other_base, value: other_value } => {
            let same = name.as_str() == other_name.as_str() && same_base(base, other_base) && same_literal(value, other_value);
            Ok(no_item_when(alloc, same))
        }),
        Plain::Routine { name, body } =>
            alike!(other, Plain::Routine { name: other_name, body: other_body } => {
            if name.as_str() != other_name.as_str() {
                return Ok(None);
            }
            let numbers = differ_bodies(alloc, body, other_body)?;
            Ok(Some(items_by(alloc, name, numbers)?))
        }),
        Plain::Grouping(grouping) => alike!(other, Plain::Grouping(other_grouping) => {
            if grouping.name.as_str() != other_grouping.name.as_str() {
                return Ok(None);
            }
            let same = same_argument(&grouping.first, &other_grouping.first)
                && same_terms(&grouping.others, &other_grouping.others);
            Ok(Some(grouping_unless(alloc, &grouping.name, same)?))
        }),
    }
}

/// An item of a script, or of a `backwardmode`.
trait Differ: Sized {
    /// The items in which two of them differ.
    ghost differs: { Self → Self → Option (List Part') };

    /// Returns the items in which two of them differ, and `None` if more differs than bodies of routines and terms of
    /// groupings.
    fn differ(&self, alloc: Global, other: &Self) -> Result<Option<Vec<Item>>, AllocError>
        ensures { IfOk result (λ r. items_in r ≡ differs self.now other.now) };
}

impl Differ for Plain {
    ghost differs = { λ x y. parts.differ_plain (view_plain x) (view_plain y) };

    fn differ(&self, alloc: Global, other: &Plain) -> Result<Option<Vec<Item>>, AllocError> {
        differ_plain(alloc, self, other)
    }
}

impl Differ for ScriptItem {
    ghost differs = { λ x y. parts.differ_item (view_item x) (view_item y) };

    #[tactic(auto, using(crate::proofs::Joins::each_viewed))]
    fn differ(&self, alloc: Global, other: &ScriptItem) -> Result<Option<Vec<Item>>, AllocError> {
        match self {
            ScriptItem::Plain(plain) =>
                alike!(other, ScriptItem::Plain(other_plain) => plain.differ(alloc, other_plain)),
            ScriptItem::BackwardMode(plains) =>
                alike!(other, ScriptItem::BackwardMode(other_plains) => {
                differ_each(alloc, plains, other_plains)
            }),
        }
    }
}

// The items in which two lists differ.
#[tactic(auto, using(crate::proofs::Joins::join_nothing, crate::proofs::Joins::join_left))]
fn differ_each<T: Differ>(
    alloc: Global,
    one: &[T],
    other: &[T],
) -> Result<Option<Vec<Item>>, AllocError>
    ensures { IfOk result (λ r. items_in r ≡ parts.differ_each T.differs one.now other.now) }
{
    let mut items = Vec::new(alloc);
    let mut others = other;
    for first in one {
        let [second, rest @ ..] = others else {
            return Ok(None);
        };
        let Some(more) = first.differ(alloc, second)? else {
            return Ok(None);
        };
        items = items_then(items, more)?;
        others = rest;
    }
    match others {
        [] => Ok(Some(items)),
        [_second, _rest @ ..] => Ok(None),
    }
}

/// Returns the items in which two lists of items differ, in text order, and `None` if more than bodies of routines and terms of
/// groupings differ. Returns `AllocError` if an allocation fails.
#[tactic(auto, using(crate::proofs::Joins::each_viewed))]
pub fn differ_trees(
    alloc: Global,
    one: &[ScriptItem],
    other: &[ScriptItem],
) -> Result<Option<Vec<Item>>, AllocError>
    ensures { IfOk result (λ r. items_in r ≡ parts.differ_each parts.differ_item (map view_item one.now) (map view_item other.now)) }
{
    differ_each(alloc, one, other)
}

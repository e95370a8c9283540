//! The items that a run touches, by name.

ghost use Rattle.std.specs.Prelude.{◌≡◌, ◌<◌, IfOk, OnOk, map, string_bytes, slice_index_or, []};
ghost use Rattle.std.specs.BTreeSet.{insert_key};
ghost use Rattle.std.specs.List.{list_any};
ghost use Rattle.sbl_semantics.specs.TouchedItems.{item_cmp, item_of, items_in, items_of, item_of_touch, same_item};
ghost use Rattle.sbl_machine.specs.ItemRefs.{item_of_ref, items_of_refs};

use crate::item_ref::ItemRef;
use sbl_run_state::Touch;
use sbl_semantics::Item;
use std::alloc::{AllocError, Global};
use std::collections::BTreeSet;
use std::marker::Model;

/// The names of a script's routines and groupings, each in the order of their definitions.
#[derive(Drop)]
pub struct Names {
    /// The routines.
    pub routines: Vec<String>,
    /// The groupings.
    pub groupings: Vec<String>,
}

impl Model for Names {
    ghost use Rattle.std.specs.Prelude.{map, string_bytes};
    ghost use Rattle.sbl_semantics.specs.TouchedItems.{Names'};

    ghost Value = { Names' };

    ghost view = { λ n. record { routines = map string_bytes n.routines.items; groupings = map string_bytes n.groupings.items } };
}

// Returns the name of the routine or grouping with this number, or an empty name if there is none.
fn name_at(names: &[String], number: usize) -> &str
    ensures { result.now ≡ slice_index_or (map string_bytes names.now) number [] }
{
    match names.get(number) {
        Some(name) => name.as_str(),
        None => "",
    }
}

/// Returns the name of the routine with this number, or an empty name if there is none.
pub fn routine_at(names: &Names, number: usize) -> &str
    ensures { result.now ≡ slice_index_or names.now.routines number [] }
{
    name_at(&names.routines, number)
}

// Returns the item of a touch. Returns `AllocError` if an allocation fails.
fn item_named(alloc: Global, names: &Names, touch: Touch) -> Result<Item, AllocError>
    ensures { IfOk result (λ item. item_of item ≡ item_of_touch names.now touch) }
{
    match touch {
        Touch::Entered(routine) => Ok(Item::Routine(String::from_str(
            alloc,
            name_at(&names.routines, routine as usize),
        )?)),
        Touch::Searched(routine, among) => {
            let name = String::from_str(alloc, name_at(&names.routines, routine as usize))?;
            Ok(Item::Among(name, u64::from(among) + 1))
        }
        Touch::Tested(grouping) => Ok(Item::Grouping(String::from_str(
            alloc,
            name_at(&names.groupings, grouping as usize),
        )?)),
    }
}

fn add_item(items: &mut BTreeSet<Item>, item: Item) -> Result<(), AllocError>
    ensures { OnOk result (items_in items.new ≡ insert_key item_cmp (items_in items.old) (item_of item)) }
{
    match items.insert(item) {
        Ok(_) => Ok(()),
        Err(_) => Err(AllocError),
    }
}

/// Returns the items that are touched, each once, in order. Returns `AllocError` if an allocation fails.
pub fn items_touched(
    alloc: Global,
    names: &Names,
    touches: &[Touch],
) -> Result<BTreeSet<Item>, AllocError>
    ensures { IfOk result (λ set. items_in set ≡ items_of names.now touches.now) }
{
    let mut items = BTreeSet::new(alloc);
    let mut left = touches.len();
    while 0 < left {
        left -= 1;
        add_item(&mut items, item_named(alloc, names, touches[left])?)?;
    }
    Ok(items)
}

// Returns the item of a touch, with its name borrowed.
fn item_ref<'n>(names: &'n Names, touch: Touch) -> ItemRef<'n>
    ensures { item_of_ref result ≡ item_of_touch names.now touch }
{
    match touch {
        Touch::Entered(routine) => ItemRef::Routine(name_at(&names.routines, routine as usize)),
        Touch::Searched(routine, among) => {
            ItemRef::Among(
                name_at(&names.routines, routine as usize),
                u64::from(among) + 1,
            )
        }
        Touch::Tested(grouping) => {
            ItemRef::Grouping(name_at(&names.groupings, grouping as usize))
        }
    }
}

fn add_ref<'n>(items: &mut BTreeSet<ItemRef<'n>>, item: ItemRef<'n>) -> Result<(), AllocError>
    ensures { OnOk result (items_of_refs items.new ≡ insert_key item_cmp (items_of_refs items.old) (item_of_ref item.entry)) }
{
    match items.insert(item) {
        Ok(_) => Ok(()),
        Err(_) => Err(AllocError),
    }
}

/// Returns the items that are touched, each once, in order, with their names borrowed. Returns `AllocError` if an allocation
/// fails.
pub fn item_refs<'n>(
    alloc: Global,
    names: &'n Names,
    touches: &[Touch],
) -> Result<BTreeSet<ItemRef<'n>>, AllocError>
    ensures { IfOk result (λ set. items_of_refs set ≡ items_of names.now touches.now) }
{
    let mut items = BTreeSet::new(alloc);
    let mut left = touches.len();
    while 0 < left {
        left -= 1;
        add_ref(&mut items, item_ref(names, touches[left]))?;
    }
    Ok(items)
}

// Whether a touch is of this item.
fn is_touch_of(names: &Names, touch: Touch, item: &Item) -> bool
    ensures { result ≡ same_item (item_of item.now) (item_of_touch names.now touch) }
{
    match item {
        Item::Routine(name) => match touch {
            Touch::Entered(routine) => name.as_str() == name_at(&names.routines, routine as usize),
            Touch::Searched(_, _) | Touch::Tested(_) => false,
        },
        Item::Among(name, number) => match touch {
            Touch::Searched(routine, among) => {
                *number == u64::from(among) + 1
                    && name.as_str() == name_at(&names.routines, routine as usize)
            }
            Touch::Entered(_) | Touch::Tested(_) => false,
        },
        Item::Grouping(name) => match touch {
            Touch::Tested(grouping) => name.as_str()
                == name_at(&names.groupings, grouping as usize),
            Touch::Entered(_) | Touch::Searched(_, _) => false,
        },
    }
}

/// Whether one of the touches is of this item.
pub fn is_touched(names: &Names, touches: &[Touch], item: &Item) -> bool
    ensures { result ≡ list_any (same_item (item_of item.now)) (map (item_of_touch names.now) touches.now) }
{
    for touch in touches {
        if is_touch_of(names, *touch, item) {
            return true;
        }
    }
    false
}

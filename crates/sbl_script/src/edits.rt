//! Finds the definition of a routine or a grouping, finds what is in force before it, and copies items with another
//! definition in its place.

ghost use Rattle.std.specs.Prelude.{◌≡◌, IfOk, IfErr, map};
ghost use Rattle.std.specs.List.{list_any};
ghost use Rattle.sbl_ast.specs.Tree as trees;
ghost use Rattle.sbl_ast.specs.View.{view_argument, view_item, view_items, view_plain, view_row, view_term};
ghost use Rattle.sbl_script.specs.Edits as spec;
ghost use Rattle.sbl_script.specs.Homes as homes;
ghost use Rattle.sbl_script.specs.Parts.{view_part};

use crate::part::Part;
use sbl_ast::{Argument, Base, Grouping, Plain, RowOfCommands, ScriptItem, Term};
use sbl_text::{Coding, Escapes, ScriptFault, macro_value};
use sbl_tree_amongs::copy_plain;
use std::alloc::{AllocError, Global};

/// Whether the item is a definition that the part may be in.
fn defines(plain: &Plain, part: Part<'_>) -> bool
    ensures { result ≡ spec.changes (view_part part.entry) (view_plain plain.now) }
{
    match part {
        Part::Routine(name) | Part::Among(name, _) => is_routine_named(plain, name),
        Part::Grouping(name) => is_grouping_named(plain, name),
    }
}

/// Whether the item defines the routine or external with this name.
fn is_routine_named(plain: &Plain, name: &str) -> bool
    ensures { result ≡ spec.is_routine_named name.now (view_plain plain.now) }
{
    match plain {
        Plain::Routine {
            name: defined,
            body: _,
        } => name == defined.as_str(),
        _ => false,
    }
}

/// Whether the item defines the grouping with this name.
fn is_grouping_named(plain: &Plain, name: &str) -> bool
    ensures { result ≡ spec.is_grouping_named name.now (view_plain plain.now) }
{
    match plain {
        Plain::Grouping(grouping) => name == grouping.name.as_str(),
        _ => false,
    }
}

fn plain_if<'a>(plain: &'a Plain, part: Part<'_>) -> Option<&'a Plain>
    ensures { homes.Finds (λ x. view_plain x.now) result (homes.plain_if (spec.changes (view_part part.entry)) (view_plain plain.now)) }
{
    if defines(plain, part) {
        Some(plain)
    } else {
        None
    }
}

fn first_in<'a>(plains: &'a [Plain], part: Part<'_>) -> Option<&'a Plain>
    ensures { homes.Finds (λ x. view_plain x.now) result (homes.first_in (spec.changes (view_part part.entry)) (map view_plain plains.now)) }
{
    for plain in plains {
        if let Some(found) = plain_if(plain, part) {
            return Some(found);
        }
    }
    None
}

/// Returns the first definition that the part may be in, in text order; `None` if there is none.
pub fn definition_of<'a>(items: &'a [ScriptItem], part: Part<'_>) -> Option<&'a Plain>
    ensures { homes.Finds (λ x. view_plain x.now) result (spec.first_of (spec.changes (view_part part.entry)) (view_items items.now)) }
{
    for item in items {
        let found = match item {
            ScriptItem::Plain(plain) => plain_if(plain, part),
            ScriptItem::BackwardMode(plains) => first_in(plains.as_slice(), part),
        };
        if let Some(plain) = found {
            return Some(plain);
        }
    }
    None
}

/// Returns the body of the first routine or external with this name; `None` if there is none.
pub fn routine_of<'a>(items: &'a [ScriptItem], name: &str) -> Option<&'a RowOfCommands>
    ensures { homes.Finds (λ body. trees.routine name.now (view_row body.now).0 (view_row body.now).1) result (spec.first_of (spec.is_routine_named name.now) (view_items items.now)) }
{
    match definition_of(items, Part::Routine(name))? {
        Plain::Routine { name: _, body } => Some(body),
        _ => None,
    }
}

/// Returns the first grouping with this name; `None` if there is none.
pub fn grouping_of<'a>(items: &'a [ScriptItem], name: &str) -> Option<&'a Grouping>
    ensures { homes.Finds (λ x. trees.grouping name.now (view_argument x.now.first) (map view_term x.now.others.items)) result (spec.first_of (spec.is_grouping_named name.now) (view_items items.now)) }
{
    match definition_of(items, Part::Grouping(name))? {
        Plain::Grouping(grouping) => Some(grouping),
        _ => None,
    }
}

/// Returns how the literal of a macro is read.
fn coding_of(base: Option<Base>) -> Coding
    ensures { result ≡ spec.coding_of base }
{
    match base {
        None => Coding::Plain,
        Some(Base::Hex) => Coding::Hex,
        Some(Base::Decimal) => Coding::Decimal,
    }
}

/// Adds what an item sets to what is in force.
fn set(alloc: Global, escapes: &mut Escapes, plain: &Plain) -> Result<(), ScriptFault>
    ensures set { IfOk result (λ _. escapes.new ≡ spec.escapes_after escapes.old (view_plain plain.now)) }
    ensures fault { IfErr result (λ f. f ≡ ScriptFault.OutOfMemory) }
{
    match plain {
        Plain::StringEscapes(a, b) => {
            escapes.set(*a, *b);
            Ok(())
        }
        Plain::StringDef { name, base, value } => {
            match macro_value(alloc, coding_of(*base), value.value.as_slice(), 0) {
                Ok(value) => {
                    escapes.define(name.as_str(), value.as_slice())?;
                    Ok(())
                }
                Err(ScriptFault::OutOfMemory) => Err(ScriptFault::OutOfMemory),
                Err(_) => Ok(()),
            }
        }
        _ => Ok(()),
    }
}

/// Whether the definition was reached.
type Reached = Result<bool, ScriptFault>;

/// Adds what the items before the definition set. Returns whether the definition was reached.
fn reach_in(alloc: Global, plains: &[Plain], part: Part<'_>, escapes: &mut Escapes) -> Reached
    ensures reached { IfOk result (λ found. (escapes.new, found) ≡ homes.walk_in (spec.changes (view_part part.entry)) (map view_plain plains.now) escapes.old) }
    ensures fault { IfErr result (λ f. f ≡ ScriptFault.OutOfMemory) }
{
    for plain in plains {
        if defines(plain, part) {
            return Ok(true);
        }
        set(alloc, escapes, plain)?;
    }
    Ok(false)
}

fn reach(alloc: Global, items: &[ScriptItem], part: Part<'_>, escapes: &mut Escapes) -> Reached
    ensures reached { IfOk result (λ found. (escapes.new, found) ≡ homes.walk_to (spec.changes (view_part part.entry)) (view_items items.now) escapes.old) }
    ensures fault { IfErr result (λ f. f ≡ ScriptFault.OutOfMemory) }
{
    for item in items {
        match item {
            ScriptItem::Plain(plain) => {
                if defines(plain, part) {
                    return Ok(true);
                }
                set(alloc, escapes, plain)?;
            }
            ScriptItem::BackwardMode(plains) => {
                if reach_in(alloc, plains.as_slice(), part, escapes)? {
                    return Ok(true);
                }
            }
        }
    }
    Ok(false)
}

/// Returns what is in force where the first definition that the part may be in begins.
pub fn escapes_before(
    alloc: Global,
    items: &[ScriptItem],
    part: Part<'_>,
) -> Result<Escapes, ScriptFault>
    ensures escapes { IfOk result (λ e. e ≡ homes.escapes_before (spec.changes (view_part part.entry)) (view_items items.now)) }
    ensures fault { IfErr result (λ f. f ≡ ScriptFault.OutOfMemory) }
{
    let mut escapes = Escapes::new(alloc);
    reach(alloc, items, part, &mut escapes)?;
    Ok(escapes)
}

/// Returns a routine with this name and this body.
pub fn routine(alloc: Global, name: &str, body: RowOfCommands) -> Result<Plain, AllocError>
    ensures { IfOk result (λ x. view_plain x ≡ trees.routine name.now (view_row body).0 (view_row body).1) }
{
    match String::from_str(alloc, name) {
        Ok(name) => Ok(Plain::Routine { name, body }),
        Err(error) => {
            drop(body);
            Err(error)
        }
    }
}

/// Returns a grouping with this name and these terms.
pub fn grouping(
    alloc: Global,
    name: &str,
    terms: (Argument, Vec<Term>),
) -> Result<Plain, AllocError>
    ensures { IfOk result (λ x. view_plain x ≡ trees.grouping name.now (view_argument terms.0) (map view_term terms.1.items)) }
{
    let (first, others) = terms;
    Ok(Plain::Grouping(Grouping {
        name: String::from_str(alloc, name)?,
        first,
        others,
    }))
}

fn plains_with(
    alloc: Global,
    plains: &[Plain],
    part: Part<'_>,
    new: &Plain,
) -> Result<Vec<Plain>, AllocError>
    ensures { IfOk result (λ x. map view_plain x.items ≡ spec.plains_with (spec.changes (view_part part.entry)) (view_plain new.now) (map view_plain plains.now)) }
{
    let mut copies = Vec::new(alloc);
    let mut is_put = false;
    for plain in plains {
        let copy = if !is_put && defines(plain, part) {
            is_put = true;
            copy_plain(alloc, new)?
        } else {
            copy_plain(alloc, plain)?
        };
        copies.push(copy)?;
    }
    Ok(copies)
}

/// Whether the definition is this item, or inside it.
fn holds(item: &ScriptItem, part: Part<'_>) -> bool
    ensures { result ≡ homes.holds (spec.changes (view_part part.entry)) (view_item item.now) }
{
    match item {
        ScriptItem::Plain(plain) => defines(plain, part),
        ScriptItem::BackwardMode(plains) => any_defines(plains.as_slice(), part),
    }
}

fn any_defines(plains: &[Plain], part: Part<'_>) -> bool
    ensures { result ≡ list_any (spec.changes (view_part part.entry)) (map view_plain plains.now) }
{
    for plain in plains {
        if defines(plain, part) {
            return true;
        }
    }
    false
}

/// Returns a copy of an item.
fn copy_item(alloc: Global, item: &ScriptItem) -> Result<ScriptItem, AllocError>
    ensures { IfOk result (λ x. view_item x ≡ view_item item.now) }
{
    match item {
        ScriptItem::Plain(plain) => Ok(ScriptItem::Plain(copy_plain(alloc, plain)?)),
        ScriptItem::BackwardMode(plains) => {
            Ok(ScriptItem::BackwardMode(copy_plains(alloc, plains.as_slice())?))
        }
    }
}

fn copy_plains(alloc: Global, plains: &[Plain]) -> Result<Vec<Plain>, AllocError>
    ensures { IfOk result (λ x. map view_plain x.items ≡ map view_plain plains.now) }
{
    let mut copies = Vec::new(alloc);
    for plain in plains {
        let copy = copy_plain(alloc, plain)?;
        copies.push(copy)?;
    }
    Ok(copies)
}

fn item_with(
    alloc: Global,
    item: &ScriptItem,
    part: Part<'_>,
    new: &Plain,
) -> Result<ScriptItem, AllocError>
    ensures { IfOk result (λ x. view_item x ≡ homes.item_with (spec.changes (view_part part.entry)) (view_plain new.now) (view_item item.now)) }
{
    match item {
        ScriptItem::Plain(_) => Ok(ScriptItem::Plain(copy_plain(alloc, new)?)),
        ScriptItem::BackwardMode(plains) => Ok(ScriptItem::BackwardMode(plains_with(
            alloc,
            plains.as_slice(),
            part,
            new,
        )?)),
    }
}

/// Returns a copy of the items with `new` in place of the first definition that the part may be in.
#[tactic(auto, using(crate::proofs::ItemSteps::items_step))]
pub fn items_with(
    alloc: Global,
    items: &[ScriptItem],
    part: Part<'_>,
    new: &Plain,
) -> Result<Vec<ScriptItem>, AllocError>
    ensures { IfOk result (λ x. view_items x.items ≡ spec.items_with (spec.changes (view_part part.entry)) (view_plain new.now) (view_items items.now)) }
{
    let mut copies = Vec::new(alloc);
    let mut is_put = false;
    for item in items {
        let copy = if !is_put && holds(item, part) {
            is_put = true;
            item_with(alloc, item, part, new)?
        } else {
            copy_item(alloc, item)?
        };
        copies.push(copy)?;
    }
    Ok(copies)
}

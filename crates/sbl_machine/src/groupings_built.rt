//! The groupings that are built from some groupings: each that names one of them among its terms, or names another that
//! is built from one of them.

ghost use Rattle.std.specs.Prelude.{◌≡◌, map, OnOk, IfOk};
ghost use Rattle.sbl_semantics.specs.Items.{is_member};
ghost use Rattle.sbl_ast.specs.Order.{in_order};
ghost use Rattle.sbl_ast.specs.View.{view_argument, view_items, view_plain, view_term};
ghost use Rattle.sbl_machine.specs.BuiltFrom as spec;
ghost use Rattle.sbl_machine.specs.inside.BuiltFromParts as parts;

use sbl_ast::{Argument, Plain, ScriptItem, Term, items_in_order};
use sbl_compiler::NameList;
use std::alloc::{AllocError, Global};

// Whether a term is the name of one of these groupings.
fn names_one(names: &NameList, argument: &Argument) -> bool
    ensures { result ≡ parts.names (is_member names.now) (view_argument argument.now) }
{
    match argument {
        Argument::Literal(_) => false,
        Argument::Name(name) => names.is_one_of(name.as_str()),
    }
}

// Whether one of these terms is the name of one of these groupings.
fn one_names_one(names: &NameList, terms: &[Term]) -> bool
    ensures { result ≡ spec.any_names (is_member names.now) (map view_term terms.now) }
{
    for term in terms {
        if names_one(names, &term.argument) {
            return true;
        }
    }
    false
}

// If the item is a grouping built from one of `names`, adds its name.
fn add_built(alloc: Global, plain: &Plain, names: &mut NameList) -> Result<(), AllocError>
    ensures { OnOk result (names.new ≡ spec.and_built (view_plain plain.now) names.old) }
{
    if let Plain::Grouping(grouping) = plain {
        if names_one(names, &grouping.first) || one_names_one(names, &grouping.others) {
            names.add(alloc, grouping.name.as_str())?;
        }
    }
    Ok(())
}

/// Returns the names of some groupings, followed by those of all groupings that are built from them. The cost is about
/// that of one walk over the script, however many names there are.
///
/// # Errors
///
/// Returns `AllocError` if an allocation fails.
pub fn built_from(
    alloc: Global,
    items: &[ScriptItem],
    groupings: NameList,
) -> Result<NameList, AllocError>
    ensures { IfOk result (λ names. names ≡ parts.built_after (in_order (view_items items.now)) groupings) }
{
    let mut names = groupings;
    let in_order = items_in_order(alloc, items)?;
    for item in &in_order {
        add_built(alloc, item.plain, &mut names)?;
    }
    Ok(names)
}

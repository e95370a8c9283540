//! The names of a script by kind, and their numbers.

ghost use Rattle.std.specs.Prelude.{◌≡◌, ◌++◌, map, OnOk, IfOk, string_bytes};
ghost use Rattle.sbl_ast.specs.Order.{view_in_mode};
ghost use Rattle.sbl_ast.specs.View.{view_plain};
ghost use Rattle.sbl_compiler.specs.NumberedNames as spec;
ghost use Rattle.sbl_compiler.specs.NumberedView.{view_names};

use crate::name_list::NameList;
use sbl_ast::{DeclarationKind, ItemInMode, Plain};
use std::alloc::{AllocError, Global};

/// The names of a script: variables in the order of their declarations, groupings and routines in the order of their
/// definitions.
#[derive(Drop)]
pub struct SymbolTable {
    /// The string variables.
    pub strings: NameList,
    /// The integers.
    pub integers: NameList,
    /// The booleans.
    pub booleans: NameList,
    /// The groupings.
    pub groupings: NameList,
    /// The routines.
    pub routines: NameList,
}

impl SymbolTable {
    /// Returns the names of the routines and those of the groupings.
    pub fn into_lists(self) -> (Vec<String>, Vec<String>)
        ensures routines { map string_bytes result.0.items ≡ self.routines }
        ensures groupings { map string_bytes result.1.items ≡ self.groupings }
    {
        let SymbolTable {
            strings,
            integers,
            booleans,
            groupings,
            routines,
        } = self;
        drop(strings);
        drop(integers);
        drop(booleans);
        (routines.into_names(), groupings.into_names())
    }
}

// Adds names after the others. Returns `AllocError` if an allocation fails.
fn add_names(alloc: Global, more: &Vec<String>, names: &mut NameList) -> Result<(), AllocError>
    ensures { OnOk result (names.new ≡ names.old ++ map string_bytes more.now.items) }
{
    for name in more {
        names.add(alloc, name.as_str())?;
    }
    Ok(())
}

fn declare(
    alloc: Global,
    kind: DeclarationKind,
    more: &Vec<String>,
    names: &mut SymbolTable,
) -> Result<(), AllocError>
    ensures { OnOk result (view_names names.new ≡ spec.declaring kind (map string_bytes more.now.items) (view_names names.old)) }
{
    match kind {
        DeclarationKind::Strings => add_names(alloc, more, &mut names.strings),
        DeclarationKind::Integers => add_names(alloc, more, &mut names.integers),
        DeclarationKind::Booleans => add_names(alloc, more, &mut names.booleans),
        DeclarationKind::Routines | DeclarationKind::Externals | DeclarationKind::Groupings => Ok(
            (),
        ),
    }
}

fn name_item(alloc: Global, plain: &Plain, names: &mut SymbolTable) -> Result<(), AllocError>
    ensures { OnOk result (view_names names.new ≡ spec.naming (view_plain plain.now) (view_names names.old)) }
{
    match plain {
        Plain::Declaration(kind, more) => declare(alloc, *kind, more, names),
        Plain::Routine { name, .. } => names.routines.add(alloc, name.as_str()),
        Plain::Grouping(grouping) => names.groupings.add(alloc, grouping.name.as_str()),
        Plain::StringEscapes(_, _) => Ok(()),
        Plain::StringDef { .. } => Ok(()),
    }
}

/// Returns the names of a script. Returns `AllocError` if an allocation fails.
pub fn names_of(alloc: Global, items: &[ItemInMode]) -> Result<SymbolTable, AllocError>
    ensures { IfOk result (λ names. view_names names ≡ spec.names_after (map view_in_mode items.now) spec.no_names) }
{
    let mut names = SymbolTable {
        strings: NameList::new(alloc),
        integers: NameList::new(alloc),
        booleans: NameList::new(alloc),
        groupings: NameList::new(alloc),
        routines: NameList::new(alloc),
    };
    for item in items {
        if let Err(refused) = name_item(alloc, item.plain, &mut names) {
            drop(names);
            return Err(refused);
        }
    }
    Ok(names)
}

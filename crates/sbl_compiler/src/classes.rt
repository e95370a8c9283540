//! Makes the classes of the groupings.

ghost use Rattle.std.specs.Prelude.{◌≡◌, ◌∷◌, [], true, map, OnOk, IfOk};
ghost use Rattle.sbl_ast.specs.Order.{view_in_mode};
ghost use Rattle.sbl_ast.specs.Tree.{term};
ghost use Rattle.sbl_ast.specs.View.{view_argument, view_plain, view_term};
ghost use Rattle.sbl_ast.specs.declared.tree.Additive.TheVariants.{Plus};
ghost use Rattle.sbl_program.specs.CharacterClasses.{members};
ghost use Rattle.sbl_program.specs.Terms.{class_after, no_character};
ghost use Rattle.sbl_compiler.specs.NamedAgain.{is_name_of, is_named_again};
ghost use Rattle.sbl_compiler.specs.NumberedClasses as spec;
ghost use Rattle.sbl_compiler.specs.NumberedView.{names_in, view_names};

use crate::compiler::{CompileResult, Compiler};
use crate::names::SymbolTable;
use sbl_ast::{Additive, Argument, ItemInMode, Plain, Term};
use sbl_program::CharacterClass;
use std::alloc::{AllocError, Global};
use std::collections::BTreeMap;

// Returns the class with the characters of a term added or removed. Returns `AllocError` if an allocation fails.
fn with_term(
    alloc: Global,
    names: &SymbolTable,
    classes: &[CharacterClass],
    class: CharacterClass,
    operator: Additive,
    argument: &Argument,
) -> Result<CharacterClass, AllocError>
    ensures { IfOk result (λ made. members made ≡ class_after operator (spec.term_class (view_names names.now) (map members classes.now) (view_argument argument.now)) (members class)) }
{
    match argument {
        Argument::Literal(literal) => class.with(alloc, operator, literal.value.as_slice()),
        Argument::Name(name) => match classes.get(names.groupings.number_of(name.as_str())) {
            None => Ok(class),
            Some(other) => class.with_class(alloc, operator, other),
        },
    }
}

// Returns the last index at which each grouping is named among these terms. Returns `AllocError` if an allocation
// fails.
fn last_places(
    alloc: Global,
    names: &SymbolTable,
    terms: &Vec<Term>,
) -> Result<BTreeMap<usize, usize>, AllocError> {
    let mut last = BTreeMap::new(alloc);
    for (place, term) in terms.iter().enumerate() {
        if let Argument::Name(name) = &term.argument {
            last.insert(names.groupings.number_of(name.as_str()), place)?;
        }
    }
    Ok(last)
}

// Returns the last index of the grouping that a term names; 0 if there is none.
fn last_place(names: &SymbolTable, last: &BTreeMap<usize, usize>, argument: &Argument) -> usize {
    match argument {
        Argument::Literal(_) => 0,
        Argument::Name(name) => last
            .get(&names.groupings.number_of(name.as_str()))
            .copied()
            .unwrap_or(0),
    }
}

// Returns whether a term names the grouping with this number.
fn is_name_of(names: &SymbolTable, argument: &Argument, number: usize) -> bool
    ensures { result ≡ is_name_of (view_names names.now) (view_argument argument.now) number }
{
    match argument {
        Argument::Literal(_) => false,
        Argument::Name(name) => names.groupings.number_of(name.as_str()) == number,
    }
}

// Returns whether the term `following[distance]` names the grouping that `argument` names. `following` has the terms after
// `argument`.
fn is_named_again(
    names: &SymbolTable,
    argument: &Argument,
    following: &[Term],
    distance: usize,
) -> bool
    ensures { result ≡ true → is_named_again (view_names names.now) (view_argument argument.now) (map view_term following.now) ≡ true }
{
    match (argument, following.get(distance)) {
        (Argument::Name(name), Some(term)) => {
            is_name_of(
                names,
                &term.argument,
                names.groupings.number_of(name.as_str()),
            )
        }
        _ => false,
    }
}

// Returns the class of a grouping. If several terms after the first name one grouping, only the last of them counts:
// all of them add or remove the same characters. So the others are skipped.
fn class_of(
    alloc: Global,
    names: &SymbolTable,
    classes: &[CharacterClass],
    first: &Argument,
    others: &Vec<Term>,
) -> Result<CharacterClass, AllocError>
    ensures { IfOk result (λ c. members c ≡ spec.with_terms (view_names names.now) (map members classes.now) (term Plus (view_argument first.now) ∷ map view_term others.now.items) no_character) }
{
    let last = last_places(alloc, names, others)?;
    let none = CharacterClass::new(alloc);
    let mut class = with_term(alloc, names, classes, none, Additive::Plus, first)?;
    for (place, term) in others.iter().enumerate() {
        let following = &others[place + 1..];
        let distance = last_place(names, &last, &term.argument).saturating_sub(place + 1);
        if !is_named_again(names, &term.argument, following, distance) {
            class = with_term(alloc, names, classes, class, term.operator, &term.argument)?;
        }
    }
    Ok(class)
}

impl Compiler<'_> {
    fn add_class(&self, plain: &Plain, classes: &mut Vec<CharacterClass>) -> CompileResult<()>
        ensures { OnOk result (map members classes.new.items ≡ spec.with_class (names_in self.now) (view_plain plain.now) (map members classes.old.items)) }
    {
        if let Plain::Grouping(grouping) = plain {
            let class = class_of(
                self.alloc,
                self.names,
                classes,
                &grouping.first,
                &grouping.others,
            )?;
            classes.push(class)?;
        }
        Ok(())
    }

    /// Returns the class of each grouping, in the order of their definitions. Returns `AllocError` if an allocation
    /// fails.
    pub fn numbered_classes(&self, items: &[ItemInMode]) -> CompileResult<Vec<CharacterClass>>
        ensures { IfOk result (λ classes. map members classes.items ≡ spec.numbered_classes (names_in self.now) (map view_in_mode items.now) []) }
    {
        let mut classes = Vec::new(self.alloc);
        for item in items {
            self.add_class(item.plain, &mut classes)?;
        }
        Ok(classes)
    }
}

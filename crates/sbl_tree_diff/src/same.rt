//! Whether two parts of trees are the same.

ghost use Rattle.std.specs.Prelude.{◌≡◌, ◌&&◌, map, string_bytes};
ghost use Rattle.std.specs.Bool.{beq};
ghost use Rattle.std.specs.Cmp.Lexicographic.{pointwise};
ghost use Rattle.std.specs.Option.{option_eq};
ghost use Rattle.std.specs.Str.{bytes_eq};
ghost use denote.Enum.Bare.{sameb};
ghost use Rattle.sbl_ast.specs.contracts.tree.Base as base;
ghost use Rattle.sbl_ast.specs.View.{view_argument, view_entry, view_expression, view_literal, view_term};
ghost use Rattle.sbl_ast.specs.inside.ViewParts.{view_factor, view_group, view_name, view_product, view_scales, view_sums};
ghost use Rattle.sbl_semantics.specs.Same as spec;

use sbl_ast::{
    Argument, Base, Entry, Expression, Factor, Group, Literal, NextFactor, NextProduct, Product,
    Term,
};

/// The expression after `=>` if the other part has this form; otherwise returns `Ok(None)`.
macro_rules! alike {
    ($other:ident, $form:pat => $then:expr) => {{
        let $form = $other else {
            return Ok(None);
        };
        $then
    }};
}

/// Whether two lists have as many elements, and each element of one is the same as that of the other in its place.
macro_rules! all_same {
    ($one:ident, $other:ident; $first:ident, $second:ident => $same:expr) => {{
        let mut others = $other.as_slice();
        for $first in $one {
            let [$second, rest @ ..] = others else {
                return false;
            };
            if !$same {
                return false;
            }
            others = rest;
        }
        match others {
            [] => true,
            [_second, _rest @ ..] => false,
        }
    }};
}

pub(crate) use alike;

/// Whether two flags are the same.
pub(crate) fn same_flag(one: bool, other: bool) -> bool
    ensures { result ≡ beq one other }
{
    match (one, other) {
        (true, true) | (false, false) => true,
        (true, false) | (false, true) => false,
    }
}

/// Whether two literals have the same spelling and the same value.
pub(crate) fn same_literal(one: &Literal, other: &Literal) -> bool
    ensures { result ≡ spec.same_quoted (view_literal one.now) (view_literal other.now) }
{
    one.spelling.as_str() == other.spelling.as_str()
        && one.value.as_slice() == other.value.as_slice()
}

/// Whether two arguments are the same.
pub(crate) fn same_argument(one: &Argument, other: &Argument) -> bool
    ensures { result ≡ spec.same_argument (view_argument one.now) (view_argument other.now) }
{
    match (one, other) {
        (Argument::Literal(one), Argument::Literal(other)) => same_literal(one, other),
        (Argument::Name(one), Argument::Name(other)) => one.as_str() == other.as_str(),
        (Argument::Literal(_), Argument::Name(_)) | (Argument::Name(_), Argument::Literal(_)) => {
            false
        }
    }
}

/// Whether two arithmetic expressions are the same.
#[cycle(same_arithmetic)]
pub(crate) fn same_expression(one: &Expression, other: &Expression) -> bool
    ensures { result ≡ spec.same_expression (view_expression one.now) (view_expression other.now) }
{
    same_product(&one.first, &other.first) && same_sums(&one.others, &other.others)
}

#[cycle(same_arithmetic)]
fn same_product(one: &Product, other: &Product) -> bool
    ensures { result ≡ spec.same_product (view_product one.now) (view_product other.now) }
{
    same_factor(&one.first, &other.first) && same_scales(&one.others, &other.others)
}

#[cycle(same_arithmetic)]
fn same_sums(one: &Vec<NextProduct>, other: &Vec<NextProduct>) -> bool
    ensures { result ≡ spec.same_sums (view_sums one.now.items) (view_sums other.now.items) }
{
    all_same!(one, other; first, second => {
        first.operator == second.operator && same_product(&first.product, &second.product)
    })
}

#[cycle(same_arithmetic)]
fn same_scales(one: &Vec<NextFactor>, other: &Vec<NextFactor>) -> bool
    ensures { result ≡ spec.same_scales (view_scales one.now.items) (view_scales other.now.items) }
{
    all_same!(one, other; first, second => {
        first.operator == second.operator && same_factor(&first.factor, &second.factor)
    })
}

#[cycle(same_arithmetic)]
fn same_factor(one: &Factor, other: &Factor) -> bool
    ensures { result ≡ spec.same_factor (view_factor one.now) (view_factor other.now) }
{
    match (one, other) {
        (Factor::Minus(one), Factor::Minus(other)) => same_factor(one, other),
        (Factor::Bracket(one), Factor::Bracket(other)) => same_expression(one, other),
        (Factor::Number(one), Factor::Number(other)) => *one == *other,
        (Factor::Name(one), Factor::Name(other)) => one.as_str() == other.as_str(),
        (Factor::Constant(one), Factor::Constant(other)) => *one == *other,
        (Factor::LenOf(one), Factor::LenOf(other)) => same_argument(one, other),
        (
            Factor::Minus(_)
            | Factor::Bracket(_)
            | Factor::Number(_)
            | Factor::Name(_)
            | Factor::Constant(_)
            | Factor::LenOf(_),
            Factor::Minus(_)
            | Factor::Bracket(_)
            | Factor::Number(_)
            | Factor::Name(_)
            | Factor::Constant(_)
            | Factor::LenOf(_),
        ) => false,
    }
}

fn same_condition(one: &Option<String>, other: &Option<String>) -> bool
    ensures { result ≡ option_eq bytes_eq (view_name one.now) (view_name other.now) }
{
    match (one, other) {
        (None, None) => true,
        (Some(one), Some(other)) => one.as_str() == other.as_str(),
        (None, Some(_)) | (Some(_), None) => false,
    }
}

fn same_entry(one: &Entry, other: &Entry) -> bool
    ensures { result ≡ spec.same_entry (view_entry one.now) (view_entry other.now) }
{
    same_literal(&one.string, &other.string) && same_condition(&one.condition, &other.condition)
}

/// Whether two lists of strings of an among are the same.
pub(crate) fn same_entries(one: &Vec<Entry>, other: &Vec<Entry>) -> bool
    ensures { result ≡ pointwise spec.same_entry (map view_entry one.now.items) (map view_entry other.now.items) }
{
    all_same!(one, other; first, second => same_entry(first, second))
}

/// Whether two groups have the same strings.
pub(crate) fn same_strings(one: &Group, other: &Group) -> bool
    ensures { result ≡ (spec.same_entry (view_group one.now).first (view_group other.now).first && pointwise spec.same_entry (view_group one.now).others (view_group other.now).others) }
{
    same_entry(&one.first, &other.first) && same_entries(&one.others, &other.others)
}

/// Whether two lists of names are the same.
pub(crate) fn same_names(one: &Vec<String>, other: &Vec<String>) -> bool
    ensures { result ≡ pointwise bytes_eq (map string_bytes one.now.items) (map string_bytes other.now.items) }
{
    all_same!(one, other; first, second => { first.as_str() == second.as_str() })
}

/// Whether two bases are the same, or there is neither.
pub(crate) fn same_base(one: &Option<Base>, other: &Option<Base>) -> bool
    ensures { result ≡ option_eq (sameb base.the_type) one.now other.now }
{
    match (one, other) {
        (None, None) => true,
        (Some(one), Some(other)) => *one == *other,
        (None, Some(_)) | (Some(_), None) => false,
    }
}

/// Whether two lists of terms are the same.
pub(crate) fn same_terms(one: &Vec<Term>, other: &Vec<Term>) -> bool
    ensures { result ≡ pointwise spec.same_term (map view_term one.now.items) (map view_term other.now.items) }
{
    all_same!(one, other; first, second => {
        first.operator == second.operator && same_argument(&first.argument, &second.argument)
    })
}

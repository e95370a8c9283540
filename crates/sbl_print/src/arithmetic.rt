//! Prints arithmetic expressions.

ghost use Rattle.std.specs.Prelude.{OnOk, string_bytes};
ghost use Rattle.sbl_ast.specs.Spelled.{spelled_expression, spelled_factor, spelled_product, spelled_scales, spelled_sums};
ghost use Rattle.sbl_ast.specs.View.{view_expression};
ghost use Rattle.sbl_ast.specs.inside.ViewParts.{view_factor, view_product, view_scales, view_sums};
ghost use Rattle.sbl_print.specs.Adding.{Adds};

use crate::tokens::{put, put_argument, put_name, put_number, put_operations, put_sign, put_word};
use crate::words::{additive_text, constant_text, multiplicative_text};
use sbl_ast::{Expression, Factor, NextFactor, NextProduct, Product};
use sbl_token::{Sign, Word};
use std::alloc::{AllocError, Global};

/// Appends an expression. Returns `AllocError` if an allocation fails.
#[cycle(arithmetic)]
pub fn put_expression(
    alloc: Global,
    out: &mut String,
    expression: &Expression,
) -> Result<(), AllocError>
    ensures { OnOk result (Adds (string_bytes out.old) (string_bytes out.new) (spelled_expression (view_expression expression.now))) }
{
    put_product(alloc, out, &expression.first)?;
    put_sums(alloc, out, &expression.others)
}

#[cycle(arithmetic)]
fn put_product(alloc: Global, out: &mut String, product: &Product) -> Result<(), AllocError>
    ensures { OnOk result (Adds (string_bytes out.old) (string_bytes out.new) (spelled_product (view_product product.now))) }
{
    put_factor(alloc, out, &product.first)?;
    put_scales(alloc, out, &product.others)
}

#[cycle(arithmetic)]
fn put_sums(alloc: Global, out: &mut String, others: &Vec<NextProduct>) -> Result<(), AllocError>
    ensures { OnOk result (Adds (string_bytes out.old) (string_bytes out.new) (spelled_sums (view_sums others.now.items))) }
{
    put_operations!(alloc, out, others: additive_text(operator), put_product(product))
}

#[cycle(arithmetic)]
fn put_scales(alloc: Global, out: &mut String, others: &Vec<NextFactor>) -> Result<(), AllocError>
    ensures { OnOk result (Adds (string_bytes out.old) (string_bytes out.new) (spelled_scales (view_scales others.now.items))) }
{
    put_operations!(alloc, out, others: multiplicative_text(operator), put_factor(factor))
}

#[cycle(arithmetic)]
fn put_factor(alloc: Global, out: &mut String, factor: &Factor) -> Result<(), AllocError>
    ensures { OnOk result (Adds (string_bytes out.old) (string_bytes out.new) (spelled_factor (view_factor factor.now))) }
{
    match factor {
        Factor::Minus(inner) => {
            put_sign(out, Sign::Minus)?;
            put_factor(alloc, out, inner)
        }
        Factor::Bracket(inner) => {
            put_sign(out, Sign::Open)?;
            put_expression(alloc, out, inner)?;
            put_sign(out, Sign::Close)
        }
        Factor::Number(number) => put_number(alloc, out, *number),
        Factor::Name(name) => put_name(out, name),
        Factor::Constant(constant) => put(out, constant_text(*constant)),
        Factor::LenOf(argument) => {
            put_word(out, Word::LenOf)?;
            put_argument(out, argument)
        }
    }
}

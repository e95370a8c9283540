//! Copies of commands that contain no command.

ghost use Rattle.std.specs.Prelude.{◌≡◌, map, IfOk};
ghost use Rattle.sbl_program.specs.Program.{compare};
ghost use Rattle.sbl_program.specs.ProgramOf.{view_text, view_number, view_next_product, view_next_factor, view_action};

use sbl_program::{Action, Addend, Arithmetic, Multiplicand, Relation, StringTerm};
use std::alloc::{AllocError, Global};

// Copies each of some numbers with the sign before it. The names of the loop are the caller's, so that its proof has them.
macro_rules! copy_each {
    ($alloc:ident, $others:ident, $kind:ident, $copies:ident, $other:ident, $number:ident) => {{
        let mut $copies = Vec::new($alloc);
        for $other in $others {
            let $number = copy_number($alloc, &$other.number)?;
            $copies.push($kind {
                operator: $other.operator,
                number: $number,
            })?;
        }
        Ok($copies)
    }};
}

/// Returns a copy of a string.
pub fn copy_term(alloc: Global, term: &StringTerm) -> Result<StringTerm, AllocError>
    ensures { IfOk result (λ copy. view_text copy ≡ view_text term.now) }
{
    match term {
        StringTerm::Literal(string) => Ok(StringTerm::Literal(string.as_slice().to_vec(alloc)?)),
        StringTerm::Variable(number) => Ok(StringTerm::Variable(*number)),
    }
}

/// Returns a copy of a number.
#[cycle(copy)]
pub fn copy_number(alloc: Global, number: &Arithmetic) -> Result<Arithmetic, AllocError>
    ensures { IfOk result (λ copy. view_number copy ≡ view_number number.now) }
{
    match number {
        Arithmetic::Number(it) => Ok(Arithmetic::Number(*it)),
        Arithmetic::Integer(it) => Ok(Arithmetic::Integer(*it)),
        Arithmetic::Cursor => Ok(Arithmetic::Cursor),
        Arithmetic::Limit => Ok(Arithmetic::Limit),
        Arithmetic::Length => Ok(Arithmetic::Length),
        Arithmetic::LengthOf(term) => Ok(Arithmetic::LengthOf(copy_term(alloc, term)?)),
        Arithmetic::Greatest => Ok(Arithmetic::Greatest),
        Arithmetic::Least => Ok(Arithmetic::Least),
        Arithmetic::Negative(inner) => Ok(Arithmetic::Negative(copy_box(alloc, inner)?)),
        Arithmetic::Sum { first, others } => {
            let rest = copy_addends(alloc, others)?;
            Ok(Arithmetic::Sum {
                first: copy_box(alloc, first)?,
                others: rest,
            })
        }
        Arithmetic::Product { first, others } => {
            let rest = copy_factors(others, alloc)?;
            Ok(Arithmetic::Product {
                others: rest,
                first: copy_box(alloc, first)?,
            })
        }
    }
}

// Copies a number into a box.
#[cycle(copy)]
fn copy_box(alloc: Global, number: &Arithmetic) -> Result<Box<Arithmetic>, AllocError>
    ensures { IfOk result (λ copy. view_number copy.value ≡ view_number number.now) }
{
    let copy = copy_number(alloc, number)?;
    Ok(Box::new(alloc, copy)?)
}

// Copies the terms after the first one of a sum.
#[cycle(copy)]
fn copy_addends(alloc: Global, others: &[Addend]) -> Result<Vec<Addend>, AllocError>
    ensures { IfOk result (λ copies. map view_next_product copies.items ≡ map view_next_product others.now) }
{
    copy_each!(alloc, others, Addend, copies, other, number)
}

// Copies the factors after the first one of a product.
#[cycle(copy)]
fn copy_factors(others: &[Multiplicand], alloc: Global) -> Result<Vec<Multiplicand>, AllocError>
    ensures { IfOk result (λ copies. map view_next_factor copies.items ≡ map view_next_factor others.now) }
{
    copy_each!(alloc, others, Multiplicand, copies, other, number)
}

/// Returns a copy of an action.
pub fn copy_action(alloc: Global, action: &Action) -> Result<Action, AllocError>
    ensures { IfOk result (λ copy. view_action copy ≡ view_action action.now) }
{
    match action {
        Action::Match(term) => Ok(Action::Match(copy_term(alloc, term)?)),
        Action::Grouping(number) => Ok(Action::Grouping(*number)),
        Action::NonGrouping(number) => Ok(Action::NonGrouping(*number)),
        Action::Next => Ok(Action::Next),
        Action::Hop(number) => Ok(Action::Hop(copy_number(alloc, number)?)),
        Action::ToLimit => Ok(Action::ToLimit),
        Action::AtLimit => Ok(Action::AtLimit),
        Action::SetMark(number) => Ok(Action::SetMark(*number)),
        Action::AtMark(number) => Ok(Action::AtMark(copy_number(alloc, number)?)),
        Action::ToMark(number) => Ok(Action::ToMark(copy_number(alloc, number)?)),
        Action::Set(number) => Ok(Action::Set(*number)),
        Action::Unset(number) => Ok(Action::Unset(*number)),
        Action::Boolean(number) => Ok(Action::Boolean(*number)),
        Action::LeftBracket => Ok(Action::LeftBracket),
        Action::RightBracket => Ok(Action::RightBracket),
        Action::Replace(term) => Ok(Action::Replace(copy_term(alloc, term)?)),
        Action::Delete => Ok(Action::Delete),
        Action::Keep(number) => Ok(Action::Keep(*number)),
        Action::Insert(term) => Ok(Action::Insert(copy_term(alloc, term)?)),
        Action::Attach(term) => Ok(Action::Attach(copy_term(alloc, term)?)),
        Action::Assign(number, change, value) => {
            Ok(Action::Assign(*number, *change, copy_number(alloc, value)?))
        }
        Action::Compare(left, relation, right) => copy_compare(alloc, left, *relation, right),
        Action::True => Ok(Action::True),
        Action::False => Ok(Action::False),
    }
}

// Copies the comparison of two numbers.
fn copy_compare(
    alloc: Global,
    left: &Arithmetic,
    relation: Relation,
    right: &Arithmetic,
) -> Result<Action, AllocError>
    ensures { IfOk result (λ copy. view_action copy ≡ compare (view_number left.now) relation (view_number right.now)) }
{
    let x = copy_number(alloc, left)?;
    match copy_number(alloc, right) {
        Ok(y) => Ok(Action::Compare(x, relation, y)),
        Err(error) => {
            drop(x);
            Err(error)
        }
    }
}

//! Arithmetic, and the integer variables.

ghost use Rattle.std.specs.Prelude.{◌≡◌, ◌<◌, ℤ, pos, length, map, Ok, SomeIff, FitsSigned, IfOk};
ghost use Rattle.std.specs.Int.{w32};
ghost use Rattle.sbl_program.specs.Arithmetic.{value, changed_value, holds, assign, compare};
ghost use Rattle.sbl_semantics.specs.Numbers.{with_both, value_in_range, rounded_quotient, limit_value, integer_at, natural};
ghost use Rattle.sbl_program.specs.ProgramOf.{view_next_product, view_number, view_next_factor};
ghost use Rattle.sbl_program.specs.Rows.{product_of, scales_to, sum_of, sums_to};
ghost use Rattle.sbl_semantics.specs.Control.{count_of};
ghost use Rattle.sbl_run_state.specs.Endings.{Leads, Follows};

use crate::halt::Halt;
use crate::state::State;
use crate::state::variables::{integer_of, set_integer};
use sbl_ast::{Additive, Mode, Multiplicative};
use sbl_program::{Addend, Arithmetic, Change, Multiplicand, Relation};
use sbl_semantics::RunFault;

/// The total after each of the others in turn, from a start on. `$next` is the total after one more.
macro_rules! in_turn {
    ($total:ident, $start:ident; $other:ident, $others:ident => $next:expr) => {{
        let mut $total = $start;
        for $other in $others {
            $total = $next?;
        }
        Ok($total)
    }};
}

impl State {
    /// Returns the value of an expression. Returns `Integer` if a number is out of range, and `Divide` if a divisor is
    /// zero.
    #[cycle(value)]
    pub fn value(&self, mode: Mode, expression: &Arithmetic) -> Result<i32, RunFault>
        ensures { result ≡ value (view_number expression.now) mode self.now }
    {
        match expression {
            Arithmetic::Number(number) => count_as_number(*number as usize),
            Arithmetic::Integer(number) => Ok(self.integer(*number)),
            Arithmetic::Cursor => count_as_number(self.cursor),
            Arithmetic::Limit => self.limit_value(mode),
            Arithmetic::Length => count_as_number(self.text.len()),
            Arithmetic::LengthOf(term) => count_as_number(self.characters(term).len()),
            Arithmetic::Greatest => Ok(i32::MAX),
            Arithmetic::Least => Ok(i32::MIN),
            Arithmetic::Negative(inner) => {
                let x = self.value(mode, inner)?;
                value_in_range(x.checked_neg())
            }
            Arithmetic::Sum { first, others } => {
                let start = self.value(mode, first)?;
                self.sum(mode, start, others)
            }
            Arithmetic::Product { first, others } => {
                let start = self.value(mode, first)?;
                self.product(mode, start, others)
            }
        }
    }

    // Returns the value of an expression as `value` does. A number, a variable and the cursor need no call.
    #[inline(always)]
    pub fn value_here(&self, mode: Mode, expression: &Arithmetic) -> Result<i32, RunFault>
        ensures { result ≡ value (view_number expression.now) mode self.now }
    {
        match expression {
            Arithmetic::Cursor => count_as_number(self.cursor),
            Arithmetic::Number(number) => count_as_number(*number as usize),
            Arithmetic::Integer(number) => Ok(self.integer(*number)),
            _ => self.value(mode, expression),
        }
    }

    // Adds and subtracts the other terms of a sum.
    #[cycle(value)]
    fn sum(&self, mode: Mode, start: i32, others: &[Addend]) -> Result<i32, RunFault>
        ensures { result ≡ sums_to (map view_next_product others.now) (Ok start) mode self.now }
    {
        in_turn!(total, start; other, others => self.sum_with(mode, total, other))
    }

    // Multiplies and divides by the other factors of a product.
    #[cycle(value)]
    fn product(&self, mode: Mode, start: i32, others: &[Multiplicand]) -> Result<i32, RunFault>
        ensures { result ≡ scales_to (map view_next_factor others.now) (Ok start) mode self.now }
    {
        in_turn!(total, start; other, others => self.product_with(mode, total, other))
    }

    // Adds or subtracts one term.
    #[cycle(value)]
    fn sum_with(&self, mode: Mode, total: i32, other: &Addend) -> Result<i32, RunFault>
        ensures { result ≡ with_both (Ok total) (value (view_next_product other.now).1 mode self.now) (sum_of (view_next_product other.now).0) }
    {
        let number = self.value(mode, &other.number)?;
        sum_of(other.operator, total, number)
    }

    // Multiplies or divides by one factor.
    #[cycle(value)]
    fn product_with(&self, mode: Mode, total: i32, other: &Multiplicand) -> Result<i32, RunFault>
        ensures { result ≡ with_both (Ok total) (value (view_next_factor other.now).1 mode self.now) (product_of (view_next_factor other.now).0) }
    {
        let number = self.value(mode, &other.number)?;
        product_of(other.operator, total, number)
    }

    // Returns the value of an integer variable.
    fn integer(&self, number: usize) -> i32
        ensures { result ≡ integer_at number self.now }
    {
        integer_of(&self.integers, number)
    }

    // Returns the limit of the direction as a number.
    fn limit_value(&self, mode: Mode) -> Result<i32, RunFault>
        ensures { result ≡ limit_value mode self.now }
    {
        match mode {
            Mode::Forward => {
                let length = self.text.len() as i32;
                let beyond = self.beyond as i32;
                Ok(length - beyond)
            }
            Mode::Backward => count_as_number(self.left),
        }
    }

    /// `$x = AE` and similar commands. Returns a fault if the expression has one or the new number is out of range, and
    /// `OutOfMemory` if an allocation fails.
    #[inline(never)]
    pub fn assign(
        &mut self,
        mode: Mode,
        number: usize,
        change: Change,
        expression: &Arithmetic,
    ) -> Result<(), Halt>
        ensures leads { Leads result self.new (assign number change (view_number expression.now) mode self.old) }
        ensures same_steps { IfOk result (λ _. self.new.steps ≡ self.old.steps) }
    {
        let y = self.value_here(mode, expression)?;
        let new = changed_value(change, self.integer(number), y)?;
        set_integer(&mut self.integers, number, new)?;
        Ok(())
    }

    /// Compares two expressions. Returns a fault if one of them has one.
    #[inline(never)]
    pub fn compare(
        &self,
        mode: Mode,
        left: &Arithmetic,
        relation: Relation,
        right: &Arithmetic,
    ) -> Result<bool, Halt>
        ensures { Follows result self.now (compare (view_number left.now) relation (view_number right.now) mode self.now) }
    {
        let x = self.value_here(mode, left)?;
        let y = self.value_here(mode, right)?;
        Ok(holds(relation, x, y))
    }
}

// Returns the number, or `Integer` if it is out of range.
fn value_in_range(number: Option<i32>) -> Result<i32, RunFault>
    ensures { (z : ℤ) → SomeIff number (FitsSigned w32 z) z → result ≡ value_in_range z }
{
    match number {
        None => Err(RunFault::Integer),
        Some(number) => Ok(number),
    }
}

// Returns a count of characters as a number, or `Integer` if it is out of range.
fn count_as_number(n: usize) -> Result<i32, RunFault>
    ensures { result ≡ value_in_range (pos n) }
{
    if n < 0x8000_0000 {
        Ok(n as i32)
    } else {
        Err(RunFault::Integer)
    }
}

// Returns a sum or a difference.
fn sum_of(operator: Additive, x: i32, y: i32) -> Result<i32, RunFault>
    ensures { result ≡ sum_of operator x y }
{
    match operator {
        Additive::Plus => value_in_range(x.checked_add(y)),
        Additive::Minus => value_in_range(x.checked_sub(y)),
    }
}

// Returns a product or a quotient.
fn product_of(operator: Multiplicative, x: i32, y: i32) -> Result<i32, RunFault>
    ensures { result ≡ product_of operator x y }
{
    match operator {
        Multiplicative::Times => value_in_range(x.checked_mul(y)),
        Multiplicative::Over => rounded_quotient(x, y),
    }
}

// Returns a quotient, rounded towards zero.
fn rounded_quotient(x: i32, y: i32) -> Result<i32, RunFault>
    ensures { result ≡ rounded_quotient x y }
{
    if y == 0 {
        return Err(RunFault::Divide);
    }
    value_in_range(x.checked_div(y))
}

// Returns the new value of an integer variable.
fn changed_value(change: Change, x: i32, y: i32) -> Result<i32, RunFault>
    ensures { result ≡ changed_value change x y }
{
    match change {
        Change::Becomes => Ok(y),
        Change::Plus => value_in_range(x.checked_add(y)),
        Change::Minus => value_in_range(x.checked_sub(y)),
        Change::Times => value_in_range(x.checked_mul(y)),
        Change::Over => rounded_quotient(x, y),
    }
}

// Returns whether the relation holds for two numbers.
fn holds(relation: Relation, x: i32, y: i32) -> bool
    ensures { result ≡ holds relation x y }
{
    match relation {
        Relation::Equal => x == y,
        Relation::Unequal => x != y,
        Relation::Less => x < y,
        Relation::LessOrEqual => x <= y,
        Relation::Greater => x > y,
        Relation::GreaterOrEqual => x >= y,
    }
}

/// Returns the number if it is not negative.
pub fn natural(number: i32) -> Option<usize>
    ensures { result ≡ natural number }
{
    if number < 0 {
        None
    } else {
        Some(number as usize)
    }
}

/// Returns a number of turns: zero if the number is negative.
pub fn count_of(number: i32) -> u32
    ensures { result ≡ count_of number }
{
    if number < 0 { 0 } else { number as u32 }
}

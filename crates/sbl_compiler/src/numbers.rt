//! Compiles strings and arithmetic expressions, with numbers for names.

ghost use Rattle.std.specs.Prelude.{◌≡◌, map, IfOk};
ghost use Rattle.sbl_ast.specs.View.{view_argument, view_expression};
ghost use Rattle.sbl_ast.specs.inside.ViewParts.{view_product, view_factor, view_scales, view_sums};
ghost use Rattle.sbl_compiler.specs.NumberedNumbers as spec;
ghost use Rattle.sbl_compiler.specs.NumberedView.{names_in};
ghost use Rattle.sbl_program.specs.Chains.{all_sums, all_products};
ghost use Rattle.sbl_program.specs.ProgramOf.{view_next_product, view_number, view_next_factor, view_text};

use crate::compiler::{CompileResult, Compiler, collect, whole};
use sbl_ast::{
    Additive, Argument, Constant, Expression, Factor, Multiplicative, NextFactor, NextProduct,
    Product,
};
use sbl_program::{Addend, Arithmetic, Multiplicand, StringTerm};

fn constant(constant: Constant) -> Arithmetic
    ensures { view_number result ≡ spec.constant constant }
{
    match constant {
        Constant::MaxInt => Arithmetic::Greatest,
        Constant::MinInt => Arithmetic::Least,
        Constant::Cursor => Arithmetic::Cursor,
        Constant::Limit => Arithmetic::Limit,
        Constant::Len => Arithmetic::Length,
    }
}

// Returns a term of a sum that comes after the first.
fn added_number(operator: Additive, number: Arithmetic) -> Addend
    ensures { view_next_product result ≡ (operator, view_number number) }
{
    Addend { operator, number }
}

// Returns a factor of a product that comes after the first.
fn scaled_number(operator: Multiplicative, number: Arithmetic) -> Multiplicand
    ensures { view_next_factor result ≡ (operator, view_number number) }
{
    Multiplicand { operator, number }
}

impl Compiler<'_> {
    /// Compiles a string. Returns `AllocError` if an allocation fails.
    pub fn text(&self, argument: &Argument) -> CompileResult<StringTerm>
        ensures { IfOk result (λ t. view_text t ≡ spec.text (names_in self.now) (view_argument argument.now)) }
    {
        match argument {
            Argument::Literal(literal) => Ok(StringTerm::Literal(literal.value.clone()?)),
            Argument::Name(name) => {
                Ok(StringTerm::Variable(self.names.strings.number_of(name.as_str())))
            }
        }
    }

    // Makes a sum of the first term and those after it. Returns `AllocError` if an allocation fails.
    fn whole_sum(&self, first: Arithmetic, others: Vec<Addend>) -> CompileResult<Arithmetic>
        ensures { IfOk result (λ x. view_number x ≡ all_sums (map view_next_product others.items) (view_number first)) }
    {
        whole!(self.alloc; Arithmetic::Sum, first, others)
    }

    // Makes a product of the first factor and those after it. Returns `AllocError` if an allocation fails.
    fn whole_product(
        &self,
        first: Arithmetic,
        others: Vec<Multiplicand>,
    ) -> CompileResult<Arithmetic>
        ensures { IfOk result (λ x. view_number x ≡ all_products (map view_next_factor others.items) (view_number first)) }
    {
        whole!(self.alloc; Arithmetic::Product, first, others)
    }

    /// Compiles an expression. Returns `AllocError` if an allocation fails.
    #[cycle(arithmetic)]
    pub fn number_of_expression(&self, expression: &Expression) -> CompileResult<Arithmetic>
        ensures { IfOk result (λ x. view_number x ≡ spec.expression (names_in self.now) (view_expression expression.now)) }
    {
        let first = self.number_of_product(&expression.first)?;
        self.whole_sum(first, self.sums_of(&expression.others)?)
    }

    #[cycle(arithmetic)]
    fn number_of_product(&self, product: &Product) -> CompileResult<Arithmetic>
        ensures { IfOk result (λ x. view_number x ≡ spec.product (names_in self.now) (view_product product.now)) }
    {
        let first = self.number_of_factor(&product.first)?;
        self.whole_product(first, self.scales_of(&product.others)?)
    }

    #[cycle(arithmetic)]
    fn sums_of(&self, others: &Vec<NextProduct>) -> CompileResult<Vec<Addend>>
        ensures { IfOk result (λ v. map view_next_product v.items ≡ spec.sums_in (names_in self.now) (view_sums others.now.items)) }
    {
        collect!(self.alloc; sums: other in others => number: self.number_of_product(&other.product) => {
            added_number(other.operator, number)
        })
    }

    #[cycle(arithmetic)]
    fn scales_of(&self, others: &Vec<NextFactor>) -> CompileResult<Vec<Multiplicand>>
        ensures { IfOk result (λ v. map view_next_factor v.items ≡ spec.scales_in (names_in self.now) (view_scales others.now.items)) }
    {
        collect!(self.alloc; scales: other in others => number: self.number_of_factor(&other.factor) => {
            scaled_number(other.operator, number)
        })
    }

    #[cycle(arithmetic)]
    fn number_of_factor(&self, factor: &Factor) -> CompileResult<Arithmetic>
        ensures { IfOk result (λ x. view_number x ≡ spec.factor (names_in self.now) (view_factor factor.now)) }
    {
        match factor {
            Factor::Minus(inner) => {
                let inner = self.number_of_factor(inner)?;
                Ok(Arithmetic::Negative(Box::new(self.alloc, inner)?))
            }
            Factor::Bracket(inner) => self.number_of_expression(inner),
            Factor::Number(number) => Ok(Arithmetic::Number(*number)),
            Factor::Name(name) => {
                Ok(Arithmetic::Integer(self.names.integers.number_of(name.as_str())))
            }
            Factor::Constant(word) => Ok(constant(*word)),
            Factor::LenOf(argument) => Ok(Arithmetic::LengthOf(self.text(argument)?)),
        }
    }
}

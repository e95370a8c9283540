//! Appends tokens to a line that already has one.

ghost use Rattle.std.specs.Prelude.{◌≡◌, ◌∷◌, OnOk, string_bytes};
ghost use Rattle.sbl_ast.specs.Terminal as t;
ghost use Rattle.sbl_ast.specs.Terminal.{Terminal, lexeme_as};
ghost use Rattle.sbl_token.specs.Lexemes as lexemes;
ghost use Rattle.sbl_ast.specs.Spelled.{argument_terminal};
ghost use Rattle.sbl_ast.specs.View.{view_argument, view_literal};
ghost use Rattle.sbl_print.specs.Adding.{Adds, token_text};

use sbl_ast::{Argument, Literal};
use sbl_token::{Sign, Word};
use std::alloc::{AllocError, Global};

/// Appends the elements of a vector, each an operator and its operand.
macro_rules! put_operations {
    ($alloc:ident, $out:ident, $others:ident: $text:ident($operator:ident), $put:ident($operand:ident)) => {{
        for other in $others {
            put($out, $text(other.$operator))?;
            $put($alloc, $out, &other.$operand)?;
        }
        Ok(())
    }};
}

pub(crate) use put_operations;

/// Appends a token with this text. Returns `AllocError` if an allocation fails.
pub fn put(out: &mut String, text: &str) -> Result<(), AllocError>
    ensures { OnOk result ((x : Terminal) → token_text x ≡ text.now → Adds (string_bytes out.old) (string_bytes out.new) (λ rest. x ∷ rest)) }
{
    out.push_str(" ")?;
    out.push_str(text)
}

/// Appends a reserved word. Returns `AllocError` if an allocation fails.
pub fn put_word(out: &mut String, word: Word) -> Result<(), AllocError>
    ensures { OnOk result ((x : Terminal) → lexeme_as x ≡ lexemes.word word → Adds (string_bytes out.old) (string_bytes out.new) (λ rest. x ∷ rest)) }
{
    put(out, word.text())
}

/// Appends a sign. Returns `AllocError` if an allocation fails.
pub fn put_sign(out: &mut String, sign: Sign) -> Result<(), AllocError>
    ensures { OnOk result ((x : Terminal) → lexeme_as x ≡ lexemes.sign sign → Adds (string_bytes out.old) (string_bytes out.new) (λ rest. x ∷ rest)) }
{
    put(out, sign.text())
}

/// Appends a name. Returns `AllocError` if an allocation fails.
pub fn put_name(out: &mut String, name: &String) -> Result<(), AllocError>
    ensures { OnOk result (Adds (string_bytes out.old) (string_bytes out.new) (λ rest. t.name (string_bytes name.now) ∷ rest)) }
{
    put(out, name.as_str())
}

/// Appends the name of a macro. Returns `AllocError` if an allocation fails.
pub fn put_macro_name(out: &mut String, name: &String) -> Result<(), AllocError>
    ensures { OnOk result (Adds (string_bytes out.old) (string_bytes out.new) (λ rest. t.macro_name (string_bytes name.now) ∷ rest)) }
{
    put(out, name.as_str())
}

/// Appends two insert characters. Returns `AllocError` if an allocation fails.
pub fn put_inserts(out: &mut String, a: char, b: char) -> Result<(), AllocError>
    ensures { OnOk result (Adds (string_bytes out.old) (string_bytes out.new) (λ rest. t.inserts a b ∷ rest)) }
{
    out.push_str(" ")?;
    out.push(a)?;
    out.push(b)
}

/// Appends a number as its value in decimal. Returns `AllocError` if an allocation fails.
pub fn put_number(alloc: Global, out: &mut String, number: u32) -> Result<(), AllocError>
    ensures { OnOk result (Adds (string_bytes out.old) (string_bytes out.new) (λ rest. t.number number ∷ rest)) }
{
    let text = number.to_string(alloc)?;
    put(out, text.as_str())
}

/// Appends a literal as its spelling in quotes. Returns `AllocError` if an allocation fails.
pub fn put_literal(out: &mut String, literal: &Literal) -> Result<(), AllocError>
    ensures { OnOk result (Adds (string_bytes out.old) (string_bytes out.new) (λ rest. t.literal (view_literal literal.now) ∷ rest)) }
{
    out.push_str(" '")?;
    out.push_str(literal.spelling.as_str())?;
    out.push_str("'")
}

/// Appends a literal or a name. Returns `AllocError` if an allocation fails.
pub fn put_argument(out: &mut String, argument: &Argument) -> Result<(), AllocError>
    ensures { OnOk result (Adds (string_bytes out.old) (string_bytes out.new) (λ rest. argument_terminal (view_argument argument.now) ∷ rest)) }
{
    match argument {
        Argument::Literal(literal) => put_literal(out, literal),
        Argument::Name(name) => put_name(out, name),
    }
}

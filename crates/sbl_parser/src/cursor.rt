//! The tokens that are still to be read.

ghost use Rattle.std.specs.Prelude.{◌≡◌, ◌<◌, ◌≤◌, ◌∷◌, [], true, false, length, drop, IfOk, IfErr, OnOk, string_bytes};
ghost use Rattle.sbl_ast.specs.Places.{max_depth};
ghost use Rattle.sbl_ast.specs.Terminal as t;
ghost use Rattle.sbl_ast.specs.Terminal.{terminals_of};
ghost use Rattle.sbl_ast.specs.View.{view_literal};
ghost use Rattle.sbl_parser.specs.Roles.{role_of};
ghost use Rattle.sbl_parser.specs.Gives.{ahead, Fails, delimiter_role, delimiter_symbol, delimiter_token, Reads};
ghost use Rattle.sbl_parser.specs.Steps.{fault};

use crate::error::ReadError;
use crate::first_tokens::{first_inserts, first_literal, first_number, first_role, first_text};
use crate::role::Role;
use sbl_ast::Literal;
use sbl_text::Token;
use std::alloc::{AllocError, Global};

/// The tokens that are still to be read.
#[derive(Drop)]
pub struct Cursor<'a, 't> {
    tokens: &'t [Token<'a>],
    /// The allocator of what is read.
    pub alloc: Global,
}

/// A word or sign between parts of a tree.
#[derive(Clone, Copy)]
pub enum Delimiter {
    /// `(`
    Open,
    /// `)`
    Close,
    /// `for`
    For,
}

impl Delimiter {
    fn has(self, role: Role) -> bool
        ensures yes { result ≡ true → role ≡ delimiter_role self }
        ensures no { result ≡ false → role ≡ delimiter_role self → ⊥ }
    {
        match self {
            Delimiter::Open => matches!(role, Role::Open),
            Delimiter::Close => matches!(role, Role::Close),
            Delimiter::For => matches!(role, Role::For),
        }
    }
}

impl<'a, 't> Cursor<'a, 't> {
    /// Returns a cursor before all these tokens.
    pub fn new(alloc: Global, tokens: &'t [Token<'a>]) -> Cursor<'a, 't>
        ensures { ahead result ≡ terminals_of tokens.now }
    {
        Cursor { tokens, alloc }
    }

    /// Returns how many tokens there are still to read.
    pub fn count_ahead(&self) -> usize
        ensures { result ≡ length (ahead self.now) }
    {
        self.tokens.len()
    }

    /// Returns the role of the next token, or `End` if there is none.
    pub(crate) fn role(&self) -> Role
        ensures { result ≡ role_of (ahead self.now) }
    {
        first_role(self.tokens)
    }

    /// Returns an error if there is a next token.
    #[tactic(auto, using(crate::proofs::Descent::ends))]
    pub fn end(&self) -> Result<(), ReadError>
        ensures done { OnOk result (ahead self.now ≡ []) }
        ensures more { IfErr result (λ e. Fails e (fault (ahead self.now) [])) }
    {
        let left = self.count_ahead();
        if left > 0 {
            return Err(ReadError::Syntax(left));
        }
        Ok(())
    }

    /// Passes over the next token.
    pub fn skip(&mut self)
        requires { 0 < length (ahead self.old) }
        ensures { ahead self.new ≡ drop 1 (ahead self.old) }
    {
        self.tokens = &self.tokens[1..];
    }

    /// Reads this token.
    pub fn take(&mut self, token: Delimiter, depth: u8) -> Result<(), ReadError>
        requires { depth ≤ max_depth }
        ensures { Reads (delimiter_symbol token depth ∷ []) (λ _ rest. delimiter_token token ∷ rest) (ahead self.old) result (ahead self.new) }
    {
        if !token.has(self.role()) {
            return Err(ReadError::Syntax(self.count_ahead()));
        }
        self.skip();
        Ok(())
    }

    /// Reads a name.
    pub fn take_name(&mut self) -> Result<String, AllocError>
        requires { role_of (ahead self.old) ≡ Role.Name }
        ensures { IfOk result (λ name. ahead self.old ≡ t.name (string_bytes name) ∷ ahead self.new) }
    {
        let name = first_text(self.alloc, self.tokens)?;
        self.skip();
        Ok(name)
    }

    /// Reads the name of a macro.
    pub fn take_macro_name(&mut self) -> Result<String, ReadError>
        requires { role_of (ahead self.old) ≡ Role.MacroName }
        ensures read { IfOk result (λ name. ahead self.old ≡ t.macro_name (string_bytes name) ∷ ahead self.new) }
        ensures memory { IfErr result (λ e. e ≡ ReadError.Memory) }
    {
        let name = first_text(self.alloc, self.tokens)?;
        self.skip();
        Ok(name)
    }

    /// Reads a literal.
    pub fn take_literal(&mut self) -> Result<Literal, AllocError>
        requires { role_of (ahead self.old) ≡ Role.Literal }
        ensures { IfOk result (λ literal. ahead self.old ≡ t.literal (view_literal literal) ∷ ahead self.new) }
    {
        let literal = first_literal(self.alloc, self.tokens);
        self.skip();
        literal
    }

    /// Reads a number.
    pub fn take_number(&mut self) -> u32
        requires { role_of (ahead self.old) ≡ Role.Number }
        ensures { ahead self.old ≡ t.number result ∷ ahead self.new }
    {
        let number = first_number(self.tokens);
        self.skip();
        number
    }

    /// Reads insert characters.
    pub fn take_inserts(&mut self) -> (char, char)
        requires { role_of (ahead self.old) ≡ Role.Inserts }
        ensures { ahead self.old ≡ t.inserts result.0 result.1 ∷ ahead self.new }
    {
        let inserts = first_inserts(self.tokens);
        self.skip();
        inserts
    }
}

/// Reads an operand, and each further operand with the operator before it.
macro_rules! chain {
    ($cursor:ident, $depth:expr, $read:ident; $role:ident => $other:ident { $operator:ident, $operand:ident }) => {{
        let first = $read($cursor, $depth)?;
        let mut others = Vec::new($cursor.alloc);
        while let Role::$role($operator) = $cursor.role() {
            $cursor.skip();
            match $read($cursor, $depth) {
                Ok($operand) => match others.push($other { $operator, $operand }) {
                    Ok(()) => {}
                    Err(error) => {
                        drop(others);
                        drop(first);
                        return Err(ReadError::from(error));
                    }
                },
                Err(error) => {
                    drop(others);
                    drop(first);
                    return Err(error);
                }
            }
        }
        (first, others)
    }};
}

/// Reads a whole of operands, as an expression.
macro_rules! whole_chain {
    ($whole:ident: $($chain:tt)*) => {{
        let (first, others) = chain!($($chain)*);
        Ok($whole { first, others })
    }};
}

/// Reads an item and appends it. The items are dropped by a call if this fails, which is cheap to prove.
macro_rules! push_read {
    ($items:ident, $read:expr) => {
        match $read {
            Ok(item) => match $items.push(item) {
                Ok(()) => {}
                Err(error) => {
                    drop($items);
                    return Err(ReadError::from(error));
                }
            },
            Err(error) => {
                drop($items);
                return Err(error);
            }
        }
    };
}

/// Returns what was read if no token is left. It is dropped by a call if one is.
macro_rules! at_end {
    ($cursor:ident, $found:ident) => {
        match $cursor.end() {
            Ok(()) => Ok($found),
            Err(error) => {
                drop($found);
                Err(error)
            }
        }
    };
}

pub(crate) use at_end;
pub(crate) use chain;
pub(crate) use push_read;
pub(crate) use whole_chain;

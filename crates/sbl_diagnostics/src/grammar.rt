//! What the grammar expects after some tokens: a stack of symbols, as docs/LANGUAGE.md has them.

use sbl_script::Part;
use sbl_text::{Kind, Sign, Token, Word};
use std::alloc::{AllocError, Global};

/// A symbol of the grammar. From `Joiners` on they may be empty.
#[derive(Clone, Copy, Debug, PartialEq, Eq)]
pub(crate) enum Symbol {
    /// `(`
    Open,
    /// `)`
    Close,
    /// `for`
    For,
    /// `among`
    Among,
    /// A name.
    Name,
    /// A literal or a name.
    Argument,
    /// A command.
    Command,
    /// The command after the number of `loop` or `atleast`.
    LoopBody,
    /// What follows `non`.
    Complement,
    /// What follows `$`.
    Subject,
    /// A sign that sets or compares an integer.
    Operator,
    /// A sign that compares two numbers.
    Comparison,
    /// A number, or another factor.
    Factor,
    /// The two insert characters.
    Inserts,
    /// The name of a macro.
    MacroName,
    /// The literal of a macro.
    MacroLiteral,
    /// What follows `define` and a name.
    Definition,
    /// More commands with `or` or `and` before them.
    Joiners,
    /// Commands in parentheses.
    Rows,
    /// More factors.
    Scales,
    /// More products.
    Sums,
    /// The commands in parentheses before the strings of an `among`.
    Starter,
    /// The strings of an `among`, with their commands.
    Groups,
    /// More strings of a group, or its commands.
    Entries,
    /// The condition of a string.
    Condition,
    /// `hex` or `decimal`
    Base,
    /// More terms of a grouping.
    Terms,
    /// The names of a declaration.
    Names,
    /// Items.
    Items,
}

/// An expression.
const EXPRESSION: &[Symbol] = &[Symbol::Factor, Symbol::Scales, Symbol::Sums];

/// The rest of an expression in parentheses, after the opening one.
const PARENTHESIZED: &[Symbol] = &[Symbol::Factor, Symbol::Scales, Symbol::Sums, Symbol::Close];

impl Symbol {
    /// Returns whether the symbol may be empty.
    fn is_optional(self) -> bool {
        matches!(
            self,
            Symbol::Joiners
                | Symbol::Rows
                | Symbol::Scales
                | Symbol::Sums
                | Symbol::Starter
                | Symbol::Groups
                | Symbol::Entries
                | Symbol::Condition
                | Symbol::Base
                | Symbol::Terms
                | Symbol::Names
                | Symbol::Items
        )
    }

    /// Returns whether a command may be here.
    pub(crate) fn has_command(self) -> bool {
        matches!(self, Symbol::Command | Symbol::LoopBody | Symbol::Rows)
    }
}

/// Returns whether the sign compares two numbers.
pub(crate) fn compares(sign: Sign) -> bool {
    matches!(
        sign,
        Sign::Less | Sign::Greater | Sign::Same | Sign::Differs | Sign::AtMost | Sign::AtLeast
    )
}

/// Returns whether the sign sets or compares an integer.
pub(crate) fn is_operator(sign: Sign) -> bool {
    compares(sign)
        || matches!(
            sign,
            Sign::Equals
                | Sign::PlusEquals
                | Sign::MinusEquals
                | Sign::StarEquals
                | Sign::SlashEquals
        )
}

/// Returns whether the word is a number in an expression.
pub(crate) fn is_constant(word: Word) -> bool {
    matches!(
        word,
        Word::Cursor | Word::Limit | Word::Len | Word::MaxInt | Word::MinInt
    )
}

/// Returns what follows a word that begins a command.
fn after_command_word(word: Word) -> Option<&'static [Symbol]> {
    match word {
        Word::AtLimit
        | Word::Delete
        | Word::False
        | Word::Next
        | Word::Substring
        | Word::ToLimit
        | Word::True => Some(&[]),
        Word::Backwards
        | Word::Do
        | Word::Fail
        | Word::GoPast
        | Word::GoTo
        | Word::Not
        | Word::Repeat
        | Word::Test
        | Word::Try => Some(&[Symbol::Command]),
        Word::AtLeast | Word::Loop => Some(&[
            Symbol::Factor,
            Symbol::Scales,
            Symbol::Sums,
            Symbol::LoopBody,
        ]),
        Word::AtMark | Word::Hop | Word::ToMark => Some(EXPRESSION),
        Word::Set | Word::SetMark | Word::Unset => Some(&[Symbol::Name]),
        Word::Attach | Word::Insert => Some(&[Symbol::Argument]),
        Word::SetLimit => Some(&[Symbol::Command, Symbol::For, Symbol::Command]),
        Word::Among => after_among(),
        Word::Non => Some(&[Symbol::Complement]),
        _ => None,
    }
}

/// Returns what follows `among`.
fn after_among() -> Option<&'static [Symbol]> {
    Some(&[Symbol::Open, Symbol::Starter, Symbol::Groups, Symbol::Close])
}

/// Returns what follows a sign that begins a command.
fn after_command_sign(sign: Sign) -> Option<&'static [Symbol]> {
    match sign {
        Sign::Open => Some(&[Symbol::Rows, Symbol::Close]),
        Sign::LeftBracket | Sign::RightBracket => Some(&[]),
        Sign::Dollar => Some(&[Symbol::Subject]),
        Sign::LessMinus | Sign::LessPlus => Some(&[Symbol::Argument]),
        Sign::Arrow => Some(&[Symbol::Name]),
        _ => None,
    }
}

/// Returns whether a command can begin with the token.
pub(crate) fn begins_command(kind: Kind) -> bool {
    match kind {
        Kind::Word(word) => after_command_word(word).is_some(),
        Kind::Sign(sign) => after_command_sign(sign).is_some(),
        Kind::Name | Kind::Literal => true,
        _ => false,
    }
}

/// Returns what follows a word that begins an item.
fn after_item_word(word: Word) -> Option<&'static [Symbol]> {
    match word {
        Word::Define => Some(&[Symbol::Name, Symbol::Definition]),
        Word::Booleans
        | Word::Externals
        | Word::Groupings
        | Word::Integers
        | Word::Routines
        | Word::Strings => Some(&[Symbol::Open, Symbol::Names, Symbol::Close]),
        Word::BackwardMode => Some(&[Symbol::Open, Symbol::Items, Symbol::Close]),
        Word::StringDef => Some(&[Symbol::MacroName, Symbol::Base, Symbol::MacroLiteral]),
        Word::StringEscapes => Some(&[Symbol::Inserts]),
        _ => None,
    }
}

/// Returns what follows a word as the first token of a symbol, or `None` if it cannot be.
fn after_word(symbol: Symbol, word: Word) -> Option<&'static [Symbol]> {
    match (symbol, word) {
        (Symbol::Command | Symbol::LoopBody | Symbol::Rows, _) => after_command_word(word),
        (Symbol::Items, _) => after_item_word(word),
        (Symbol::Joiners, Word::And | Word::Or) => Some(&[Symbol::Command, Symbol::Joiners]),
        (Symbol::Definition, Word::As) => Some(&[Symbol::Command, Symbol::Joiners]),
        (Symbol::For, Word::For) => Some(&[]),
        (Symbol::Base, Word::Hex | Word::Decimal) => Some(&[]),
        (Symbol::Factor, Word::LenOf) => Some(&[Symbol::Argument]),
        (Symbol::Factor, _) if is_constant(word) => Some(&[]),
        (Symbol::Among, Word::Among) => after_among(),
        _ => None,
    }
}

/// Returns what follows a sign as the first token of a symbol, or `None` if it cannot be.
fn after_sign(symbol: Symbol, sign: Sign) -> Option<&'static [Symbol]> {
    match (symbol, sign) {
        (Symbol::Command | Symbol::LoopBody | Symbol::Rows, _) => after_command_sign(sign),
        (Symbol::Open, Sign::Open) | (Symbol::Close, Sign::Close) => Some(&[]),
        (Symbol::Complement, Sign::Minus) => Some(&[Symbol::Name]),
        (Symbol::Subject, Sign::Open) => Some(&[
            Symbol::Factor,
            Symbol::Scales,
            Symbol::Sums,
            Symbol::Comparison,
            Symbol::Factor,
            Symbol::Scales,
            Symbol::Sums,
            Symbol::Close,
        ]),
        (Symbol::Operator, _) if is_operator(sign) => Some(EXPRESSION),
        (Symbol::Comparison, _) if compares(sign) => Some(&[]),
        (Symbol::Factor, Sign::Minus) => Some(&[Symbol::Factor]),
        (Symbol::Factor, Sign::Open) => Some(PARENTHESIZED),
        (Symbol::Scales, Sign::Star | Sign::Slash) => Some(&[Symbol::Factor, Symbol::Scales]),
        (Symbol::Sums, Sign::Plus | Sign::Minus) => Some(EXPRESSION),
        (Symbol::Starter, Sign::Open) => Some(&[Symbol::Rows, Symbol::Close]),
        (Symbol::Entries, Sign::Open) => Some(&[Symbol::Rows, Symbol::Close, Symbol::Groups]),
        (Symbol::Terms, Sign::Plus | Sign::Minus) => Some(&[Symbol::Argument, Symbol::Terms]),
        _ => None,
    }
}

/// Returns what follows a name as the first token of a symbol, or `None` if it cannot be.
fn after_name(symbol: Symbol) -> Option<&'static [Symbol]> {
    match symbol {
        Symbol::Name
        | Symbol::Argument
        | Symbol::Command
        | Symbol::LoopBody
        | Symbol::Rows
        | Symbol::Complement
        | Symbol::Factor
        | Symbol::Condition => Some(&[]),
        Symbol::Subject => Some(&[Symbol::Operator]),
        Symbol::Names => Some(&[Symbol::Names]),
        Symbol::Definition => Some(&[Symbol::Terms]),
        _ => None,
    }
}

/// Returns what follows a literal as the first token of a symbol, or `None` if it cannot be.
fn after_literal(symbol: Symbol) -> Option<&'static [Symbol]> {
    match symbol {
        Symbol::Argument
        | Symbol::Command
        | Symbol::LoopBody
        | Symbol::Rows
        | Symbol::MacroLiteral => Some(&[]),
        Symbol::Definition => Some(&[Symbol::Terms]),
        Symbol::Groups | Symbol::Entries => Some(&[Symbol::Condition, Symbol::Entries]),
        _ => None,
    }
}

/// Returns what follows a token as the first one of a symbol, or `None` if it cannot be.
fn after(symbol: Symbol, kind: Kind) -> Option<&'static [Symbol]> {
    match (kind, symbol) {
        (Kind::Word(word), _) => after_word(symbol, word),
        (Kind::Sign(sign), _) => after_sign(symbol, sign),
        (Kind::Name, _) => after_name(symbol),
        (Kind::Literal, _) => after_literal(symbol),
        (Kind::Number, Symbol::Factor)
        | (Kind::Inserts, Symbol::Inserts)
        | (Kind::MacroName, Symbol::MacroName) => Some(&[]),
        _ => None,
    }
}

/// Returns what follows the first part of a symbol that repeats.
fn more(symbol: Symbol) -> &'static [Symbol] {
    match symbol {
        Symbol::Rows => &[Symbol::Joiners, Symbol::Rows],
        Symbol::Items => &[Symbol::Items],
        _ => &[],
    }
}

/// Puts symbols on a stack, so that the first one is its top.
fn push_all(stack: &mut Vec<Symbol>, symbols: &[Symbol]) -> Result<(), AllocError> {
    for symbol in symbols.iter().rev() {
        stack.push(*symbol)?;
    }
    Ok(())
}

/// What the grammar expects after some tokens.
#[derive(Drop)]
pub(crate) struct Outlook {
    /// The expected symbols. The next one is the last.
    stack: Vec<Symbol>,
    /// The symbol that the last token is the first one of.
    pub(crate) role: Option<Symbol>,
}

impl Outlook {
    /// Returns what is expected at the beginning of a script, or of a part of one.
    fn new(alloc: Global, part: Option<Part<'_>>) -> Result<Outlook, AllocError> {
        let symbols: &[Symbol] = match part {
            None => &[Symbol::Items],
            Some(Part::Routine(_)) => &[Symbol::Command, Symbol::Joiners],
            Some(Part::Among(_, _)) => &[Symbol::Among],
            Some(Part::Grouping(_)) => &[Symbol::Argument, Symbol::Terms],
        };
        let mut stack = Vec::new(alloc);
        push_all(&mut stack, symbols)?;
        Ok(Outlook { stack, role: None })
    }

    /// Goes over a token, and returns whether it can come.
    pub(crate) fn pass(&mut self, kind: Kind) -> Result<bool, AllocError> {
        for _ in 0..self.stack.len() {
            let Some(symbol) = self.stack.pop() else {
                return Ok(false);
            };
            if let Some(symbols) = after(symbol, kind) {
                push_all(&mut self.stack, more(symbol))?;
                push_all(&mut self.stack, symbols)?;
                self.role = Some(symbol);
                return Ok(true);
            }
            if !symbol.is_optional() {
                return Ok(false);
            }
        }
        Ok(false)
    }

    /// Returns whether the token can come next.
    pub(crate) fn takes(&self, kind: Kind) -> bool {
        for symbol in self.stack.iter().rev() {
            if after(*symbol, kind).is_some() {
                return true;
            }
            if !symbol.is_optional() {
                return false;
            }
        }
        false
    }

    /// Returns the first expected symbol that may not be empty, if there is one.
    pub(crate) fn first_required(&self) -> Option<Symbol> {
        for symbol in self.stack.iter().rev() {
            if !symbol.is_optional() {
                return Some(*symbol);
            }
        }
        None
    }

    /// Returns whether this symbol, which may be empty, can come next.
    pub(crate) fn offers(&self, offered: Symbol) -> bool {
        for symbol in self.stack.iter().rev() {
            if *symbol == offered {
                return true;
            }
            if !symbol.is_optional() {
                return false;
            }
        }
        false
    }
}

/// Returns what the grammar expects after these tokens of a script, or of a part of one; `None` if one of them cannot come. A part may
/// begin as its definition does.
pub(crate) fn outlook_after(
    alloc: Global,
    tokens: &[Token<'_>],
    part: Option<Part<'_>>,
) -> Result<Option<Outlook>, AllocError> {
    let has_head = match tokens.first() {
        Some(first) => first.kind == Kind::Word(Word::Define),
        None => false,
    };
    let mut outlook = Outlook::new(alloc, if has_head { None } else { part })?;
    for token in tokens {
        if !outlook.pass(token.kind)? {
            return Ok(None);
        }
    }
    Ok(Some(outlook))
}

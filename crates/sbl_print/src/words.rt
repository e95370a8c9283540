//! The text of each word and sign of a tree.

ghost use Rattle.std.specs.Prelude.{◌≡◌};
ghost use Rattle.sbl_ast.specs.Terminal as t;
ghost use Rattle.sbl_print.specs.Adding.{token_text};

use sbl_ast::{
    Additive, Assignment, Base, Comparison, Constant, Count, DeclarationKind, Joiner, Move,
    Multiplicative, Naming, Prefix, Simple, Splice,
};
use sbl_token::{Sign, Word};

/// The text of a variant: of the word or sign with its name, or of the one that follows it after a `;`.
macro_rules! text {
    ($value:ident: $kind:ident $(, $token:ident { $($name:ident)+ })* $(; $($variant:ident => $other:expr),+)?) => {
        match $value {
            $($($kind::$name => $token::$name.text(),)+)*
            $($($kind::$variant => $other.text(),)+)?
        }
    };
}

/// Returns the text of the word of a declaration.
pub fn declaration_text(kind: DeclarationKind) -> &'static str
    ensures { result.now ≡ token_text (t.declares kind) }
{
    text!(
        kind: DeclarationKind,
        Word { Strings Integers Booleans Routines Externals Groupings }
    )
}

/// Returns the text `hex` or `decimal`.
pub fn base_text(base: Base) -> &'static str
    ensures { result.now ≡ token_text (t.base base) }
{
    text!(base: Base, Word { Hex Decimal })
}

/// Returns the text `or` or `and`.
pub fn joiner_text(joiner: Joiner) -> &'static str
    ensures { result.now ≡ token_text (t.joiner joiner) }
{
    text!(joiner: Joiner, Word { Or And })
}

/// Returns the text of a command of one token.
pub fn simple_text(simple: Simple) -> &'static str
    ensures { result.now ≡ token_text (t.simple simple) }
{
    text!(
        simple: Simple,
        Sign { LeftBracket RightBracket },
        Word { Substring Next ToLimit AtLimit Delete True False }
    )
}

/// Returns the text of a word before a command.
pub fn prefix_text(prefix: Prefix) -> &'static str
    ensures { result.now ≡ token_text (t.prefix prefix) }
{
    text!(prefix: Prefix, Word { Not Test Try Do Fail Repeat GoTo GoPast Backwards })
}

/// Returns the text `loop` or `atleast`.
pub fn count_text(count: Count) -> &'static str
    ensures { result.now ≡ token_text (t.count count) }
{
    text!(count: Count, Word { Loop AtLeast })
}

/// Returns the text `hop`, `atmark` or `tomark`.
pub fn move_text(word: Move) -> &'static str
    ensures { result.now ≡ token_text (t.move word) }
{
    text!(word: Move, Word { Hop AtMark ToMark })
}

/// Returns the text of a word or sign before the name of a variable.
pub fn naming_text(word: Naming) -> &'static str
    ensures { result.now ≡ token_text (t.naming word) }
{
    text!(word: Naming, Word { SetMark Set Unset }, Sign { Arrow })
}

/// Returns the text of a word or sign before a string.
pub fn splice_text(word: Splice) -> &'static str
    ensures { result.now ≡ token_text (t.edit word) }
{
    text!(
        word: Splice, Word { Insert Attach };
        Replace => Sign::LessMinus, InsertSign => Sign::LessPlus
    )
}

/// Returns the text of a sign between two terms.
pub fn additive_text(sign: Additive) -> &'static str
    ensures { result.now ≡ token_text (t.additive sign) }
{
    text!(sign: Additive, Sign { Plus Minus })
}

/// Returns the text of a sign between two factors.
pub fn multiplicative_text(sign: Multiplicative) -> &'static str
    ensures { result.now ≡ token_text (t.multiplicative sign) }
{
    text!(sign: Multiplicative; Times => Sign::Star, Over => Sign::Slash)
}

/// Returns the text of a sign that assigns a value to an integer.
pub fn assignment_text(sign: Assignment) -> &'static str
    ensures { result.now ≡ token_text (t.assigns sign) }
{
    text!(
        sign: Assignment, Sign { Equals };
        Plus => Sign::PlusEquals, Minus => Sign::MinusEquals,
        Times => Sign::StarEquals, Over => Sign::SlashEquals
    )
}

/// Returns the text of a sign that compares two numbers.
pub fn comparison_text(sign: Comparison) -> &'static str
    ensures { result.now ≡ token_text (t.compares sign) }
{
    text!(sign: Comparison, Sign { Same Differs Less AtMost Greater AtLeast })
}

/// Returns the text of a word for a number.
pub fn constant_text(constant: Constant) -> &'static str
    ensures { result.now ≡ token_text (t.constant constant) }
{
    text!(constant: Constant, Word { MaxInt MinInt Cursor Limit Len })
}

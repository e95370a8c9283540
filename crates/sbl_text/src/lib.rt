//! The lexer: reads the tokens of a Snowball script.
#![tactic(auto)]

mod classes;
mod codes;
mod directives;
mod escapes;
mod fault;
pub mod laws;
mod lexer;
mod literals;
mod macros;
mod meanings;
mod pieces;
mod prefix;

pub use codes::read_codes;
pub use directives::{Coding, macro_value};
pub use escapes::{Escapes, Inserts};
pub use fault::ScriptFault;
pub use lexer::{Lexer, tokens, tokens_under};
pub use literals::read_literal;
pub use sbl_token::{Kind, Sign, Token, Value, Word};

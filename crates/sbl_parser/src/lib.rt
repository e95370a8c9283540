//! The parser: builds the AST of a script, or of a part of one, from its tokens by recursive descent.
#![tactic(auto)]

mod arithmetic;
mod commands;
mod cursor;
mod entries;
mod error;
mod first_tokens;
mod items;
mod leaves;
mod reading;
mod role;
mod starts;
mod tokens;

pub use first_tokens::is_left_out;
pub use reading::{one_fault, one_tree, parse, parse_among, parse_body, parse_terms};

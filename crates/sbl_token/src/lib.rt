//! Tokens: their kinds and values, the reserved words and the signs.
#![tactic(auto)]

mod first_char;
mod signs;
mod token;
mod words;

pub use first_char::split_first;
pub use signs::{Sign, sign_of, sign_prefix};
pub use token::{Kind, Token, Value};
pub use words::{Word, word_of};

//! What the compiler has of a script, and what its parts share.

use crate::names::SymbolTable;
use sbl_program::AmongStrings;
use std::alloc::{AllocError, Global};

/// A result of the compiler. The error is that an allocation failed.
pub type CompileResult<T> = Result<T, AllocError>;

/// What the compiler has of a script before it compiles the bodies of the routines.
#[derive(Clone, Copy)]
pub struct Compiler<'a> {
    /// The allocator.
    pub alloc: Global,
    /// The names with their numbers.
    pub names: &'a SymbolTable,
    /// The amongs, in the order of their words.
    pub amongs: &'a Vec<AmongStrings>,
}

/// Makes a vector of one value for each item of a list. The values so far are dropped by a call, which the prover does not
/// take apart.
macro_rules! collect {
    ($alloc:expr; $values:ident: $item:ident in $items:ident => $part:ident: $made:expr => $value:expr) => {{
        let mut $values = Vec::with_capacity($alloc, $items.len())?;
        for $item in $items {
            match $made {
                Ok($part) => match $values.push($value) {
                    Ok(()) => (),
                    Err(refused) => {
                        drop($values);
                        return Err(refused.into());
                    }
                },
                Err(refused) => {
                    drop($values);
                    return Err(refused);
                }
            }
        }
        Ok($values)
    }};
}

/// Joins the first part and those after it; if there are no others, the first part is the whole.
macro_rules! whole {
    ($alloc:expr; $kind:ident::$whole:ident, $first:ident, $others:ident) => {
        if $others.is_empty() {
            Ok($first)
        } else {
            let $first = Box::new($alloc, $first)?;
            Ok($kind::$whole { $first, $others })
        }
    };
}

pub(crate) use collect;
pub(crate) use whole;

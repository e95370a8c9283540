//! Errors of the parser.

ghost use Rattle.std.specs.Prelude.{◌≡◌};
ghost use Rattle.sbl_parser.specs.declared.error.ReadError.TheVariants.{Memory};

use std::alloc::{AllocError, AllocFailed};

impl From<AllocError> for ReadError {
    ghost from_gives = { λ _ e. e ≡ Memory };

    fn from(_e: AllocError) -> ReadError {
        ReadError::Memory
    }
}

/// The greatest nesting depth (our own choice).
pub const MAX_DEPTH: u8 = 64;

/// Why parsing failed. The number of a fault counts the tokens from its own on.
#[derive(Clone, Copy)]
pub enum ReadError {
    /// An allocation failed.
    Memory,
    /// The token cannot follow the tokens before it.
    Syntax(usize),
    /// The token is nested too deep.
    TooDeep(usize),
    /// The token is no operator, after a `$` and a name.
    OutOfProfile(usize),
}

/// What a function reads.
pub type ReadResult<T> = Result<T, ReadError>;

impl<T: Drop> From<AllocFailed<T>> for ReadError {
    ghost from_gives = { λ _ e. e ≡ Memory };

    fn from(_e: AllocFailed<T>) -> ReadError {
        ReadError::Memory
    }
}

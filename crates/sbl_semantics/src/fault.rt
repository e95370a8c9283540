//! Why a run is refused.

ghost use Rattle.std.specs.Prelude.{◌≡◌};

use thiserror::Error;

/// Returns the name of the variant that a value is.
macro_rules! variant_name {
    ($value:ident: $kind:ident; $($variant:ident),*) => {
        match $value {
            $($kind::$variant => stringify!($variant),)*
        }
    };
}

/// Why a run is refused. Its display is the code and the name.
#[derive(Clone, Copy, Debug, Drop, PartialEq, Eq, Error)]
pub enum RunFault {
    /// No steps are left (our own choice: each command uses one step).
    #[error("60 Steps")]
    Steps,
    /// A call is too deep (our own choice).
    #[error("61 Depth")]
    Depth,
    /// There is no valid slice: its ends are crossed, or it goes past the limit.
    #[error("62 Slice")]
    Slice,
    /// The cursor would leave the text.
    #[error("63 Cursor")]
    Cursor,
    /// A number is out of range.
    #[error("64 Integer")]
    Integer,
    /// A division by zero.
    #[error("65 Divide")]
    Divide,
    /// The text would have more than 1,024 characters (our own choice).
    #[error("66 TooLong")]
    TooLong,
}

impl RunFault {
    ghost use Rattle.sbl_semantics.specs.Names.{name_of};

    /// Returns the name without the code.
    pub fn name(self) -> &'static str
        ensures { result.now ≡ name_of self }
    {
        variant_name!(self: RunFault; Steps, Depth, Slice, Cursor, Integer, Divide, TooLong)
    }
}

//! A text that was refused.
ghost use Rattle.std.specs.Prelude.{◌≡◌, IfOk};
ghost use Rattle.sbl_history.specs.Refused.{view_held};
ghost use Rattle.sbl_script.specs.Parts.{view_part};

use sbl_script::{Part, ScriptFault};
use std::alloc::{AllocError, Global};

/// A part of the script, with a copy of its name.
#[derive(Drop)]
pub enum HeldPart {
    /// The body of the routine or external with this name.
    Routine(String),
    /// The among with this number in the routine or external with this name.
    Among(String, u64),
    /// The terms of the grouping with this name.
    Grouping(String),
}

impl HeldPart {
    /// Returns a part with a copy of its name. Returns `AllocError` if an allocation fails.
    pub fn copy_of(alloc: Global, part: Part<'_>) -> Result<HeldPart, AllocError>
        ensures { IfOk result (λ held. view_held held ≡ view_part part.entry) }
    {
        match part {
            Part::Routine(name) => Ok(HeldPart::Routine(String::from_str(alloc, name)?)),
            Part::Among(name, number) => {
                Ok(HeldPart::Among(String::from_str(alloc, name)?, number))
            }
            Part::Grouping(name) => Ok(HeldPart::Grouping(String::from_str(alloc, name)?)),
        }
    }

    /// Returns the part.
    pub fn part(&self) -> Part<'_>
        ensures { view_part result ≡ view_held self.now }
    {
        match self {
            HeldPart::Routine(name) => Part::Routine(name.as_str()),
            HeldPart::Among(name, number) => Part::Among(name.as_str(), *number),
            HeldPart::Grouping(name) => Part::Grouping(name.as_str()),
        }
    }
}

/// A text with which an edit of the script was refused.
#[derive(Drop)]
pub enum Refused {
    /// The bytes of a whole script.
    Whole(Vec<u8>),
    /// What was typed for a part of the script, and the fault of the edit.
    Part(HeldPart, Vec<u8>, ScriptFault),
    /// A text with more bytes than a script may have.
    TooLong,
}

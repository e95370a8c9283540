//! What a command edited.
ghost use Rattle.std.specs.Prelude.{◌≡◌, IfOk};
ghost use Rattle.sbl_history.specs.Desks.{view_kind};
ghost use Rattle.sbl_history.specs.History.{OfPart};
ghost use Rattle.sbl_script.specs.Parts.{view_part};

use sbl_script::Part;
use std::alloc::{AllocError, Global};

/// What a command edited.
#[derive(Drop)]
pub enum HeldKind {
    /// The routine or external with this name.
    Routine(String),
    /// The among with this number in the routine or external with this name.
    Among(String, u64),
    /// The grouping with this name.
    Grouping(String),
    /// The whole script.
    Script,
    /// The limit, which became this one.
    Limit(u32),
}

impl HeldKind {
    /// Returns the kind of an edit of a part of the script. Returns `AllocError` if an allocation fails.
    pub(crate) fn of_part(alloc: Global, part: Part<'_>) -> Result<HeldKind, AllocError>
        ensures { IfOk result (λ kind. view_kind kind ≡ OfPart (view_part part.entry)) }
    {
        match part {
            Part::Routine(name) => Ok(HeldKind::Routine(String::from_str(alloc, name)?)),
            Part::Among(name, number) => {
                Ok(HeldKind::Among(String::from_str(alloc, name)?, number))
            }
            Part::Grouping(name) => Ok(HeldKind::Grouping(String::from_str(alloc, name)?)),
        }
    }
}

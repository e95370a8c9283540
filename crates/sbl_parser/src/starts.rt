//! The tokens that a command or an item can begin with.

ghost use Rattle.std.specs.Prelude.{◌≡◌};
ghost use Rattle.sbl_parser.specs.Starts as spec;

use crate::role::Role;

/// Returns whether a command can begin with this token.
pub(crate) fn begins_command(role: Role) -> bool
    ensures { result ≡ spec.begins_command role }
{
    matches!(
        role,
        Role::Open
            | Role::Simple(_)
            | Role::Literal
            | Role::Name
            | Role::Non
            | Role::Prefix(_)
            | Role::Count(_)
            | Role::Move(_)
            | Role::Naming(_)
            | Role::Splice(_)
            | Role::SetLimit
            | Role::Dollar
            | Role::Among
    )
}

/// Returns whether an item that is allowed in a `backwardmode` can begin with this token.
pub(crate) fn begins_plain(role: Role) -> bool
    ensures { result ≡ spec.begins_plain role }
{
    matches!(
        role,
        Role::Declares(_) | Role::StringEscapes | Role::StringDef | Role::Define
    )
}

/// Returns whether an item can begin with this token.
pub(crate) fn begins_item(role: Role) -> bool
    ensures { result ≡ spec.begins_item role }
{
    matches!(
        role,
        Role::Declares(_)
            | Role::StringEscapes
            | Role::StringDef
            | Role::Define
            | Role::BackwardMode
    )
}

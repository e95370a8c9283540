//! The kind and the item of a fault of the checks.

ghost use Rattle.std.specs.Prelude.{◌≡◌};
ghost use Rattle.sbl_source_map.specs.FaultKinds as spec;

use sbl_text::ScriptFault;

/// Returns the number and the item of a fault that is at a token, and 0 and 0 for another fault. Does not allocate.
fn kind_and_item(fault: ScriptFault) -> (usize, usize)
    ensures { result ≡ (spec.kind_of fault, spec.item_of fault) }
{
    match fault {
        ScriptFault::DeclaredTwice { item } => (9, item),
        ScriptFault::Undeclared { item } => (10, item),
        ScriptFault::WrongKind { item } => (11, item),
        ScriptFault::DefinedTwice { item } => (12, item),
        ScriptFault::Undefined { item } => (13, item),
        ScriptFault::WrongMode { item } => (14, item),
        ScriptFault::Substring { item } => (15, item),
        ScriptFault::Starter { item } => (16, item),
        ScriptFault::RepeatedString { item } => (17, item),
        ScriptFault::EmptyAmong { item } => (18, item),
        ScriptFault::NestedBackwards { item } => (19, item),
        _ => (0, 0),
    }
}

/// Returns whether two faults are of one kind and in one item. Does not allocate.
pub(crate) fn is_same(a: ScriptFault, b: ScriptFault) -> bool
    ensures { result ≡ spec.is_same a b }
{
    let (kind, item) = kind_and_item(a);
    let (other_kind, other_item) = kind_and_item(b);
    kind == other_kind && item == other_item
}

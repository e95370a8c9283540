//! The bodies of routines.

ghost use Rattle.std.specs.Prelude.{◌≡◌, MatchOption, None, Some};
ghost use Rattle.sbl_ast.specs.View.{view_row, view_items};
ghost use Rattle.sbl_resolver.specs.Bodies as spec;

use sbl_ast::{Plain, RowOfCommands, ScriptItem};

/// Returns the body of the first routine of this name that is defined in forward mode, or `None` if there is none.
pub fn body_in<'a>(items: &'a [ScriptItem], name: &str) -> Option<&'a RowOfCommands>
    ensures { MatchOption result (spec.body_in name.now (view_items items.now) ≡ None) (λ body. spec.body_in name.now (view_items items.now) ≡ Some (view_row body.now)) }
{
    for item in items {
        if let ScriptItem::Plain(
            Plain::Routine {
                name: defined,
                body,
            },
        ) = item
        {
            if name == defined.as_str() {
                return Some(body);
            }
        }
    }
    None
}

//! The items of a script in text order, each with its mode.

ghost use Rattle.std.specs.Prelude.{◌≡◌, [], ◌∷◌, ◌++◌, map, OnOk, IfOk};
ghost use Rattle.sbl_ast.specs.Order.{in_order, view_in_mode};
ghost use Rattle.sbl_ast.specs.inside.OrderParts.{in_mode};
ghost use Rattle.sbl_ast.specs.View.{view_items, view_plain};

use crate::mode::Mode;
use crate::tree::{Plain, ScriptItem};
use std::alloc::{AllocError, Global};

/// An item with its mode.
#[derive(Clone, Copy)]
pub struct ItemInMode<'a> {
    /// The mode of the item.
    pub mode: Mode,
    /// The item.
    pub plain: &'a Plain,
}

// Appends items of this mode to `placed`.
fn put_in_mode<'a>(
    mode: Mode,
    plains: &'a Vec<Plain>,
    placed: &mut Vec<ItemInMode<'a>>,
) -> Result<(), AllocError>
    ensures { OnOk result (map view_in_mode placed.new.items ≡ map view_in_mode placed.old.items ++ in_mode mode (map view_plain plains.now.items)) }
{
    for plain in plains {
        placed.push(ItemInMode { mode, plain })?;
    }
    Ok(())
}

fn put_forward<'a>(plain: &'a Plain, placed: &mut Vec<ItemInMode<'a>>) -> Result<(), AllocError>
    ensures { OnOk result (map view_in_mode placed.new.items ≡ map view_in_mode placed.old.items ++ in_mode Mode.Forward (view_plain plain.now ∷ [])) }
{
    placed.push(ItemInMode {
        mode: Mode::Forward,
        plain,
    })?;
    Ok(())
}

/// Returns the items in text order; a `backwardmode` is replaced by its items. Returns `AllocError` if an allocation
/// fails.
pub fn items_in_order<'a>(
    alloc: Global,
    items: &'a [ScriptItem],
) -> Result<Vec<ItemInMode<'a>>, AllocError>
    ensures { IfOk result (λ all. map view_in_mode all.items ≡ in_order (view_items items.now)) }
{
    let mut all = Vec::new(alloc);
    for item in items {
        match item {
            ScriptItem::Plain(plain) => put_forward(plain, &mut all)?,
            ScriptItem::BackwardMode(plains) => put_in_mode(Mode::Backward, plains, &mut all)?,
        }
    }
    Ok(all)
}

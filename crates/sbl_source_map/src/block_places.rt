//! The place of a fault in a block that is put into a script.

ghost use Rattle.std.specs.Prelude.{◌≡◌, ◌<◌, ◌+◌, ◌++◌, ℕ, IfOk, MatchOption, length};
ghost use Rattle.sbl_source_map.specs.BlockPlaces.{IsBlockOffset, IsTokenIn};

use crate::fault_places::{place_in, token_offset};
use crate::laws::token_is_one;
use crate::parts::Excerpt;
use sbl_text::ScriptFault;
use std::alloc::{AllocError, Global};

/// Returns the whole text. Returns `AllocError` if an allocation fails.
fn join_parts(alloc: Global, cut: Excerpt<'_>) -> Result<Vec<u8>, AllocError>
    ensures { IfOk result (λ text. text.items ≡ cut.entry.before.now ++ cut.entry.part.now ++ cut.entry.after.now) }
{
    let mut text = Vec::from_slice(alloc, cut.before)?;
    text.extend_from_slice(cut.part)?;
    text.extend_from_slice(cut.after)?;
    Ok(text)
}

/// Returns how far an offset is after the beginning of a part with this length, or `None` if it is not in the part.
fn offset_in(begin: usize, length: usize, offset: usize) -> Option<usize>
    ensures { MatchOption result ((k : ℕ) → offset ≡ begin + k → k < length → ⊥) (λ k. (offset ≡ begin + k) × (k < length)) }
{
    if offset < begin {
        return None;
    }
    let inside = offset - begin;
    if inside < length { Some(inside) } else { None }
}

/// Returns the byte offset in the part of the token at which the checks find this fault in the whole text.
fn token_offset_in(
    alloc: Global,
    cut: Excerpt<'_>,
    fault: ScriptFault,
) -> Result<Option<usize>, AllocError>
    ensures { IfOk result (λ o. IsTokenIn cut.entry.before.now cut.entry.part.now cut.entry.after.now fault o) }
{
    token_is_one();
    let text = join_parts(alloc, cut)?;
    match token_offset(alloc, &text, fault)? {
        Some(offset) => Ok(offset_in(cut.before.len(), cut.part.len(), offset)),
        None => Ok(None),
    }
}

/// Returns the byte offset in a block of a fault with which an edit by this block is refused. In the script that is refused the
/// block is between `before` and `after`. The offset is the place that the fault has, or that of the token at which the checks
/// find this fault in the script.
///
/// Returns `None` if the fault has no place, and the checks do not find it in that script or find it outside the block. Returns
/// `AllocError` if an allocation fails.
pub fn offset_in_block(
    alloc: Global,
    before: &[u8],
    block: &[u8],
    after: &[u8],
    fault: ScriptFault,
) -> Result<Option<usize>, AllocError>
    ensures { IfOk result (λ o. IsBlockOffset before.now block.now after.now fault o) }
{
    match place_in(fault) {
        Some(place) => Ok(Some(place)),
        None => {
            let cut = Excerpt {
                before,
                part: block,
                after,
            };
            token_offset_in(alloc, cut, fault)
        }
    }
}

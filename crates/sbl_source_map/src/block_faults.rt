//! All faults of a block that is put into a script.

ghost use Rattle.std.specs.Prelude.{◌≡◌, IfOk, filter_map};
ghost use Rattle.sbl_source_map.specs.BlockFaults as spec;

use crate::fault_lists::{PlacedFault, faults_of_text};
use crate::fault_places::place_in;
use crate::fault_ranges::end_at;
use sbl_text::ScriptFault;
use std::alloc::{AllocError, Global};

/// Returns the text before a block, blanks for what is typed before it, and the block. Returns `AllocError` if an allocation fails.
fn up_to_block(
    alloc: Global,
    before: &[u8],
    head: usize,
    block: &[u8],
) -> Result<Vec<u8>, AllocError>
    ensures { IfOk result (λ text. text.items ≡ spec.up_to_block before.now head block.now) }
{
    let mut text = Vec::from_slice(alloc, before)?;
    for _blank in 0..head {
        text.push(b' ')?;
    }
    text.extend_from_slice(block)?;
    Ok(text)
}

/// Returns a fault of a text, if it is at a range that begins from one byte on and before another. The range is counted from the
/// first of these bytes.
fn fault_within(begin: usize, end: usize, placed: &PlacedFault) -> Option<PlacedFault>
    ensures { result ≡ spec.fault_within begin end placed.now }
{
    let (from, to) = placed.range?;
    if from < begin || from >= end {
        return None;
    }
    Some(PlacedFault {
        fault: placed.fault,
        range: Some((from - begin, to.saturating_sub(begin))),
    })
}

/// Returns these faults of a text that are at a range that begins from one byte on and before another. Returns `AllocError` if an
/// allocation fails.
fn faults_within(
    alloc: Global,
    begin: usize,
    end: usize,
    all: &[PlacedFault],
) -> Result<Vec<PlacedFault>, AllocError>
    ensures { IfOk result (λ faults. faults.items ≡ filter_map (spec.fault_within begin end) all.now) }
{
    let mut faults = Vec::new(alloc);
    for placed in all {
        if let Some(fault) = fault_within(begin, end, placed) {
            faults.push(fault)?;
        }
    }
    Ok(faults)
}

/// What is typed to replace a part of a script, and the script's text around the part.
#[derive(Clone, Copy, Debug)]
pub struct TypedPart<'a> {
    /// The text before the part.
    pub before: &'a [u8],
    /// How many bytes are typed before the block.
    pub head: usize,
    /// The block that replaces the part.
    pub block: &'a [u8],
    /// The text after the part.
    pub after: &'a [u8],
}

/// Returns the faults of the checks at tokens of a block. `text` is the text up to the end of the block. Returns `AllocError` if an
/// allocation fails.
fn check_faults_in(
    alloc: Global,
    mut text: Vec<u8>,
    typed: TypedPart<'_>,
    external: &str,
) -> Result<Vec<PlacedFault>, AllocError>
    requires { text.items ≡ spec.up_to_block typed.before.now typed.head typed.block.now }
    ensures { IfOk result (λ faults. spec.AreCheckFaultsIn typed.entry.before.now typed.entry.head typed.entry.block.now typed.entry.after.now external.now faults.items) }
{
    let end = text.len();
    text.extend_from_slice(typed.after)?;
    let all = faults_of_text(alloc, &text, external)?;
    faults_within(alloc, typed.before.len(), end, &all)
}

/// Returns the range of what is at a place of a block, if the place is in the block. `text` is the text up to the end of the block.
/// Returns `AllocError` if an allocation fails.
fn range_in(
    alloc: Global,
    text: &[u8],
    typed: TypedPart<'_>,
    place: usize,
) -> Result<Option<(usize, usize)>, AllocError>
    requires { text.now ≡ spec.up_to_block typed.before.now typed.head typed.block.now }
    ensures { IfOk result (λ range. spec.IsBlockRange typed.entry.before.now typed.entry.head typed.entry.block.now place range) }
{
    if place > typed.block.len() {
        return Ok(None);
    }
    let Ok(text) = str::from_utf8(text) else {
        return Ok(None);
    };
    let begin = typed.before.len();
    let end = end_at(alloc, text, begin + typed.head + place)?;
    Ok(Some((typed.head + place, end.saturating_sub(begin))))
}

/// Returns all faults of a block with which an edit of a part of a script is refused with this fault, each with its range in what is
/// typed. If the fault has a place, it is the only one. Otherwise these are the faults of the checks at tokens of the block, in text
/// order; none if the script's text with the block is not read.
///
/// Returns `AllocError` if an allocation fails.
pub fn faults_of_block(
    alloc: Global,
    typed: TypedPart<'_>,
    external: &str,
    fault: ScriptFault,
) -> Result<Vec<PlacedFault>, AllocError>
    ensures { IfOk result (λ faults. spec.AreBlockFaults typed.entry.before.now typed.entry.head typed.entry.block.now typed.entry.after.now external.now fault faults.items) }
{
    let text = up_to_block(alloc, typed.before, typed.head, typed.block)?;
    match place_in(fault) {
        None => check_faults_in(alloc, text, typed, external),
        Some(place) => {
            let range = range_in(alloc, &text, typed, place)?;
            let mut faults = Vec::new(alloc);
            faults.push(PlacedFault { fault, range })?;
            Ok(faults)
        }
    }
}

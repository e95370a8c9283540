//! All faults of a text.

ghost use Rattle.std.specs.Prelude.{◌≡◌, ◌⊎◌, ◌≤◌, ℕ, List, IfErr, IfOk, None, length, map};
ghost use Rattle.std.specs.List.{slice_get};
ghost use Rattle.std.specs.Str.{IsUtf8};
ghost use Rattle.sbl_text.specs.Directives.{start};
ghost use Rattle.sbl_text.specs.Tokens.{placed_of};
ghost use Rattle.sbl_ast.specs.Texts.{script};
ghost use Rattle.sbl_ast.specs.View.{view_items};
ghost use Rattle.sbl_parser.specs.Reading.{IsReadAs};
ghost use Rattle.sbl_script.specs.Reading as reading;
ghost use Rattle.sbl_source_map.specs.FaultLists as spec;
ghost use Rattle.sbl_source_map.specs.FaultLists.{AreFaultsOf, IsReadText, IsUnreadText};

use crate::fault_places::first_left_out;
use crate::fault_ranges::range_of;
use crate::subject_tokens::subject_ranges;
use sbl_ast::ScriptItem;
use sbl_parser::parse;
use sbl_resolver::all_faults;
use sbl_script::MAX_SCRIPT;
use sbl_text::{ScriptFault, Token, tokens};
use std::alloc::{AllocError, Global};

/// A fault of a text, and the bytes that it is at.
#[derive(Clone, Copy, Debug, PartialEq, Eq)]
pub struct PlacedFault {
    /// The fault.
    pub fault: ScriptFault,
    /// The byte offsets at which what is wrong begins and ends (exclusive); `None` if the fault is at no place.
    pub range: Option<(usize, usize)>,
}

/// Returns the bytes as text. The fault is `ScriptTooLong` or `NotUtf8`.
fn text_of(bytes: &[u8]) -> Result<&str, ScriptFault>
    ensures ok { IfOk result (λ s. (s.now ≡ bytes.now) × (length bytes.now ≤ reading.max_script) × IsUtf8 bytes.now) }
    ensures fault { IfErr result (λ f. reading.IsTextFault start bytes.now f) }
{
    if bytes.len() > MAX_SCRIPT {
        return Err(ScriptFault::ScriptTooLong);
    }
    match str::from_utf8(bytes) {
        Ok(text) => Ok(text),
        Err(_) => Err(ScriptFault::NotUtf8),
    }
}

/// Returns the tree of these tokens, or why they have none. `end` is the length of their text in bytes.
fn tree_of(alloc: Global, tokens: &[Token<'_>], end: usize) -> Result<Vec<ScriptItem>, ScriptFault>
    ensures offered { IfOk result (λ items. reading.first_left_out (map placed_of tokens.now) ≡ None) }
    ensures tree { IfOk result (λ items. IsReadAs script (reading.lexemes (map placed_of tokens.now)) (view_items items.items)) }
    ensures fault { IfErr result (λ f. (f ≡ ScriptFault.OutOfMemory) ⊎ reading.IsUnread script (map placed_of tokens.now) end f) }
{
    if let Some(place) = first_left_out(tokens) {
        return Err(ScriptFault::OutOfProfile { place });
    }
    parse(alloc, tokens, end)
}

/// Returns the tokens and the tree of these bytes, or why they are not read.
fn read<'a>(
    alloc: Global,
    bytes: &'a [u8],
) -> Result<(Vec<Token<'a>>, Vec<ScriptItem>), ScriptFault>
    ensures read { IfOk result (λ p. IsReadText bytes.now (map placed_of p.0.items) (view_items p.1.items)) }
    ensures fault { IfErr result (λ f. (f ≡ ScriptFault.OutOfMemory) ⊎ IsUnreadText bytes.now f) }
{
    let text = text_of(bytes)?;
    let found = tokens(alloc, text)?;
    let items = tree_of(alloc, &found, text.len())?;
    Ok((found, items))
}

/// Returns the range with this number, from 0; `None` if there are not so many.
fn range_at(ranges: &[(usize, usize)], number: usize) -> Option<(usize, usize)>
    ensures { result ≡ slice_get ranges.now number }
{
    ranges.get(number).copied()
}

/// Returns each fault with the range of its number; `None` if there are not so many ranges. Returns `AllocError` if an allocation
/// fails.
fn with_ranges(
    alloc: Global,
    faults: &[(usize, ScriptFault)],
    ranges: &[(usize, usize)],
) -> Result<Vec<PlacedFault>, AllocError>
    ensures { IfOk result (λ placed. placed.items ≡ map (λ x. record { fault = x.1; range = slice_get ranges.now x.0 }) faults.now) }
{
    let mut placed = Vec::new(alloc);
    for fault in faults {
        placed.push(PlacedFault {
            fault: fault.1,
            range: range_at(ranges, fault.0),
        })?;
    }
    Ok(placed)
}

/// Returns all faults of the checks of a tree with these tokens. Returns `AllocError` if an allocation fails.
fn check_faults(
    alloc: Global,
    tokens: &[Token<'_>],
    items: &[ScriptItem],
    external: &str,
) -> Result<Vec<PlacedFault>, AllocError>
    ensures { IfOk result (λ faults. faults.items ≡ spec.check_faults (map placed_of tokens.now) (view_items items.now) external.now) }
{
    let faults = all_faults(alloc, items, external)?;
    let ranges = subject_ranges(alloc, tokens)?;
    with_ranges(alloc, &faults, &ranges)
}

/// Returns the one fault for which bytes are not read as a script. Returns `AllocError` if an allocation fails.
fn only_fault(
    alloc: Global,
    bytes: &[u8],
    fault: ScriptFault,
) -> Result<Vec<PlacedFault>, AllocError>
    ensures { IfOk result (λ faults. IsUnreadText bytes.now fault → (external : List ℕ) → AreFaultsOf bytes.now external faults.items) }
{
    let range = range_of(alloc, bytes, fault)?;
    let mut faults = Vec::new(alloc);
    faults.push(PlacedFault { fault, range })?;
    Ok(faults)
}

/// Returns all faults of a text as a script with this external, each with the range that it is at. The first is the fault with which
/// `Script::parse` refuses the text; there is none if it accepts the text.
///
/// If the text is read and a check fails, these are the faults of all checks, in text order: each check is made as if no other
/// failed. The fault of the external is the last, and at no place. Otherwise it is one fault, at the token that cannot follow or at
/// what the lexer refuses; `ScriptTooLong` is at no place.
///
/// Returns `AllocError` if an allocation fails.
pub fn faults_of_text(
    alloc: Global,
    text: &[u8],
    external: &str,
) -> Result<Vec<PlacedFault>, AllocError>
    ensures { IfOk result (λ faults. AreFaultsOf text.now external.now faults.items) }
{
    match read(alloc, text) {
        Ok((tokens, items)) => check_faults(alloc, &tokens, &items, external),
        Err(fault) => match fault {
            ScriptFault::OutOfMemory => Err(AllocError),
            _ => only_fault(alloc, text, fault),
        },
    }
}

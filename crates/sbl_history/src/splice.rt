//! The text of a script with a typed part put into it, so that its comments and layout stay.
ghost use Rattle.std.specs.Prelude.{◌≡◌, IfOk, IfSome, string_bytes};
ghost use Rattle.sbl_history.specs.Splicing.{Reads};

use crate::line_ends::{has_crlf, push_crlf};
use sbl_script::{Part, Script, ScriptFault};
use sbl_source_map::{Excerpt, cut_at_part};
use std::alloc::{AllocError, Global};

/// A text of a script, with the canonical text of the script that it reads as.
#[derive(Drop)]
pub(crate) struct SplicedText {
    pub(crate) text: Vec<u8>,
    pub(crate) canonical: String,
}

/// Appends a typed part, without blanks at its ends. In a text whose lines all end in a carriage return and a line feed, its lines do
/// so, too.
fn push_part(text: &mut Vec<u8>, part: &str, is_crlf: bool) -> Result<(), AllocError> {
    if is_crlf {
        push_crlf(text, part.as_bytes())
    } else {
        text.extend_from_slice(part.as_bytes())
    }
}

/// Returns whether a text begins with the end of a line.
fn begins_with_end(text: &[u8]) -> bool {
    text.first() == Some(&b'\n') || text.starts_with(b"\r\n".as_slice())
}

/// Returns a text that is cut at a part, with another part in its place. The end of a line follows a part that has a comment up to
/// the end of its line.
fn put_in(
    alloc: Global,
    cut: &Excerpt<'_>,
    part: &str,
    is_crlf: bool,
) -> Result<Vec<u8>, AllocError> {
    let part = part.trim();
    let mut new = Vec::from_slice(alloc, cut.before)?;
    push_part(&mut new, part, is_crlf)?;
    if part.contains("//") && !begins_with_end(cut.after) {
        push_part(&mut new, "\n", is_crlf)?;
    }
    new.extend_from_slice(cut.after)?;
    Ok(new)
}

/// Returns the text of a script with a new text in place of a part; `None` if the text has no such part.
fn with_part(
    alloc: Global,
    text: &[u8],
    part: Part<'_>,
    new: &str,
) -> Result<Option<Vec<u8>>, AllocError> {
    let is_crlf = has_crlf(text);
    let Ok(text) = str::from_utf8(text) else {
        return Ok(None);
    };
    match cut_at_part(alloc, text, part)? {
        Some(cut) => Ok(Some(put_in(alloc, &cut, new, is_crlf)?)),
        None => Ok(None),
    }
}

/// Returns the text of a script with a new text in place of a part, if that reads as a script with this external.
///
/// # Errors
///
/// Returns `AllocError` if an allocation fails.
pub(crate) fn splice(
    alloc: Global,
    text: &[u8],
    external: &str,
    part: Part<'_>,
    new: &str,
) -> Result<Option<SplicedText>, AllocError>
    ensures { IfOk result (λ found. IfSome found (λ c. Reads external.now c.text.items (string_bytes c.canonical))) }
{
    let Some(text) = with_part(alloc, text, part, new)? else {
        return Ok(None);
    };
    match Script::parse(alloc, &text, external) {
        Ok(script) => {
            let canonical = script.print(alloc)?;
            script.discard();
            Ok(Some(SplicedText { text, canonical }))
        }
        Err(ScriptFault::OutOfMemory) => Err(AllocError),
        Err(_) => Ok(None),
    }
}

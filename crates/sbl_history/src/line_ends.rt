//! How the lines of a text end.
ghost use Rattle.std.specs.Prelude.{◌≡◌, ◌++◌, OnOk};
ghost use Rattle.sbl_history.specs.LineEnds as spec;

use std::alloc::{AllocError, Global};

/// Returns whether each line feed of a text follows a carriage return, and there is one.
pub fn has_crlf(text: &[u8]) -> bool
    ensures { result ≡ spec.has_crlf text.now }
{
    let mut before = 0u8;
    let mut has_feed = false;
    let mut rest = text;
    while let [byte, after @ ..] = rest {
        if *byte == b'\n' && before != b'\r' {
            return false;
        }
        has_feed = has_feed || *byte == b'\n';
        before = *byte;
        rest = after;
    }
    has_feed
}

/// Appends a text, with a carriage return before each line feed that has none.
///
/// # Errors
///
/// Returns `AllocError` if an allocation fails; then a part of it may be appended.
pub fn push_crlf(to: &mut Vec<u8>, text: &[u8]) -> Result<(), AllocError>
    ensures { OnOk result (to.new.items ≡ to.old.items ++ spec.with_crlf text.now) }
{
    let mut before = 0u8;
    let mut rest = text;
    while let [byte, after @ ..] = rest {
        if *byte == b'\n' && before != b'\r' {
            to.push(b'\r')?;
        }
        to.push(*byte)?;
        before = *byte;
        rest = after;
    }
    Ok(())
}

//! The words of a file.
ghost use Rattle.std.specs.Prelude.{◌≡◌, ◌⊎◌, None, Some, IfOk, IfErr, OnOk, map};
ghost use Rattle.std.specs.Str.{chars};
ghost use Rattle.sbl_input.specs.FileWords as spec;
ghost use Rattle.sbl_io.specs.declared.faults.ServeFault.{ServeFault};

use crate::faults::LoadFault;
use sbl_io::{MAX_LINE, ServeFault, first_line};
use std::alloc::{AllocError, Global};

/// The byte order mark, in UTF-8.
const BYTE_ORDER_MARK: &[u8] = b"\xEF\xBB\xBF";

/// Returns the bytes without a byte order mark at their start.
pub fn without_mark(bytes: &[u8]) -> &[u8]
    ensures { result.now ≡ spec.without_mark bytes.now }
{
    match bytes.strip_prefix(BYTE_ORDER_MARK) {
        Some(rest) => rest,
        None => bytes,
    }
}

/// Returns a line as text. Returns `LineTooLong` if it has more than 65,536 bytes, `NotText` if it is not UTF-8.
pub fn text_line(line: &[u8]) -> Result<&str, ServeFault>
    ensures text { IfOk result (λ text. (text.now ≡ line.now) × (spec.line_fault line.now ≡ None)) }
    ensures fault { IfErr result (λ fault. spec.line_fault line.now ≡ Some fault) }
{
    if line.len() > MAX_LINE {
        return Err(ServeFault::LineTooLong);
    }
    match str::from_utf8(line) {
        Ok(text) => Ok(text),
        Err(_) => Err(ServeFault::NotText),
    }
}

/// Returns the characters of a text. Returns `AllocError` if an allocation fails.
fn characters_of(alloc: Global, text: &str) -> Result<Vec<char>, AllocError>
    ensures { IfOk result (λ word. word.items ≡ chars text.now) }
{
    let mut word = Vec::with_capacity(alloc, text.chars().count())?;
    word.extend(text.chars())?;
    Ok(word)
}

/// Returns the words of a file, one from each line, in order. A byte order mark at the start is left out.
///
/// # Errors
///
/// Returns the fault of the first line that is no word: `LineTooLong` if it has more than 65,536 bytes, and `NotText` if it is
/// not UTF-8. Returns `OutOfMemory` if an allocation fails.
pub fn words_in(alloc: Global, bytes: &[u8]) -> Result<Vec<Vec<char>>, LoadFault>
    ensures words { IfOk result (λ words. map (λ w. w.items) words.items ≡ spec.file_words bytes.now) }
    ensures no_fault { OnOk result (spec.first_line_fault (spec.file_lines bytes.now) ≡ None) }
    ensures fault { IfErr result (λ f. (f ≡ LoadFault.Input ServeFault.OutOfMemory) ⊎ spec.IsLineFault bytes.now f) }
{
    let mut words = Vec::new(alloc);
    let mut rest = without_mark(bytes);
    while let Some((line, after)) = first_line(rest) {
        let text = text_line(line)?;
        words.push(characters_of(alloc, text)?)?;
        rest = after;
    }
    Ok(words)
}

//! Texts that are not UTF-8: how they may be encoded, and how to make them UTF-8.

use crate::characters::push_named_character;
use std::alloc::AllocError;

/// How a text that is not UTF-8 may be encoded.
enum Encoding {
    Gzip,
    Latin1,
    Utf16,
}

/// Returns how a text may be encoded that is not UTF-8.
fn encoding_of(text: &[u8]) -> Encoding {
    match (text.get(0), text.get(1)) {
        (Some(0x1F), Some(0x8B)) => Encoding::Gzip,
        (Some(0xFF), Some(0xFE)) | (Some(0xFE), Some(0xFF)) => Encoding::Utf16,
        _ => Encoding::Latin1,
    }
}

/// Appends what the text may be, and how to make it UTF-8. `name` is the name of its file.
pub(crate) fn push_conversion(
    shown: &mut String,
    text: &[u8],
    name: &str,
) -> Result<(), AllocError> {
    let (guess, command) = match encoding_of(text) {
        Encoding::Gzip => ("If gzip compressed it: ", "gzip -d < "),
        Encoding::Latin1 => ("If it is Latin-1: ", "iconv -f latin1 -t utf-8 "),
        Encoding::Utf16 => ("If it is UTF-16: ", "iconv -f utf-16 -t utf-8 "),
    };
    shown.push_str(guess)?;
    shown.push_str(command)?;
    push_in_shell(shown, name)?;
    shown.push_str(" > NEW")
}

/// Returns whether no character of a name means anything to a shell.
fn is_plain_in_shell(name: &str) -> bool {
    for character in name.chars() {
        let is_sign = matches!(
            character,
            '_' | '@' | '%' | '+' | '=' | ':' | ',' | '.' | '/' | '-'
        );
        if !is_sign && !character.is_ascii_alphanumeric() {
            return false;
        }
    }
    true
}

/// Appends the name of a file as a command of a shell has it.
fn push_in_shell(shown: &mut String, name: &str) -> Result<(), AllocError> {
    let quote = if is_plain_in_shell(name) { "" } else { "'" };
    if name.starts_with('-') {
        shown.push_str("./")?;
    }
    shown.push_str(quote)?;
    for character in name.chars() {
        if character == '\'' {
            shown.push_str("'\"'\"'")?;
        } else {
            push_named_character(shown, character)?;
        }
    }
    shown.push_str(quote)
}

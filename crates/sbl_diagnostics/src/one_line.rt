//! The sentence on a fault, in one line.

use crate::places::spot_at;
use crate::reasons::{begins_sentence, reason};
use crate::sentences::{Faulty, Place, is_blank, push_reason, push_sentence, push_thing};
use sbl_script::Part;
use sbl_source_map::ScriptFault;
use std::alloc::{AllocError, Global};

/// A text that was refused, and what a sentence on a fault of it is about.
#[derive(Clone, Copy)]
pub struct RefusedText<'a> {
    /// The text: a whole script, or what is typed for a part.
    pub text: &'a [u8],
    /// The part, if it is not a whole script.
    pub part: Option<Part<'a>>,
    /// The script whose declarations count.
    pub script: &'a [u8],
    /// The external of the script.
    pub external: &'a str,
}

/// Returns a text with a blank for each end of a line.
fn in_one_line(alloc: Global, text: &str) -> Result<String, AllocError> {
    let mut line = String::new(alloc);
    for character in text.chars() {
        line.push(if character == '\n' { ' ' } else { character })?;
    }
    Ok(line)
}

/// Appends what is at a place and what is wrong with it, without advice.
fn push_short(shown: &mut String, place: Place<'_>) -> Result<(), AllocError> {
    let fault = place.faulty.fault;
    if !begins_sentence(fault) {
        push_thing(shown, place.spot)?;
        shown.push_str(" ")?;
    }
    shown.push_str(reason(fault))
}

/// Appends what is wrong at a place of a text, or with the text if the fault is at no place.
fn push_fault(
    shown: &mut String,
    faulty: Faulty<'_>,
    begin: Option<usize>,
    is_short: bool,
) -> Result<(), AllocError> {
    if faulty.part.is_some() && is_blank(faulty.text) {
        return shown.push_str("the text is empty");
    }
    let Some(begin) = begin else {
        return push_reason(shown, faulty);
    };
    let spot = spot_at(faulty.alloc, faulty.text, begin);
    let place = Place { faulty, spot };
    if is_short {
        push_short(shown, place)
    } else {
        push_sentence(shown, place)
    }
}

/// Returns what is wrong, in one line. `begin` is the byte offset of the fault in the text, if it is at one. A short sentence has no
/// advice, and is made without reading the script. Returns `AllocError` if an allocation fails.
pub fn fault_sentence(
    alloc: Global,
    refused: RefusedText<'_>,
    fault: ScriptFault,
    begin: Option<usize>,
    is_short: bool,
) -> Result<String, AllocError> {
    let faulty = Faulty {
        alloc,
        text: refused.text,
        fault,
        part: refused.part,
        script: refused.script,
        external: refused.external,
    };
    let mut shown = String::new(alloc);
    push_fault(&mut shown, faulty, begin, is_short)?;
    in_one_line(alloc, shown.as_str())
}

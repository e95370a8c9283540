//! The place of a fault in a block that was typed.

use crate::characters::cut;
use crate::places::{Title, fault_of, fault_text, offset_of_byte, push_title, script_fault_text};
use crate::sentences::Faulty;
use sbl_script::{EditFault, Part, Script, ScriptFault};
use sbl_source_map::{cut_at_part, offset_in_block};
use sbl_text::{Kind, Lexer, Token, Word, tokens};
use std::alloc::{AllocError, Global};

/// A block that was refused, and what was in force then.
#[derive(Clone, Copy)]
pub struct TypedBlock<'a> {
    /// The lines of the block.
    pub block: &'a [u8],
    /// The script in force.
    pub script: &'a [u8],
    /// The external of the script.
    pub external: &'a str,
    /// Whether the block may begin as the definition does that it is put into.
    pub takes_heads: bool,
    /// The name of the input that has the block, and the line of the input in which the block begins.
    pub source: Option<(&'a str, usize)>,
}

/// Returns the command of an edit.
fn title_of(alloc: Global, part: Part<'_>) -> Result<String, AllocError> {
    match part {
        Part::Routine(name) => format!(in alloc; "routine {}", cut(alloc, name)?),
        Part::Among(name, k) => format!(in alloc; "among {} {k}", cut(alloc, name)?),
        Part::Grouping(name) => format!(in alloc; "grouping {}", cut(alloc, name)?),
    }
}

/// Returns where a token ends if it is this word.
fn end_if(token: Option<&Token<'_>>, word: &str) -> Option<usize> {
    match token {
        Some(token) if token.text == word => Some(token.end),
        _ => None,
    }
}

/// Returns where a text begins after `define NAME as`, or after `define NAME` for a grouping; 0 if it does not begin so.
fn head_end(tokens: &[Token<'_>], part: Part<'_>) -> usize {
    let (name, is_routine) = match part {
        Part::Routine(name) => (name, true),
        Part::Grouping(name) => (name, false),
        Part::Among(_, _) => return 0,
    };
    if end_if(tokens.first(), "define").is_none() {
        return 0;
    }
    let Some(end) = end_if(tokens.get(1), name) else {
        return 0;
    };
    if !is_routine {
        return end;
    }
    end_if(tokens.get(2), "as").unwrap_or(0)
}

/// Returns the first three tokens of a text, up to one that is wrong.
fn first_tokens(alloc: Global, text: &str) -> Result<Vec<Token<'_>>, AllocError> {
    let mut found = Vec::new(alloc);
    let mut lexer = Lexer::new(alloc, text);
    for _ in 0..3u8 {
        match lexer.next() {
            Ok(Some(token)) => found.push(token)?,
            _ => return Ok(found),
        }
    }
    Ok(found)
}

/// Returns the fault with which an edit is refused, if it is refused.
fn edit_fault(alloc: Global, script: &Script, part: Part<'_>, text: &str) -> Option<EditFault> {
    match script.with(alloc, part, text) {
        Ok(script) => {
            script.discard();
            None
        }
        Err(fault) => Some(fault),
    }
}

/// Returns how many words `among` a text has.
fn among_count(alloc: Global, text: &[u8]) -> usize {
    let Ok(text) = str::from_utf8(text) else {
        return 0;
    };
    let Ok(tokens) = tokens(alloc, text) else {
        return 0;
    };
    let mut count: usize = 0;
    for token in &tokens {
        if token.kind == Kind::Word(Word::Among) {
            count = count.saturating_add(1);
        }
    }
    count
}

/// Returns a number of amongs in words.
fn amongs(alloc: Global, count: usize) -> Result<String, AllocError> {
    if count == 1 {
        return format!(in alloc; "1 among");
    }
    format!(in alloc; "{count} amongs")
}

/// Returns the line on a text that has another number of amongs than what it replaces.
fn count_text(
    alloc: Global,
    title: Title<'_>,
    new: &[u8],
    old: &[u8],
) -> Result<String, AllocError> {
    let mut shown = String::new(alloc);
    push_title(alloc, &mut shown, title, None)?;
    let amongs = amongs(alloc, among_count(alloc, new))?;
    let had = among_count(alloc, old);
    let text = format!(in alloc;
        "the text has {amongs}, and the among that it replaces has {had}, those inside it counted"
    )?;
    shown.push_str(text.as_str())?;
    Ok(shown)
}

/// Returns the lines on the fault of an edit of a part of this script, if the edit has a fault. `rest` is the text of the part, and
/// begins at the offset `skipped` of the block.
fn fault_in_part<'x>(
    alloc: Global,
    typed: TypedBlock<'x>,
    title: Title<'_>,
    script: &Script,
    part: Part<'x>,
    skipped: usize,
) -> Result<Option<String>, AllocError> {
    let Ok(rest) = str::from_utf8(typed.block.get(skipped..).unwrap_or(&[])) else {
        return Ok(None);
    };
    let (Some(fault), Ok(text)) = (
        edit_fault(alloc, script, part, rest),
        str::from_utf8(typed.script),
    ) else {
        return Ok(None);
    };
    let Some(cut) = cut_at_part(alloc, text, part)? else {
        return Ok(None);
    };
    let fault = match fault {
        EditFault::Script(fault) => fault,
        EditFault::AmongCount => return Ok(Some(count_text(alloc, title, typed.block, cut.part)?)),
        _ => return Ok(None),
    };
    let begin = offset_in_block(alloc, cut.before, rest.as_bytes(), cut.after, fault)?;
    let begin = begin.map(|offset| offset.saturating_add(skipped));
    Ok(Some(fault_text(title, faulty_of(alloc, typed, part, fault), begin)?))
}

/// Returns the block as a text with this fault.
fn faulty_of<'a>(
    alloc: Global,
    typed: TypedBlock<'a>,
    part: Part<'a>,
    fault: ScriptFault,
) -> Faulty<'a> {
    Faulty {
        alloc,
        text: typed.block,
        fault,
        part: Some(part),
        script: typed.script,
        external: typed.external,
    }
}

/// Returns the lines on the fault of a block that was to replace this part, if it has one. Returns `AllocError` if an allocation
/// fails.
pub fn part_text<'x>(
    alloc: Global,
    typed: TypedBlock<'x>,
    part: Part<'x>,
) -> Result<Option<String>, AllocError> {
    let title = title_of(alloc, part)?;
    let title = Title {
        title: title.as_str(),
        source: typed.source,
    };
    let Ok(text) = str::from_utf8(typed.block) else {
        let faulty = faulty_of(alloc, typed, part, ScriptFault::NotUtf8);
        let begin = offset_of_byte(typed.block);
        return Ok(Some(fault_text(title, faulty, begin)?));
    };
    let skipped = if typed.takes_heads {
        head_end(&first_tokens(alloc, text)?, part)
    } else {
        0
    };
    let Ok(script) = Script::parse(alloc, typed.script, typed.external) else {
        return Ok(None);
    };
    let shown = fault_in_part(alloc, typed, title, &script, part, skipped);
    script.discard();
    shown
}

/// Returns the lines on the fault of a block that was to replace the whole script, if it has one. Returns `AllocError` if an
/// allocation fails.
pub fn whole_text(alloc: Global, typed: TypedBlock<'_>) -> Result<Option<String>, AllocError> {
    match fault_of(alloc, typed.block, typed.external) {
        Some(fault) => Ok(Some(script_fault_text(
            alloc,
            "replace",
            typed.block,
            typed.external,
            fault,
        )?)),
        None => Ok(None),
    }
}

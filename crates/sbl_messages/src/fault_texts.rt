//! What to say on a fault beside its line: where it is, or what is missing.

ghost use Rattle.std.specs.Prelude.{◌≡◌, None, Option, String, false};

use crate::blocks::split_at_point;
use crate::counts::count_and_word;
use crate::failures::Failure;
use crate::run_files::RunFiles;
use sbl_bench::{EditFault, MAX_WORD_LENGTH};
use sbl_diagnostics::{
    BadLine, LineRole, STANDARD_INPUT, bad_line_text, offset_of_byte, push_named, script_fault_text,
};
use sbl_input::{read_script, without_mark};
use sbl_source_map::position_of;
use snowbench::{
    Device, FileFault, FilesFault, Lines, LoadFault, ScriptFault, ServeFault, Verb, Wanted,
    long_line, overlong_line, script_text,
};
use std::alloc::{AllocError, Global};

/// What is missing if an input ends inside a block of commands.
const BLOCK_HAS_NO_END: &str =
    "  the input ends inside a block: a line that is a single point ends it";

/// What there is to say on a fault, if there is something. It is an error if an allocation fails.
pub(crate) type FaultText = Result<Option<String>, AllocError>;

/// Returns where the fault of a line is, and what to do. `name` is the name of the input, and `bytes` are those of the input or of the line.
fn placed_text(
    alloc: Global,
    name: &str,
    placed: FileFault,
    bytes: &[u8],
    role: LineRole,
) -> FaultText {
    let Some(line) = placed.line else {
        return Ok(None);
    };
    let problem = match placed.fault {
        LoadFault::Input(ServeFault::NotText) => BadLine::NotText(bytes),
        LoadFault::Input(ServeFault::LineTooLong) => BadLine::TooLong(role),
        LoadFault::Open(EditFault::WordTooLong) => BadLine::LongWord(MAX_WORD_LENGTH),
        _ => return Ok(None),
    };
    bad_line_text(alloc, name, line, problem).map(Some)
}

/// Returns a fault, and the first line that may have it.
fn place_in(bytes: &[u8], fault: LoadFault) -> FileFault {
    let line = match fault {
        LoadFault::Input(ServeFault::NotText) => match offset_of_byte(bytes) {
            Some(offset) => Some(position_of(bytes, offset).line as u64),
            None => None,
        },
        LoadFault::Input(ServeFault::LineTooLong) => overlong_line(bytes),
        LoadFault::Open(EditFault::WordTooLong) => long_line(bytes),
        _ => None,
    };
    FileFault { line, fault }
}

/// Returns the lines on a fault of a script.
pub(crate) fn fault_of_script(
    alloc: Global,
    name: &str,
    text: &[u8],
    external: &str,
    fault: ScriptFault,
) -> FaultText {
    match fault {
        ScriptFault::OutOfMemory => Ok(None),
        _ => script_fault_text(alloc, name, text, external, fault).map(Some),
    }
}

/// Returns that a file has more words than a vocabulary may have.
fn full_text(alloc: Global, name: &str) -> Result<String, AllocError> {
    let mut shown = String::new(alloc);
    push_named(&mut shown, name)?;
    shown.push_str(": more than 100,000 words, which no vocabulary may have")?;
    Ok(shown)
}

/// Returns what there is to say on the fault of a run over files.
pub(crate) fn files_fault_text(
    alloc: Global,
    external: &str,
    files: &RunFiles<'_>,
    fault: FilesFault,
) -> FaultText {
    let (script, words, rest) = (&files.script, &files.words, &files.rest);
    match fault {
        FilesFault::Script(placed) => match placed.fault {
            LoadFault::Script(fault) => {
                let text = script_text(alloc, &script.bytes)?;
                fault_of_script(alloc, script.name, &text, external, fault)
            }
            _ => placed_text(alloc, script.name, placed, &script.bytes, LineRole::Script),
        },
        FilesFault::Words(placed) => match placed.fault {
            LoadFault::Open(EditFault::Full) => full_text(alloc, words.name).map(Some),
            _ => placed_text(alloc, words.name, placed, &words.bytes, LineRole::Word),
        },
        FilesFault::Stems(placed) => {
            placed_text(alloc, rest.name, placed, &rest.bytes, LineRole::Other)
        }
        FilesFault::Run(ServeFault::Cut) => String::from_str(alloc, BLOCK_HAS_NO_END).map(Some),
        FilesFault::Run(_) => {
            let is_of_words = fault == FilesFault::Run(ServeFault::NotText)
                && offset_of_byte(&words.bytes).is_some();
            let file = if is_of_words { words } else { rest };
            let placed = place_in(&file.bytes, LoadFault::from(fault));
            placed_text(alloc, file.name, placed, &file.bytes, LineRole::Other)
        }
    }
}

/// Returns what there is to say on the fault of a file of words. `name` is the name of the file.
pub(crate) fn words_fault_text(
    alloc: Global,
    name: &str,
    words: &[u8],
    fault: LoadFault,
) -> FaultText {
    if fault == LoadFault::Open(EditFault::Full) {
        return full_text(alloc, name).map(Some);
    }
    let words = without_mark(words);
    placed_text(alloc, name, place_in(words, fault), words, LineRole::Word)
}

/// Returns the failure of a run over standard input. `input` are its first bytes, and `rows` is the number of rows that were written. There is
/// something to say on it only if places are shown. `is_closed` is whether the reader of the output has closed it.
pub fn input_failure(
    alloc: Global,
    wanted: &Wanted,
    input: &[u8],
    fault: LoadFault,
    rows: u64,
    is_closed: bool,
) -> Failure
    ensures places { wanted.now.options.shows_places ≡ false → result ≡ Failure.Fault fault None }
    ensures open { is_closed ≡ false → (said : Option (String Global)) × (result ≡ Failure.Fault fault said) }
{
    if !wanted.options.shows_places {
        return Failure::Fault(fault, None);
    }
    let text = input_fault_text(alloc, wanted, input, fault, rows);
    Failure::of_fault(fault, is_closed, text)
}

/// Returns what there is to say on the fault of a run over standard input. `input` are its first bytes, and lines are counted from its
/// beginning. `rows` is the number of rows that were written.
fn input_fault_text(
    alloc: Global,
    wanted: &Wanted,
    input: &[u8],
    fault: LoadFault,
    rows: u64,
) -> FaultText {
    match fault {
        LoadFault::Input(ServeFault::Cut) => {
            return String::from_str(alloc, cut_text(wanted.verb, input)).map(Some);
        }
        LoadFault::Script(fault) => {
            return input_script_text(alloc, wanted.external.as_str(), input, fault);
        }
        _ => {}
    }
    let placed = place_in_input(input, fault);
    let is_of_word = matches!(
        fault,
        LoadFault::Input(ServeFault::NotText)
            | LoadFault::Input(ServeFault::LineTooLong)
            | LoadFault::Open(EditFault::WordTooLong)
    );
    let is_long_line = fault == LoadFault::Input(ServeFault::LineTooLong) && placed.line.is_some();
    if wanted.verb == Verb::Filter && is_of_word && !is_long_line {
        let rows = count_and_word(alloc, rows, "row", "rows")?;
        return format!(in alloc; "  it is the word after {rows}").map(Some);
    }
    let role = role_in(input, placed.line.unwrap_or(0));
    placed_text(alloc, STANDARD_INPUT, placed, input, role)
}

/// Returns the lines on a fault of the script at the beginning of an input.
fn input_script_text(alloc: Global, external: &str, input: &[u8], fault: ScriptFault) -> FaultText {
    let mut lines = Lines::new(alloc, Device::new(input))?;
    match read_script(&mut lines) {
        Ok(text) => fault_of_script(alloc, STANDARD_INPUT, &text, external, fault),
        Err(_) => Ok(None),
    }
}

/// Returns a fault, and the first line of an input that may have it. A word is after the script.
fn place_in_input(input: &[u8], fault: LoadFault) -> FileFault {
    let LoadFault::Open(_) = fault else {
        return place_in(input, fault);
    };
    let line = match split_at_point(input) {
        Some((before, words)) => match place_in(words, fault).line {
            Some(line) => Some(before.saturating_add(line)),
            None => None,
        },
        None => None,
    };
    FileFault { line, fault }
}

/// Returns what a line of an input is.
fn role_in(input: &[u8], line: u64) -> LineRole {
    let Some((script_end, words)) = split_at_point(input) else {
        return LineRole::Script;
    };
    if line < script_end {
        return LineRole::Script;
    }
    match split_at_point(words) {
        Some((words_end, _)) if script_end.saturating_add(words_end) < line => LineRole::Other,
        _ => LineRole::Word,
    }
}

/// Returns what an input lacks that is cut inside a block.
fn cut_text(verb: Verb, input: &[u8]) -> &'static str {
    if split_at_point(input).is_none() {
        return "  the input ends inside the script: a line that is a single point ends the script";
    }
    if verb == Verb::Check {
        return "  the input ends inside the words: a line that is a single point ends them";
    }
    BLOCK_HAS_NO_END
}

/// Returns what to say about an input that is not read to its end, because a point is missing or is one too many.
pub fn hint(verb: Verb, input: &[u8]) -> Option<&'static str> {
    let (_, words) = split_at_point(input)?;
    match (verb, split_at_point(words)) {
        (Verb::Session, None) => Some(
            "snowbench: no line is read as a command: a line that is a single point ends the words",
        ),
        (Verb::Stem, Some((_, rest))) if has_text(rest) => {
            Some("snowbench: what follows the words is not read: stem takes no commands")
        }
        _ => None,
    }
}

/// Returns whether a byte is no end of a line.
fn has_text(text: &[u8]) -> bool {
    for byte in text {
        if *byte != b'\n' && *byte != b'\r' {
            return true;
        }
    }
    false
}

//! Edits on request of a session.
ghost use Rattle.std.specs.Prelude.{◌≡◌, ◌≤◌, ℕ, List, None, Some, IfErr, OnOk, true, false, length, string_bytes, take};
ghost use Rattle.std.specs.Str.{chars, is_utf8};
ghost use Rattle.sbl_bench.specs.KeptRuns.{contents_of};
ghost use Rattle.sbl_bench.specs.Edits as edits;
ghost use Rattle.sbl_script.specs.Parts.{view_part};
ghost use Rattle.sbl_sessions.specs.Answers as spec;
ghost use Rattle.sbl_reports.specs.Block.{HoldsText};
ghost use Rattle.sbl_sessions.specs.CommandViews.{IsEditAnswer, IsTextAnswer, KeepsLine};
ghost use Rattle.sbl_sessions.specs.Commands.{block_command};
ghost use Rattle.sbl_sessions.specs.EditFaults.{fault_in};

use crate::replies::{BAD_COMMAND, edit_text};
use crate::session_commands::part_of;
use crate::watching::RefusedEdit;
use sbl_bench::laws::words_fit;
use sbl_bench::{Bench, EditFault, MAX_WORD_LENGTH};
use sbl_reports::{BlockFault, BlockText};
use sbl_script::{Part, ScriptFault};
use std::alloc::AllocError;

/// The maximum number of characters of a word that are read: one more than a word of a vocabulary may have.
pub(crate) const MAX_LOOKED_AT: usize = MAX_WORD_LENGTH + 1;

/// Writes the first characters of a word into `room`, as many as fit, and returns how many. Does not allocate.
pub(crate) fn first_characters(word: &str, room: &mut [char]) -> usize
    ensures few { result ≤ length room.new }
    ensures first { take result room.new ≡ take (length room.new) (chars word.now) }
{
    let mut count = 0;
    for c in word.chars() {
        if count == room.len() {
            return count;
        }
        room[count] = c;
        count += 1;
    }
    count
}

/// Adds a word, and returns the reply. The first characters determine whether a word is too long, so this makes no copy of the
/// whole word, and nothing is allocated before the edit itself.
pub(crate) fn add_word(bench: &mut Bench, word: &str) -> &'static str
    ensures { IsEditAnswer (contents_of bench.old) (edits.Add (chars word.now)) result.now (contents_of bench.new) }
{
    let mut room = ['\0'; MAX_LOOKED_AT];
    let count = first_characters(word, &mut room);
    edit_text(bench.add(&room[..count]))
}

/// Removes a word, and returns the reply. A word that is too long is not in the vocabulary, and neither is the text of its
/// first characters. Does not allocate.
pub(crate) fn remove_word(bench: &mut Bench, word: &str) -> &'static str
    ensures { IsEditAnswer (contents_of bench.old) (edits.Remove (chars word.now)) result.now (contents_of bench.new) }
{
    words_fit(bench);
    let mut room = ['\0'; MAX_LOOKED_AT];
    let count = first_characters(word, &mut room);
    edit_text(bench.remove(&room[..count]))
}

/// The reply to an edit of the script, and the edit if it was refused.
#[derive(Drop)]
pub(crate) struct EditReply {
    pub(crate) text: &'static str,
    pub(crate) refused: Option<RefusedEdit>,
}

impl EditReply {
    /// Returns the reply alone.
    fn of_text(text: &'static str) -> EditReply
        ensures { result.text.now ≡ text.now }
    {
        EditReply {
            text,
            refused: None,
        }
    }
}

/// Replaces a part by this text. A text that is not UTF-8 is refused for that.
fn replace(bench: &mut Bench, part: Part<'_>, text: &[u8]) -> Result<(), EditFault>
    ensures text { is_utf8 text.now ≡ true → IsEditAnswer (contents_of bench.old) (edits.Replace (view_part part.entry) text.now) (spec.edit_text (fault_in result)) (contents_of bench.new) }
    ensures bytes { is_utf8 text.now ≡ false → (spec.edit_text (fault_in result) ≡ spec.edit_text (Some (EditFault.Script ScriptFault.NotUtf8))) × (contents_of bench.new ≡ contents_of bench.old) }
{
    let Ok(text) = str::from_utf8(text) else {
        return Err(EditFault::Script(ScriptFault::NotUtf8));
    };
    bench.replace(part, text)
}

/// Makes the edit of the script that a line and its block ask for, and returns the reply. A bad line is refused, whatever its
/// block is. Otherwise a fault of the block comes before any other fault.
pub(crate) fn edit_script(
    bench: &mut Bench,
    kept: Result<Option<String>, AllocError>,
    block: BlockText,
) -> EditReply
    ensures { (line : List ℕ) (ls : List (List ℕ)) → KeepsLine kept line → HoldsText block ls
        → IsTextAnswer (contents_of bench.old) (block_command line ls) result.text.now (contents_of bench.new) }
{
    match kept {
        Ok(Some(line)) => edit_named(bench, line, block),
        Ok(None) => EditReply::of_text(BAD_COMMAND),
        Err(_) => EditReply::of_text(edit_text(Err(EditFault::OutOfMemory))),
    }
}

fn edit_named(bench: &mut Bench, line: String, block: BlockText) -> EditReply
    ensures { (ls : List (List ℕ)) → HoldsText block ls
        → IsTextAnswer (contents_of bench.old) (block_command (string_bytes line) ls) result.text.now (contents_of bench.new) }
{
    let Some(part) = part_of(line.as_str()) else {
        return EditReply::of_text(BAD_COMMAND);
    };
    match block.whole() {
        Ok(text) => {
            let edited = replace(bench, part, &text);
            EditReply {
                text: edit_text(edited),
                refused: refused_edit(line, text, edited),
            }
        }
        Err(BlockFault::TooLong) => {
            EditReply::of_text(edit_text(Err(EditFault::Script(ScriptFault::ScriptTooLong))))
        }
        Err(BlockFault::OutOfMemory) => {
            EditReply::of_text(edit_text(Err(EditFault::OutOfMemory)))
        }
    }
}

/// Returns the edit that a line and a text ask for, if it was refused.
fn refused_edit(line: String, text: Vec<u8>, edited: Result<(), EditFault>) -> Option<RefusedEdit>
    ensures refused { IfErr edited (λ fault. result ≡ Some (record { line = line; text = text; fault = fault })) }
    ensures made { OnOk edited (result ≡ None) }
{
    match edited {
        Ok(()) => None,
        Err(fault) => Some(RefusedEdit { line, text, fault }),
    }
}

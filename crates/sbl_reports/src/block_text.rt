//! The text of a block: the lines up to a line `.`.
ghost use Rattle.std.specs.Prelude.{◌≡◌, ◌+◌, ◌++◌, [], ◌∷◌, List, ℕ, OnOk, IfOk, IfErr, None, Some, length, min, nat_le};
ghost use Rattle.std.specs.Io.KnownBytes.{Keeps};
ghost use Rattle.sbl_reports.specs.Block.{HasText, HoldsText, KeepsText, ReadsBlock, made_text, max_lines, max_script};
ghost use Rattle.sbl_io.specs.Faults.{serve_fault_of};
ghost use Rattle.sbl_io.specs.HeldInput.{Reading, input_of};
ghost use Rattle.sbl_io.specs.LinesOf.{lines_of};
ghost use Rattle.sbl_io.specs.declared.faults.LineFault.{LineFault};

use sbl_io::{Lines, ServeFault, Source, first_line};
use sbl_script::MAX_SCRIPT;
use std::alloc::{AllocError, Global};

/// Why a block that was read to its end has no text.
#[derive(Clone, Copy, Debug, PartialEq, Eq)]
pub enum BlockFault {
    /// The text has more than 1,048,576 bytes.
    TooLong,
    /// An allocation failed, and the text is not too long.
    OutOfMemory,
}

/// The text so far.
#[derive(Drop)]
pub struct BlockText {
    kept: KeptText,
    /// The number of its lines.
    lines: u64,
}

/// What is kept of a text. After a failed allocation its bytes are still counted: a text that gets too long is refused for that,
/// whatever memory there was.
#[derive(Drop)]
enum KeptText {
    /// The text.
    Whole(Vec<u8>),
    /// An allocation failed. The number of bytes of the text.
    Counted(usize),
    /// The text has more than 1,048,576 bytes.
    TooLong,
}

impl BlockText {
    /// Returns the text of no lines.
    fn new(alloc: Global) -> BlockText
        ensures { HoldsText result [] }
    {
        BlockText {
            kept: KeptText::Whole(Vec::new(alloc)),
            lines: 0,
        }
    }

    /// Appends a line and a line feed.
    fn push_line(&mut self, line: &[u8])
        ensures { (lines : List (List ℕ)) → HoldsText self.old lines → HoldsText self.new (lines ++ line.now ∷ []) }
    {
        self.kept.push_line(line);
        self.lines = self.lines.saturating_add(1);
    }

    /// Returns the number of lines, without the line `.`; the greatest `u64` if there are more.
    pub fn line_count(&self) -> u64
        ensures { (lines : List (List ℕ)) → HoldsText self.now lines → result ≡ min (length lines) max_lines }
    {
        self.lines
    }

    /// Returns the text, or the fault: `TooLong` exactly if the text is too long, whatever memory there was.
    pub fn whole(self) -> Result<Vec<u8>, BlockFault>
        ensures text { IfOk result (λ text. (lines : List (List ℕ)) → HoldsText self lines → HasText None text.items lines) }
        ensures fault { IfErr result (λ fault. (lines : List (List ℕ)) → HoldsText self lines → HasText (Some fault) [] lines) }
    {
        match self.kept {
            KeptText::Whole(bytes) => Ok(bytes),
            KeptText::Counted(_) => Err(BlockFault::OutOfMemory),
            KeptText::TooLong => Err(BlockFault::TooLong),
        }
    }
}

impl KeptText {
    /// Appends a line and a line feed.
    fn push_line(&mut self, line: &[u8])
        ensures { (lines : List (List ℕ)) → KeepsText self.old lines → KeepsText self.new (lines ++ line.now ∷ []) }
    {
        match self {
            KeptText::Whole(bytes) => {
                let size = bytes.len();
                if !fits(size, line) {
                    *self = KeptText::TooLong;
                } else if push_ended(bytes, line).is_err() {
                    *self = KeptText::Counted(size + line.len() + 1);
                }
            }
            KeptText::Counted(size) => {
                if fits(*size, line) {
                    *size += line.len() + 1;
                } else {
                    *self = KeptText::TooLong;
                }
            }
            KeptText::TooLong => {}
        }
    }
}

/// Returns whether a text of this many bytes is not too long with a line and a line feed more.
fn fits(size: usize, line: &[u8]) -> bool
    ensures { result ≡ nat_le (size + (length line.now + 1)) max_script }
{
    line.len() < MAX_SCRIPT && size < MAX_SCRIPT - line.len()
}

/// Appends a line and a line feed. Returns `AllocError` if an allocation fails.
fn push_ended(bytes: &mut Vec<u8>, line: &[u8]) -> Result<(), AllocError>
    ensures { OnOk result (bytes.new.items ≡ bytes.old.items ++ (line.now ++ 10 ∷ [])) }
{
    bytes.extend_from_slice(line)?;
    bytes.push(b'\n')?;
    Ok(())
}

/// Returns the text of the lines of a file: each without the carriage return at its end, and followed by a line feed. Returns
/// `AllocError` if an allocation fails.
pub fn text_of_lines(alloc: Global, bytes: &[u8]) -> Result<Vec<u8>, AllocError>
    ensures { IfOk result (λ text. text.items ≡ made_text (lines_of bytes.now)) }
{
    let mut text = Vec::new(alloc);
    let mut rest = bytes;
    while let Some((line, after)) = first_line(rest) {
        push_ended(&mut text, line)?;
        rest = after;
    }
    Ok(text)
}

/// Reads the text of a block, up to and including its line `.`, even if the block has no text. Returns `Cut` if the input ends
/// before that line, and `Read` and `LineTooLong` as the lines return them.
pub fn read_block<R: Source + Drop>(lines: &mut Lines<R>) -> Result<BlockText, ServeFault>
    ensures reads { lines.old.fault ≡ None → ReadsBlock (input_of R.left lines.old) (input_of R.left lines.new) result }
    ensures ready { OnOk result (lines.old.fault ≡ None) }
    ensures again { (fault : LineFault) → lines.old.fault ≡ Some fault → (result ≡ Err (serve_fault_of fault)) × Keeps (input_of R.left lines.old) (input_of R.left lines.new) }
    ensures reading { Reading R.left R.tally lines.old lines.new result }
{
    let mut text = BlockText::new(lines.alloc());
    while lines.next_line()? {
        if lines.line() == b".".as_slice() {
            return Ok(text);
        }
        text.push_line(lines.line());
    }
    Err(ServeFault::Cut)
}

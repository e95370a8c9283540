//! The lines of a reader, in buffers of fixed size.
ghost use Rattle.std.specs.Prelude.{◌≡◌, ◌≢◌, ◌+◌, ◌≤◌, ◌<◌, ◌⊎◌, [], ℕ, List, Option, vec_len, vec_capacity, OnOk, OnErr, IfOk, IfErr, MatchOption, Some, None, Ok, Err, true, false, length, min, slice_index, IsSome};
ghost use Rattle.std.specs.Io.KnownBytes.{Consumes, IsAtEnd, Keeps};
ghost use Rattle.std.specs.Str.Lines.{strip_carriage_return};
ghost use Rattle.sbl_io.specs.LinesOf.{max_line};

use crate::devices::{MAX_TRIES, Source, Stop};
use crate::faults::LineFault;
use crate::text_lines::first_feed;
use std::alloc::{AllocError, Global};

/// The greatest length of a line in bytes, without its line end (our own choice).
pub const MAX_LINE: usize = 65_536;

/// The greatest number of reads of one reader, if no other is given (our own choice).
const MAX_READS: u64 = 1_099_511_627_776;

/// The size of the buffer for a read in bytes (our own choice).
const CHUNK: usize = 4_096;

/// How a line ended.
#[derive(Clone, Copy, Debug, PartialEq, Eq)]
enum LineEnd {
    /// At a line feed.
    Feed,
    /// At the end of input.
    Input,
    /// Not at all: the line has too many bytes.
    Beyond,
}

/// The lines of a reader. A line ends at a line feed or at the end of input; one carriage return before the end is
/// dropped.
#[derive(Drop)]
pub struct Lines<R> {
    alloc: Global,
    reader: R,
    chunk: Vec<u8>,
    at: usize,
    end: usize,
    line: Vec<u8>,
    reads_left: u64,
    ended: bool,
    fault: Option<LineFault>,
    ghost in_order: { at ≤ end },
    ghost in_chunk: { end ≤ vec_len chunk },
    ghost whole: { vec_len chunk ≡ 4096 },
    ghost room: { max_line + 1 ≤ vec_capacity line },
}

impl<R: Source + Drop> Lines<R> {
    ghost use Rattle.sbl_io.specs.Devices.{IsUnused, max_count};
    ghost use Rattle.sbl_io.specs.HeldInput.{fuel_of, has_feed, held_of, line_of, input_of, max_reads, reads_bound, BeginsLong, BreaksOff, HasCause, HoldsLine, InTime, IsDrained, KeepsTime, StaysEnded, TakesFeeds, GivesLine};
    ghost use Rattle.sbl_io.specs.inside.LineSteps.{AsksInTime, TakesByte, TakesLine, NoFeed};

    /// Returns the lines of `reader`, which is read at most 1,099,511,627,776 times. Allocates all buffers. Returns
    /// `AllocError` if an allocation fails.
    pub fn new(alloc: Global, reader: R) -> Result<Lines<R>, AllocError>
        ensures input { IfOk result (λ lines. input_of R.left lines ≡ R.left reader) }
        ensures fault { IfOk result (λ lines. lines.fault ≡ None) }
        ensures bound { IfOk result (λ lines. reads_bound R.tally lines ≡ min ((R.tally reader).reads + max_reads) max_count) }
        ensures tally { IfOk result (λ lines. R.tally lines.reader ≡ R.tally reader) }
        ensures in_time { IsUnused (R.tally reader) → IfOk result (λ lines. InTime R.tally lines) }
    {
        Lines::with_reads(alloc, reader, MAX_READS)
    }

    /// Returns the lines of `reader`, which is read at most `most` times. Allocates all buffers. Returns `AllocError` if
    /// an allocation fails.
    pub fn with_reads(alloc: Global, reader: R, most: u64) -> Result<Lines<R>, AllocError>
        ensures input { IfOk result (λ lines. input_of R.left lines ≡ R.left reader) }
        ensures fault { IfOk result (λ lines. lines.fault ≡ None) }
        ensures bound { IfOk result (λ lines. reads_bound R.tally lines ≡ min ((R.tally reader).reads + most) max_count) }
        ensures tally { IfOk result (λ lines. R.tally lines.reader ≡ R.tally reader) }
        ensures in_time { IsUnused (R.tally reader) → IfOk result (λ lines. InTime R.tally lines) }
    {
        let chunk = vec![in alloc; 0u8; CHUNK]?;
        let line = Vec::with_capacity(alloc, MAX_LINE + 1)?;
        Ok(Lines {
            alloc,
            reader,
            chunk,
            at: 0,
            end: 0,
            line,
            reads_left: most,
            ended: false,
            fault: None,
        })
    }

    /// Returns the allocator of the buffers.
    pub fn alloc(&self) -> Global {
        self.alloc
    }

    /// Returns the last line that was read, without its line end.
    pub fn line(&self) -> &[u8]
        ensures { result.now ≡ line_of self.now }
    {
        self.line.as_slice()
    }

    /// Tells whether the bytes that were read and not taken have a whole line, up to its line feed. Then `next_line` returns that line
    /// and reads nothing.
    pub fn holds_line(&self) -> bool
        ensures { result ≡ has_feed (held_of self.now) }
    {
        self.chunk[self.at..self.end].contains(&b'\n')
    }

    /// Reads more bytes into the chunk, after all bytes in it were used. It reads none only at the end of input. After
    /// a read has returned the end, the reader is not read again. Returns `Read` if the reader fails or a limit is
    /// reached.
    fn fill(&mut self) -> Result<(), LineFault>
        requires { self.old.at ≡ self.old.end }
        ensures input { Keeps (input_of R.left self.old) (input_of R.left self.new) }
        ensures end { OnOk result (self.new.at ≡ self.new.end → IsAtEnd (input_of R.left self.new)) }
        ensures line { line_of self.new ≡ line_of self.old }
        ensures fault { self.new.fault ≡ self.old.fault }
        ensures drained { OnErr result (IsDrained self.new) }
        ensures fuel { fuel_of self.new ≤ fuel_of self.old }
        ensures later { (R.tally self.old.reader).failures ≤ (R.tally self.new.reader).failures }
        ensures stays { StaysEnded self.old self.new }
        ensures told { OnOk result (self.new.at ≡ self.new.end → self.new.ended ≡ true) }
        ensures steady { OnOk result ((R.tally self.new.reader).failures ≡ (R.tally self.old.reader).failures) }
        ensures bound { reads_bound R.tally self.new ≡ reads_bound R.tally self.old }
        ensures why { IfErr result (λ fault. (fault ≡ LineFault.Read) × HasCause R.tally self.old self.new) }
        ensures asks { AsksInTime R.tally self.old self.new }
        ensures rested { OnOk result ((R.tally self.old.reader).interruptions ≡ 0 → (R.tally self.new.reader).interruptions ≡ 0) }
    {
        if self.ended {
            return Ok(());
        }
        for _ in 0..MAX_TRIES {
            if self.reads_left == 0 {
                return Err(LineFault::Read);
            }
            self.reads_left -= 1;
            match self.reader.read(&mut self.chunk) {
                Ok(n) => {
                    self.at = 0;
                    self.end = n;
                    self.ended = n == 0;
                    return Ok(());
                }
                Err(Stop::Failed) => return Err(LineFault::Read),
                Err(Stop::Interrupted) => {}
            }
        }
        Err(LineFault::Read)
    }

    /// Returns the next byte, or `None` at the end of input. Returns `Read` if the reader fails or a limit is reached.
    fn next_byte(&mut self) -> Result<Option<u8>, LineFault>
        ensures byte { IfOk result (λ o. TakesByte (input_of R.left self.old) (input_of R.left self.new) o) }
        ensures err { OnErr result (Keeps (input_of R.left self.old) (input_of R.left self.new)) }
        ensures drained { OnErr result (IsDrained self.new) }
        ensures line { line_of self.new ≡ line_of self.old }
        ensures fault { self.new.fault ≡ self.old.fault }
        ensures fuel { fuel_of self.new ≤ fuel_of self.old }
        ensures falls { IfOk result (λ o. MatchOption o Unit (λ b. fuel_of self.new < fuel_of self.old)) }
        ensures later { (R.tally self.old.reader).failures ≤ (R.tally self.new.reader).failures }
        ensures stays { StaysEnded self.old self.new }
        ensures told { IfOk result (λ o. MatchOption o (self.new.ended ≡ true) (λ b. Unit)) }
        ensures steady { OnOk result ((R.tally self.new.reader).failures ≡ (R.tally self.old.reader).failures) }
        ensures bound { reads_bound R.tally self.new ≡ reads_bound R.tally self.old }
        ensures why { IfErr result (λ fault. (fault ≡ LineFault.Read) × HasCause R.tally self.old self.new) }
        ensures asks { AsksInTime R.tally self.old self.new }
        ensures rested { OnOk result ((R.tally self.old.reader).interruptions ≡ 0 → (R.tally self.new.reader).interruptions ≡ 0) }
        ensures held { self.old.at < self.old.end → (result ≡ Ok (Some (slice_index self.old.chunk.items self.old.at))) × (self.new.reader ≡ self.old.reader) }
    {
        if self.at == self.end {
            self.fill()?;
            if self.at == self.end {
                return Ok(None);
            }
        }
        let byte = self.chunk[self.at];
        self.at += 1;
        Ok(Some(byte))
    }

    /// Moves bytes from the chunk to the line, up to a line feed or until the line has one byte more than a line may
    /// have.
    fn take_held(&mut self)
        requires { length (line_of self.old) ≤ max_line + 1 }
        ensures takes { (whole : Option (List ℕ)) → Consumes whole (input_of R.left self.old) (line_of self.old) → Consumes whole (input_of R.left self.new) (line_of self.new) }
        ensures no_feed { NoFeed (line_of self.old) → NoFeed (line_of self.new) }
        ensures room { length (line_of self.new) ≤ max_line + 1 }
        ensures fuel { length (line_of self.new) + fuel_of self.new ≤ length (line_of self.old) + fuel_of self.old }
        ensures falls { fuel_of self.new ≤ fuel_of self.old }
        ensures same { (self.new.reader ≡ self.old.reader) × (self.new.ended ≡ self.old.ended) × (self.new.reads_left ≡ self.old.reads_left) × (self.new.fault ≡ self.old.fault) }
        ensures feed { line_of self.old ≡ [] → HoldsLine self.old → (self.new.at < self.new.end) × (slice_index self.new.chunk.items self.new.at ≡ 10) × (length (line_of self.new) ≤ max_line) }
    {
        let held = &self.chunk[self.at..self.end];
        let room = MAX_LINE + 1 - self.line.len();
        let count = first_feed(held).min(room);
        self.line.extend_from_slice(&held[..count]).unwrap();
        self.at += count;
    }

    /// Reads the bytes of a line, up to a line feed, the end of input or too many bytes.
    fn take_line(&mut self) -> Result<LineEnd, LineFault>
        ensures takes { IfOk result (λ end. TakesLine (input_of R.left self.old) (input_of R.left self.new) (line_of self.new) end) }
        ensures no_feed { OnOk result (NoFeed (line_of self.new)) }
        ensures cut { OnErr result (BreaksOff (input_of R.left self.old) (input_of R.left self.new) (line_of self.new)) }
        ensures drained { OnErr result (IsDrained self.new) }
        ensures fault { self.new.fault ≡ self.old.fault }
        ensures fuel { OnOk result (vec_len self.new.line + fuel_of self.new ≤ fuel_of self.old) }
        ensures falls { IfOk result (λ end. end ≢ LineEnd.Input → fuel_of self.new < fuel_of self.old) }
        ensures later { (R.tally self.old.reader).failures ≤ (R.tally self.new.reader).failures }
        ensures stays { StaysEnded self.old self.new }
        ensures told { IfOk result (λ end. end ≡ LineEnd.Input → self.new.ended ≡ true) }
        ensures steady { OnOk result ((R.tally self.new.reader).failures ≡ (R.tally self.old.reader).failures) }
        ensures bound { reads_bound R.tally self.new ≡ reads_bound R.tally self.old }
        ensures why { IfErr result (λ fault. (fault ≡ LineFault.Read) × HasCause R.tally self.old self.new) }
        ensures asks { AsksInTime R.tally self.old self.new }
        ensures rested { OnOk result ((R.tally self.old.reader).interruptions ≡ 0 → (R.tally self.new.reader).interruptions ≡ 0) }
        ensures held { HoldsLine self.old → (result ≡ Ok LineEnd.Feed) × (self.new.reader ≡ self.old.reader) × (length (line_of self.new) ≤ max_line) }
    {
        self.line.clear();
        loop {
            self.take_held();
            match self.next_byte()? {
                None => return Ok(LineEnd::Input),
                Some(b'\n') => return Ok(LineEnd::Feed),
                Some(byte) => {
                    if self.line.len() > MAX_LINE {
                        return Ok(LineEnd::Beyond);
                    }
                    self.line.push(byte).unwrap();
                }
            }
        }
    }

    /// Reads the next line, or returns `false` at the end of input.
    fn take_whole(&mut self) -> Result<bool, LineFault>
        ensures more { IfOk result (λ more. more ≡ true → GivesLine (input_of R.left self.old) (input_of R.left self.new) (line_of self.new)) }
        ensures fits { IfOk result (λ more. more ≡ true → length (line_of self.new) ≤ max_line) }
        ensures end { IfOk result (λ more. more ≡ false → IsAtEnd (input_of R.left self.old) × IsAtEnd (input_of R.left self.new) × Keeps (input_of R.left self.old) (input_of R.left self.new)) }
        ensures long { IfErr result (λ fault. fault ≡ LineFault.TooLong → BeginsLong (input_of R.left self.old)) }
        ensures cut { IfErr result (λ fault. fault ≡ LineFault.Read → BreaksOff (input_of R.left self.old) (input_of R.left self.new) (line_of self.new)) }
        ensures drained { IfErr result (λ fault. fault ≡ LineFault.Read → IsDrained self.new) }
        ensures falls { IfOk result (λ more. more ≡ true → fuel_of self.new < fuel_of self.old) }
        ensures fault { self.new.fault ≡ self.old.fault }
        ensures later { (R.tally self.old.reader).failures ≤ (R.tally self.new.reader).failures }
        ensures stays { StaysEnded self.old self.new }
        ensures feeds { IfOk result (λ more. more ≡ true → TakesFeeds R.left self.old self.new) }
        ensures steady { OnOk result ((R.tally self.new.reader).failures ≡ (R.tally self.old.reader).failures) }
        ensures bound { reads_bound R.tally self.new ≡ reads_bound R.tally self.old }
        ensures why { IfErr result (λ fault. fault ≡ LineFault.Read → HasCause R.tally self.old self.new) }
        ensures asks { AsksInTime R.tally self.old self.new }
        ensures rested { OnOk result ((R.tally self.old.reader).interruptions ≡ 0 → (R.tally self.new.reader).interruptions ≡ 0) }
        ensures held { HoldsLine self.old → (result ≡ Ok true) × (self.new.reader ≡ self.old.reader) }
    {
        let end = self.take_line()?;
        if end == LineEnd::Input && self.line.is_empty() {
            return Ok(false);
        }
        if end == LineEnd::Beyond {
            return Err(LineFault::TooLong);
        }
        chomp(&mut self.line);
        if self.line.len() > MAX_LINE {
            return Err(LineFault::TooLong);
        }
        Ok(true)
    }

    /// Reads the next line and returns `true`, or returns `false` at the end of input.
    ///
    /// Returns `Read` if the reader fails or the limit on reads or on interruptions is reached, and `TooLong` if the
    /// line has more than 65,536 bytes without its line end. After a fault every later call returns the same fault and
    /// reads nothing.
    pub fn next_line(&mut self) -> Result<bool, LineFault>
        ensures more { IfOk result (λ more. more ≡ true → GivesLine (input_of R.left self.old) (input_of R.left self.new) (line_of self.new)) }
        ensures fits { IfOk result (λ more. more ≡ true → length (line_of self.new) ≤ max_line) }
        ensures end { IfOk result (λ more. more ≡ false → IsAtEnd (input_of R.left self.old) × IsAtEnd (input_of R.left self.new) × Keeps (input_of R.left self.old) (input_of R.left self.new)) }
        ensures long { IfErr result (λ fault. fault ≡ LineFault.TooLong → BeginsLong (input_of R.left self.old) ⊎ (self.old.fault ≡ Some fault)) }
        ensures cut { IfErr result (λ fault. fault ≡ LineFault.Read → self.old.fault ≡ None → BreaksOff (input_of R.left self.old) (input_of R.left self.new) (line_of self.new)) }
        ensures drained { IfErr result (λ fault. fault ≡ LineFault.Read → self.old.fault ≡ None → IsDrained self.new) }
        ensures falls { IfOk result (λ more. more ≡ true → fuel_of self.new < fuel_of self.old) }
        ensures again { IsSome self.old.fault → (self.new.fault ≡ self.old.fault) × Keeps (input_of R.left self.old) (input_of R.left self.new) }
        ensures ready { OnOk result ((self.old.fault ≡ None) × (self.new.fault ≡ None)) }
        ensures fault { IfErr result (λ fault. self.new.fault ≡ Some fault) }
        ensures later { (R.tally self.old.reader).failures ≤ (R.tally self.new.reader).failures }
        ensures stays { StaysEnded self.old self.new }
        ensures feeds { IfOk result (λ more. more ≡ true → TakesFeeds R.left self.old self.new) }
        ensures steady { OnOk result ((R.tally self.new.reader).failures ≡ (R.tally self.old.reader).failures) }
        ensures bound { reads_bound R.tally self.new ≡ reads_bound R.tally self.old }
        ensures why { IfErr result (λ fault. fault ≡ LineFault.Read → HasCause R.tally self.old self.new ⊎ (self.old.fault ≡ Some fault)) }
        ensures in_time { KeepsTime R.tally self.old self.new }
        ensures held { HoldsLine self.old → self.old.fault ≡ None → (result ≡ Ok true) × (self.new.reader ≡ self.old.reader) }
    {
        if let Some(fault) = self.fault {
            return Err(fault);
        }
        match self.take_whole() {
            Ok(more) => Ok(more),
            Err(fault) => {
                self.fault = Some(fault);
                Err(fault)
            }
        }
    }
}

/// Removes one carriage return at the end of the line.
fn chomp(line: &mut Vec<u8>)
    ensures items { line.new.items ≡ strip_carriage_return line.old.items }
    ensures capacity { vec_capacity line.new ≡ vec_capacity line.old }
{
    if line.last() == Some(&b'\r') {
        line.pop();
    }
}

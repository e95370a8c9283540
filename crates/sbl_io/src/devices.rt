//! Readers and writers that may fail or be interrupted. Failures, interruptions and reads are counted.
ghost use Rattle.std.specs.Prelude.{◌≡◌, ◌≤◌, ◌<◌, ◌^◌, ◌-◌, ◌||◌, ℕ, Bool, false, List, Option, length, IfOk, Err};
ghost use Rattle.std.specs.Io.KnownBytes.{Keeps};
ghost use Rattle.sbl_io.specs.Devices.{Tally, Reads, Writes, Counts, CountsRead, CountsRow, is_late_read, is_late_write, max_count, max_tries, tells_end};
ghost use Rattle.sbl_io.specs.inside.Conversions.{IsConverted, IsConvertedWrite};

use std::io;
use std::io::{ErrorKind, Read, Write};

/// The greatest number of reads that a device counts.
const MAX_COUNT: u64 = u64::MAX;

/// The greatest number of tries of one read or write, which allows 1,000 interruptions in a row (our own choice).
pub(crate) const MAX_TRIES: u16 = 1_001;

/// Why a read or a write did nothing.
#[derive(Clone, Copy, Debug, PartialEq, Eq)]
pub enum Stop {
    /// It was interrupted: nothing was done, and it may be tried again.
    Interrupted,
    /// It failed.
    Failed,
}

/// A source of bytes.
pub trait Source {
    /// The bytes that are left, or `None` if they are not known.
    ghost left: { Self → Option (List ℕ) };

    /// The number of reads that failed, the number of the latest reads in a row that were interrupted, up to 1001, and the
    /// number of reads, up to the greatest `u64`; whether a read has returned the end of the bytes; and whether there was a
    /// read after that, after 1,001 interruptions in a row, or after as many reads as the greatest `u64`.
    ghost tally: { Self → Tally };

    /// Reads the next bytes into `buf` and returns their number; 0 with a `buf` that is not empty means the end of the
    /// bytes. Reads no bytes if it is stopped.
    fn read(&mut self, buf: &mut [u8]) -> Result<usize, Stop>
        ensures bound { IfOk result (λ n. n ≤ length buf.new) }
        ensures bytes { Reads (left self.old) (left self.new) result buf.new }
        ensures counts { Counts (tally self.old).failures (tally self.new).failures result }
        ensures row { CountsRow (tally self.old).interruptions (tally self.new).interruptions result }
        ensures asked { CountsRead (tally self.old).reads (tally self.new).reads }
        ensures end { (tally self.new).ended ≡ ((tally self.old).ended || tells_end result buf.new) }
        ensures late { (tally self.new).late ≡ ((tally self.old).late || is_late_read (tally self.old).ended (tally self.old).interruptions (tally self.old).reads) };
}

/// A sink for bytes.
pub trait Sink {
    /// The bytes that the sink holds, or `None` if they are not known.
    ghost held: { Self → Option (List ℕ) };

    /// The number of writes that failed, and the number of the latest writes in a row that were interrupted, up to 1001; and
    /// whether there was a write after 1,001 interruptions in a row.
    ghost tally: { Self → Tally };

    /// Writes a prefix of `bytes`, at least one byte unless `bytes` is empty, and returns its length. Writes nothing if
    /// it is stopped.
    fn write(&mut self, bytes: &[u8]) -> Result<usize, Stop>
        ensures bound { IfOk result (λ n. n ≤ length bytes.now) }
        ensures bytes { Writes (held self.old) (held self.new) result bytes.now }
        ensures counts { Counts (tally self.old).failures (tally self.new).failures result }
        ensures row { CountsRow (tally self.old).interruptions (tally self.new).interruptions result }
        ensures late { (tally self.new).late ≡ ((tally self.old).late || is_late_write (tally self.old).interruptions) };
}

/// A reader or a writer of `std::io`. An error of kind `Interrupted` is an interruption, and every other error is a
/// failure; so is a write that takes none of some bytes. Failures are counted in 64 bits; if that count is full, each
/// stop is an interruption (our own choice).
#[derive(Drop)]
pub struct Device<D> {
    inner: D,
    stops: Stops,
}

/// The counts of a device: its failures, its latest interruptions in a row, its reads, whether a read has returned the
/// end, and whether it was used past one of its limits.
#[derive(Clone, Copy)]
pub(crate) struct Stops {
    pub(crate) failures: u64,
    pub(crate) interruptions: u16,
    pub(crate) reads: u64,
    pub(crate) ended: bool,
    pub(crate) late: bool,
    ghost capped: { interruptions ≤ max_tries },
    ghost in_bound: { reads ≤ max_count },
}

impl Stops {
    /// Returns the counts of a device that was not used yet.
    pub(crate) fn new() -> Stops
        ensures failures { result.failures ≡ 0 }
        ensures interruptions { result.interruptions ≡ 0 }
        ensures reads { result.reads ≡ 0 }
        ensures ended { result.ended ≡ false }
        ensures late { result.late ≡ false }
    {
        Stops {
            failures: 0,
            interruptions: 0,
            reads: 0,
            ended: false,
            late: false,
        }
    }

    /// Counts one more read, and records whether it is past a limit.
    pub(crate) fn ask_read(&mut self)
        ensures late { self.new.late ≡ (self.old.late || is_late_read self.old.ended self.old.interruptions self.old.reads) }
        ensures reads { CountsRead self.old.reads self.new.reads }
        ensures failures { self.new.failures ≡ self.old.failures }
        ensures interruptions { self.new.interruptions ≡ self.old.interruptions }
        ensures ended { self.new.ended ≡ self.old.ended }
    {
        if self.ended || self.interruptions >= MAX_TRIES || self.reads >= MAX_COUNT {
            self.late = true;
        }
        self.reads = self.reads.saturating_add(1);
    }

    /// Records whether one more write is past the limit on interruptions.
    pub(crate) fn ask_write(&mut self)
        ensures late { self.new.late ≡ (self.old.late || is_late_write self.old.interruptions) }
        ensures failures { self.new.failures ≡ self.old.failures }
        ensures interruptions { self.new.interruptions ≡ self.old.interruptions }
    {
        if self.interruptions >= MAX_TRIES {
            self.late = true;
        }
    }

    /// Counts the result of a read or a write.
    pub(crate) fn count(&mut self, judged: Result<usize, Stop>)
        requires { judged ≡ Err Stop.Failed → self.old.failures < 2 ^ 64 - 1 }
        ensures counts { Counts self.old.failures self.new.failures judged }
        ensures row { CountsRow self.old.interruptions self.new.interruptions judged }
        ensures reads { self.new.reads ≡ self.old.reads }
        ensures ended { self.new.ended ≡ self.old.ended }
        ensures late { self.new.late ≡ self.old.late }
    {
        match judged {
            Ok(_) => self.interruptions = 0,
            Err(Stop::Interrupted) => {
                self.interruptions = (self.interruptions + 1).min(MAX_TRIES);
            }
            Err(Stop::Failed) => {
                self.failures += 1;
                self.interruptions = 0;
            }
        }
    }
}

/// Converts the result of a read of `std::io`, for a device with this number of failures. An error of kind
/// `Interrupted` is an interruption, every other error is a failure; but if `failures` is the greatest `u64`, each
/// error is an interruption.
fn judge_read(failures: u64, answer: io::Result<usize>) -> Result<usize, Stop>
    ensures judged { IsConverted failures answer result }
    ensures counted { result ≡ Err Stop.Failed → failures < 2 ^ 64 - 1 }
{
    match answer {
        Ok(n) => Ok(n),
        Err(error) if error.kind() == ErrorKind::Interrupted => Err(Stop::Interrupted),
        Err(_) if failures == u64::MAX => Err(Stop::Interrupted),
        Err(_) => Err(Stop::Failed),
    }
}

/// Converts the result of a write of these bytes in the same way. A write that takes none of some bytes is an error of
/// kind `WriteZero`.
fn judge_write(failures: u64, bytes: &[u8], answer: io::Result<usize>) -> Result<usize, Stop>
    ensures judged { IsConvertedWrite failures bytes.now answer result }
    ensures counted { result ≡ Err Stop.Failed → failures < 2 ^ 64 - 1 }
{
    match answer {
        Ok(0) if !bytes.is_empty() => judge_read(
            failures,
            Err(io::Error::from(ErrorKind::WriteZero)),
        ),
        answer => judge_read(failures, answer),
    }
}

impl<D> Device<D> {
    ghost use Rattle.sbl_io.specs.InnerDevice.{inner_of, tally_of};

    /// Returns a device with no failures, interruptions or reads.
    pub fn new(inner: D) -> Device<D>
        ensures inner { inner_of result ≡ inner }
        ensures failures { (tally_of result).failures ≡ 0 }
        ensures interruptions { (tally_of result).interruptions ≡ 0 }
        ensures reads { (tally_of result).reads ≡ 0 }
        ensures ended { (tally_of result).ended ≡ false }
        ensures late { (tally_of result).late ≡ false }
    {
        let stops = Stops::new();
        Device { inner, stops }
    }

    /// Returns the inner reader or writer, in its current state.
    pub fn into_inner(self) -> D
        ensures { result ≡ inner_of self }
    {
        self.inner
    }
}

impl<D: Read> Source for Device<D> {
    ghost use Rattle.sbl_io.specs.InnerDevice.{inner_of, tally_of};

    ghost left = { λ d. D.remaining (inner_of d) };

    ghost tally = { λ d. tally_of d };

    fn read(&mut self, buf: &mut [u8]) -> Result<usize, Stop> {
        self.stops.ask_read();
        let answer = self.inner.read(buf);
        let judged = judge_read(self.stops.failures, answer);
        self.stops.count(judged);
        if judged == Ok(0) && !buf.is_empty() {
            self.stops.ended = true;
        }
        judged
    }
}

impl<D: Write> Sink for Device<D> {
    ghost use Rattle.sbl_io.specs.InnerDevice.{inner_of, tally_of};

    ghost held = { λ d. D.contents (inner_of d) };

    ghost tally = { λ d. tally_of d };

    fn write(&mut self, bytes: &[u8]) -> Result<usize, Stop> {
        self.stops.ask_write();
        let answer = self.inner.write(bytes);
        let judged = judge_write(self.stops.failures, bytes, answer);
        self.stops.count(judged);
        judged
    }
}

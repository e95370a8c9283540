//! Writes whole texts to a sink.
ghost use Rattle.std.specs.Prelude.{◌≡◌, ◌≤◌, ◌<◌, ℕ, IfOk, IfErr, OnOk, OnErr, length, take};
ghost use Rattle.std.specs.Io.KnownBytes.{Appends, Keeps};
ghost use Rattle.sbl_io.specs.Devices.{HasStopped, WritesInTime};

use crate::devices::{MAX_TRIES, Sink, Stop};
use crate::faults::ServeFault;

/// Writes a prefix of the bytes, at least one, and returns its length. Returns `Write` if the writer fails or is
/// interrupted more than 1,000 times in a row; then nothing is written.
fn write_some<W: Sink>(writer: &mut W, bytes: &[u8]) -> Result<usize, ServeFault>
    requires { 0 < length bytes.now }
    ensures some { IfOk result (λ n. (0 < n) × (n ≤ length bytes.now)) }
    ensures takes { IfOk result (λ n. Appends (W.held writer.old) (W.held writer.new) (take n bytes.now)) }
    ensures keeps { OnErr result (Keeps (W.held writer.old) (W.held writer.new)) }
    ensures later { (W.tally writer.old).failures ≤ (W.tally writer.new).failures }
    ensures steady { OnOk result ((W.tally writer.new).failures ≡ (W.tally writer.old).failures) }
    ensures why { IfErr result (λ fault. (fault ≡ ServeFault.Write) × HasStopped W.tally writer.old writer.new) }
    ensures in_time { WritesInTime W.tally writer.old writer.new }
    ensures rested { OnOk result ((W.tally writer.new).interruptions ≡ 0) }
{
    for _ in 0..MAX_TRIES {
        match writer.write(bytes) {
            Ok(n) => return Ok(n),
            Err(Stop::Failed) => return Err(ServeFault::Write),
            Err(Stop::Interrupted) => {}
        }
    }
    Err(ServeFault::Write)
}

/// Writes all bytes. Returns `Write` if the writer fails or is interrupted more than 1,000 times in a row; then a
/// prefix of the bytes is written.
pub fn write_all<W: Sink>(writer: &mut W, bytes: &[u8]) -> Result<(), ServeFault>
    ensures all { OnOk result (Appends (W.held writer.old) (W.held writer.new) bytes.now) }
    ensures prefix { (n : ℕ) × Appends (W.held writer.old) (W.held writer.new) (take n bytes.now) }
    ensures later { (W.tally writer.old).failures ≤ (W.tally writer.new).failures }
    ensures steady { OnOk result ((W.tally writer.new).failures ≡ (W.tally writer.old).failures) }
    ensures why { IfErr result (λ fault. (fault ≡ ServeFault.Write) × HasStopped W.tally writer.old writer.new) }
    ensures in_time { WritesInTime W.tally writer.old writer.new }
    ensures rested { OnOk result ((W.tally writer.old).interruptions ≡ 0 → (W.tally writer.new).interruptions ≡ 0) }
{
    let mut written = 0;
    while written < bytes.len() {
        written += write_some(writer, &bytes[written..])?;
    }
    Ok(())
}

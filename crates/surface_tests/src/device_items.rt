//! snowbench: devices, and a source and a sink that are made outside of it.

ghost use Rattle.std.specs.Prelude.{◌≡◌};

use snowbench::{Device, Sink, Source, Stop};
use std::test::Fail;

/// A source that gives one byte at a time, or a sink that takes one, of the device inside it.
#[derive(Drop)]
pub(crate) struct ByteByByte<D> {
    inner: D,
}

impl<D> ByteByByte<D> {
    /// Returns a source of the bytes of `inner`, or a sink whose bytes go there.
    pub(crate) fn new(inner: D) -> ByteByByte<D>
        ensures { result.inner ≡ inner }
    {
        ByteByByte { inner }
    }

    /// Returns the device inside.
    pub(crate) fn into_inner(self) -> D {
        self.inner
    }
}

impl<D: Source> Source for ByteByByte<D> {
    ghost left = { λ s. D.left s.inner };

    ghost tally = { λ s. D.tally s.inner };

    fn read(&mut self, buf: &mut [u8]) -> Result<usize, Stop> {
        let most = buf.len().min(1);
        self.inner.read(&mut buf[..most])
    }
}

impl<D: Sink> Sink for ByteByByte<D> {
    ghost held = { λ s. D.held s.inner };

    ghost tally = { λ s. D.tally s.inner };

    fn write(&mut self, bytes: &[u8]) -> Result<usize, Stop> {
        let most = bytes.len().min(1);
        self.inner.write(&bytes[..most])
    }
}

/// What a read or a write did.
fn answer_text(answer: Result<usize, Stop>) -> &'static str {
    match answer {
        Ok(0) => "nothing",
        Ok(1) => "one byte",
        Ok(_) => "bytes",
        Err(Stop::Interrupted) => "interrupted",
        Err(Stop::Failed) => "failed",
    }
}

#[test]
fn devices_read_and_write(rt: HostRuntime) -> Result<(), Fail> {
    let mut bytes = [0; 8];
    let mut source = Device::new(b"abc".as_slice());
    assert_eq!(rt; answer_text(source.read(&mut bytes)), "bytes");
    assert_eq!(rt; answer_text(source.read(&mut bytes)), "nothing");
    let mut room = [0; 2];
    let mut sink = Device::new(room.as_mut_slice());
    assert_eq!(rt; answer_text(sink.write(b"a")), "one byte");
    assert_eq!(rt; answer_text(sink.write(b"b")), "one byte");
    // a write that takes none of some bytes has failed
    assert_eq!(rt; answer_text(sink.write(b"c")), "failed");
    Ok(())
}

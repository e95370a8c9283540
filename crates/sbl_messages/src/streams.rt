//! A reader that keeps what it reads first, and a writer that counts lines.

ghost use Rattle.std.specs.Prelude.{◌≡◌, [], false};

use std::alloc::Global;
use std::cell::RefCell;
use std::io;
use std::io::{ErrorKind, Read, Write};

/// The most bytes of an input that are kept to show a place; a script has fewer (our own choice).
const MOST_KEPT: usize = 2_097_152;

/// The first bytes that were read, and whether they are all.
#[derive(Drop)]
pub struct FirstBytes {
    bytes: Vec<u8>,
    is_whole: bool,
}

impl FirstBytes {
    /// Returns no bytes. More are kept only if they are wanted.
    pub fn new(alloc: Global, is_wanted: bool) -> FirstBytes
        ensures bytes { result.bytes.items ≡ [] }
        ensures whole { result.is_whole ≡ is_wanted }
    {
        FirstBytes {
            bytes: Vec::new(alloc),
            is_whole: is_wanted,
        }
    }

    /// Returns the bytes.
    pub fn bytes(&self) -> &[u8]
        ensures { result.now ≡ self.now.bytes.items }
    {
        self.bytes.as_slice()
    }

    /// Returns whether these are all bytes that were read.
    pub fn is_whole(&self) -> bool
        ensures { result ≡ self.now.is_whole }
    {
        self.is_whole
    }

    /// Keeps more bytes, if there is room for them and none before them was left out.
    fn keep(&mut self, bytes: &[u8]) {
        if !self.is_whole {
            return;
        }
        let room = MOST_KEPT.saturating_sub(self.bytes.len());
        if bytes.len() > room || self.bytes.extend_from_slice(bytes).is_err() {
            self.is_whole = false;
        }
    }
}

/// A reader that keeps the first bytes that it reads.
#[derive(Drop)]
pub struct FirstBytesReader<'a, R> {
    inner: R,
    kept: &'a RefCell<FirstBytes>,
}

impl<'a, R> FirstBytesReader<'a, R> {
    /// Returns the reader before its first read.
    pub fn new(inner: R, kept: &'a RefCell<FirstBytes>) -> FirstBytesReader<'a, R>
        ensures { result.inner ≡ inner }
    {
        FirstBytesReader { inner, kept }
    }
}

impl<R: Read> Read for FirstBytesReader<'_, R> {
    ghost remaining = { λ f. R.remaining f.inner };

    fn read(&mut self, buf: &mut [u8]) -> io::Result<usize> {
        let count = self.inner.read(buf)?;
        if let Ok(mut kept) = self.kept.try_borrow_mut() {
            kept.keep(&buf[..count]);
        }
        Ok(count)
    }
}

/// A writer that counts the lines that are written.
#[derive(Drop)]
pub struct Output<W> {
    inner: W,
    lines: u64,
    is_closed: bool,
}

impl<W> Output<W> {
    /// Returns the writer before its first write.
    pub fn new(inner: W) -> Output<W>
        ensures inner { result.inner ≡ inner }
        ensures lines { result.lines ≡ 0 }
        ensures closed { result.is_closed ≡ false }
    {
        Output {
            inner,
            lines: 0,
            is_closed: false,
        }
    }

    /// Returns the number of lines that were written.
    pub fn lines(&self) -> u64
        ensures { result ≡ self.now.lines }
    {
        self.lines
    }

    /// Returns whether a write failed because the reader of the pipe has closed it.
    pub fn is_closed(&self) -> bool
        ensures { result ≡ self.now.is_closed }
    {
        self.is_closed
    }
}

/// Returns the number of line feeds.
fn feed_count(bytes: &[u8]) -> u64 {
    let mut count: u64 = 0;
    for byte in bytes {
        count = count.wrapping_add(u64::from(*byte == b'\n'));
    }
    count
}

impl<W: Write> Write for Output<W> {
    ghost contents = { λ o. W.contents o.inner };

    fn write(&mut self, buf: &[u8]) -> io::Result<usize> {
        match self.inner.write(buf) {
            Ok(count) => {
                self.lines = self.lines.saturating_add(feed_count(&buf[..count]));
                Ok(count)
            }
            Err(error) => {
                self.is_closed = error.kind() == ErrorKind::BrokenPipe;
                Err(error)
            }
        }
    }

    fn flush(&mut self) -> io::Result<()> {
        self.inner.flush()
    }
}

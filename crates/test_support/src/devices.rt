//! Readers and writers that handle a few bytes at a time, and that are interrupted and fail as a test requires. What was written to them.

ghost use Rattle.std.specs.Prelude.{◌≡◌, ◌<◌};

use std::alloc::{AllocError, Global};
use std::io;
use std::io::{ErrorKind, Read, Write};
use std::random::RandomSource;

/// When a device stops: the number of interruptions before each call that is completed, and the number of the call that
/// fails.
#[derive(Drop)]
struct Plan {
    interruptions: u64,
    waited: u64,
    calls: u64,
    fails_at: u64,
}

impl Plan {
    // Returns the stop of this call, if there is one.
    fn next(&mut self) -> Option<ErrorKind> {
        if self.waited < self.interruptions {
            self.waited += 1;
            return Some(ErrorKind::Interrupted);
        }
        self.waited = 0;
        self.calls = self.calls.saturating_add(1);
        if self.calls == self.fails_at {
            return Some(ErrorKind::Other);
        }
        None
    }
}

/// A reader or a writer that handles a limited number of bytes at a time.
#[derive(Drop)]
pub struct Pieces<D> {
    /// The inner reader or writer.
    pub inner: D,
    piece: usize,
    plan: Plan,
    ghost some: { 0 < piece },
}

impl<D: Read> Read for Pieces<D> {
    ghost remaining = { λ p. D.remaining p.inner };

    fn read(&mut self, buf: &mut [u8]) -> io::Result<usize> {
        if let Some(kind) = self.plan.next() {
            return Err(io::Error::from(kind));
        }
        let most = buf.len().min(self.piece);
        self.inner.read(&mut buf[..most])
    }
}

impl<D: Write> Write for Pieces<D> {
    ghost contents = { λ p. D.contents p.inner };

    fn write(&mut self, bytes: &[u8]) -> io::Result<usize> {
        if let Some(kind) = self.plan.next() {
            return Err(io::Error::from(kind));
        }
        let most = bytes.len().min(self.piece);
        self.inner.write(&bytes[..most])
    }

    fn flush(&mut self) -> io::Result<()> {
        Ok(())
    }
}

/// Returns a reader or a writer that handles at most `piece` bytes at a time, is interrupted `interruptions` times
/// before each call that is completed, and fails at call `fails_at`, counted from 1 (0 for never).
pub fn in_pieces<D>(inner: D, piece: usize, fails_at: u64, interruptions: u64) -> Pieces<D>
    requires { 0 < piece }
    ensures inner { result.inner ≡ inner }
    ensures piece { result.piece ≡ piece }
    ensures plan { result.plan ≡ record { interruptions = interruptions; waited = 0; calls = 0; fails_at = fails_at } }
{
    let plan = Plan {
        interruptions,
        waited: 0,
        calls: 0,
        fails_at,
    };
    Pieces { inner, piece, plan }
}

/// What was written, and how it ended.
#[derive(Debug, Drop)]
pub struct WriteLog<E> {
    /// The bytes that were written.
    pub text: Vec<u8>,
    /// How it ended.
    pub ending: E,
}

impl<E: PartialEq> WriteLog<E> {
    /// Returns whether this text was written and it ended so.
    pub fn is(&self, text: &[u8], ending: &E) -> bool {
        self.text.as_slice() == text && self.ending == *ending
    }
}

/// Returns, one after another, the outputs of those lines that are whole in the first `bytes` bytes of an input, in which they follow
/// `begin` bytes. Returns `AllocError` if an allocation fails.
pub fn outputs_within(
    alloc: Global,
    begin: usize,
    lines: &[(&[u8], &[u8])],
    bytes: u64,
) -> Result<Vec<u8>, AllocError> {
    let mut text = Vec::new(alloc);
    let mut end = begin as u64;
    for (line, output) in lines {
        end = end.saturating_add(line.len() as u64);
        if end <= bytes {
            text.extend_from_slice(output)?;
        }
    }
    Ok(text)
}

/// Returns the bytes of a text: one for each letter below 256, so `ÿ` is no UTF-8. A `¶` is a line feed, `ⅰ` is 255 times `a`, `ⅱ` 256 times,
/// `ⅲ` 65,536 times, `ⅳ` 65,537 times, `ⅵ` 65,535 times, and `ⅴ` is 1,048,577 line feeds. Returns `AllocError` if an allocation fails.
pub fn bytes_of(alloc: Global, text: &str) -> Result<Vec<u8>, AllocError> {
    let mut bytes = Vec::new(alloc);
    for letter in text.chars() {
        let (count, byte) = match letter {
            '¶' => (1, b'\n'),
            'ⅰ' => (255, b'a'),
            'ⅱ' => (256, b'a'),
            'ⅲ' => (65_536, b'a'),
            'ⅳ' => (65_537, b'a'),
            'ⅴ' => (1_048_577, b'\n'),
            'ⅵ' => (65_535, b'a'),
            _ => (1, u8::try_from(letter).unwrap_or(b'?')),
        };
        let length = bytes.len().saturating_add(count);
        bytes.resize(length, byte)?;
    }
    Ok(bytes)
}

/// A source that gives the same bytes again and again, so that tests take the same keys in each run.
pub struct SameBytes;

impl RandomSource for SameBytes {
    fn fill_bytes(&self, buf: &mut [u8]) -> io::Result<()> {
        buf.fill(5);
        Ok(())
    }
}

//! A sink and a source that fail.

ghost use Rattle.std.specs.Prelude.{None};

use byte_streams::{Failed, Sink, Source};

/// How many bytes a short sink takes at most.
pub const MOST: usize = 128;

/// Takes one byte a write, fails once it has as many bytes as it has room for, and tells no bytes.
#[derive(Drop)]
pub struct ShortSink {
    taken: [u8; MOST],
    count: usize,
    room: usize,
    failures: u64,
}

impl ShortSink {
    /// Has room for so many bytes, up to [`MOST`].
    pub fn new(room: usize) -> Self {
        ShortSink {
            taken: [0; MOST],
            count: 0,
            room,
            failures: 0,
        }
    }

    /// The bytes that it took.
    pub fn bytes(&self) -> &[u8] {
        self.taken.get(..self.count).unwrap_or(&[])
    }

    /// How many writes failed.
    pub fn failures(&self) -> u64 {
        self.failures
    }
}

impl Sink for ShortSink {
    ghost state = { λ sink. record { taken = None; failures = sink.failures } };

    fn write(&mut self, bytes: &[u8]) -> Result<usize, Failed> {
        let Some(first) = bytes.first() else {
            return Ok(0);
        };
        if self.count >= self.room || self.count >= self.taken.len() {
            self.failures = self.failures.saturating_add(1);
            return Err(Failed);
        }
        self.taken[self.count] = *first;
        self.count += 1;
        Ok(1)
    }
}

/// Gives so many bytes at a time at most, fails after some reads, and tells no bytes.
#[derive(Clone, Copy)]
pub struct PieceSource<'a> {
    rest: &'a [u8],
    most: usize,
    reads: usize,
    failures: u64,
}

impl<'a> PieceSource<'a> {
    /// Gives these bytes, and never fails.
    pub fn new(bytes: &'a [u8], most: usize) -> Self {
        PieceSource::failing(bytes, most, usize::MAX)
    }

    /// Gives these bytes, and fails from the read on that comes after so many.
    pub fn failing(bytes: &'a [u8], most: usize, reads: usize) -> Self {
        PieceSource {
            rest: bytes,
            most,
            reads,
            failures: 0,
        }
    }

    /// How many reads failed.
    pub fn failures(&self) -> u64 {
        self.failures
    }
}

impl Source for PieceSource<'_> {
    ghost state = { λ source. record { remaining = None; failures = source.failures } };

    fn read(&mut self, buffer: &mut [u8]) -> Result<usize, Failed> {
        if self.reads == 0 {
            self.failures = self.failures.saturating_add(1);
            return Err(Failed);
        }
        self.reads -= 1;
        let count = self.rest.len().min(self.most).min(buffer.len());
        let (prefix, rest) = self.rest.split_at(count);
        buffer[..count].copy_from_slice(prefix);
        self.rest = rest;
        Ok(count)
    }
}

//! A sink over a vector, and a source over a slice.

ghost use Rattle.std.specs.Prelude.{◌≡◌, ◌<◌, ◌≤◌, ◌-◌, ◌++◌, Some, Ok, min, length, take, drop, vec_len, vec_capacity, IfOk, OnOk, OnErr};
ghost use Rattle.byte_streams.specs.Streams.{Takes, Gives, failures_after};
ghost use Rattle.byte_streams.specs.Memory.{vec_sink_bytes, vec_sink_failures, vec_sink_room, vec_sink_state, slice_source_rest, slice_source_state};

use crate::streams::{Failed, Sink, Source};

/// A sink that appends to a vector; contracts know its bytes. It fails if the vector cannot grow.
#[derive(Drop)]
pub struct VecSink {
    bytes: Vec<u8>,
    failures: u64,
}

impl VecSink {
    /// A sink with no failures. The bytes already in the vector count as taken.
    pub fn new(bytes: Vec<u8>) -> Self
        ensures taken { vec_sink_bytes result ≡ bytes.items }
        ensures failures { vec_sink_failures result ≡ 0 }
        ensures room { vec_sink_room result ≡ vec_capacity bytes - vec_len bytes }
    {
        VecSink { bytes, failures: 0 }
    }

    /// Returns all bytes taken, including those in the vector at the start.
    pub fn into_bytes(self) -> Vec<u8>
        ensures { result.items ≡ vec_sink_bytes self }
    {
        let VecSink { bytes, .. } = self;
        bytes
    }
}

impl Sink for VecSink {
    ghost state = { vec_sink_state };

    /// Takes all bytes, or none if memory runs out. It cannot fail if the vector's spare capacity is large enough.
    fn write(&mut self, bytes: &[u8]) -> Result<usize, Failed>
        ensures all { IfOk result (λ n. n ≡ length bytes.now) }
        ensures ok { OnOk result (vec_sink_bytes self.new ≡ vec_sink_bytes self.old ++ bytes.now) }
        ensures err { OnErr result (vec_sink_bytes self.new ≡ vec_sink_bytes self.old) }
        ensures full { OnErr result (vec_sink_room self.old < length bytes.now) }
        ensures counts { vec_sink_failures self.new ≡ failures_after result (vec_sink_failures self.old) }
    {
        if self.bytes.extend_from_slice(bytes).is_err() {
            self.failures = self.failures.saturating_add(1);
            return Err(Failed);
        }
        Ok(bytes.len())
    }
}

/// A source over a slice; contracts know its bytes. It never fails.
#[derive(Clone, Copy)]
pub struct SliceSource<'a> {
    rest: &'a [u8],
}

impl<'a> SliceSource<'a> {
    /// A source that gives these bytes.
    pub fn new(bytes: &'a [u8]) -> Self
        ensures { slice_source_rest result ≡ bytes.now }
    {
        SliceSource { rest: bytes }
    }
}

impl Source for SliceSource<'_> {
    ghost state = { slice_source_state };

    /// Reads as many bytes as remain and fit into the buffer.
    fn read(&mut self, buffer: &mut [u8]) -> Result<usize, Failed>
        ensures within { IfOk result (λ n. n ≤ length buffer.old) }
        ensures gives { Gives (slice_source_state self.old) (slice_source_state self.new) result buffer.new }
        ensures count { result ≡ Ok (min (length (slice_source_rest self.old)) (length buffer.old)) }
        ensures copied { IfOk result (λ n. buffer.new ≡ take n (slice_source_rest self.old) ++ drop n buffer.old) }
        ensures rest { IfOk result (λ n. slice_source_rest self.new ≡ drop n (slice_source_rest self.old)) }
    {
        let count = self.rest.len().min(buffer.len());
        let (prefix, rest) = self.rest.split_at(count);
        buffer[..count].copy_from_slice(prefix);
        self.rest = rest;
        Ok(count)
    }
}

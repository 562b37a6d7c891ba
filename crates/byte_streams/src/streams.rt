//! The traits of sinks and sources, and writers that send all of their bytes.

ghost use Rattle.std.specs.Prelude.{◌≤◌, length, IfOk, flat_map};
ghost use Rattle.byte_streams.specs.Streams.{SinkState, SourceState, Takes, Gives, Sends};

use thiserror::Error;

/// A device refused a read or a write.
#[derive(Clone, Copy, Debug, PartialEq, Eq, Error)]
#[error("the device failed")]
pub struct Failed;

/// A sink for bytes.
///
/// A sink may make the bytes it has taken known to contracts. It counts its failures; the count saturates at 2^64 - 1.
pub trait Sink {
    // The bytes taken so far, where they are known, and the number of failures.
    ghost state: { Self → SinkState };

    /// Writes bytes. After `Ok(n)` the sink has taken the first `n` of them, at least one unless `bytes` is empty. After `Err` it
    /// has taken nothing, and counts one more failure.
    fn write(&mut self, bytes: &[u8]) -> Result<usize, Failed>
        ensures { Takes (state self.old) (state self.new) result bytes.now };
}

/// A source of bytes.
///
/// A source may make its remaining bytes known to contracts. It counts its failures; the count saturates at 2^64 - 1.
pub trait Source {
    // The remaining bytes, where they are known, and the number of failures.
    ghost state: { Self → SourceState };

    /// Reads bytes. After `Ok(n)` the next `n` of them are at the start of the buffer; `Ok(0)` for a non-empty buffer means that
    /// none remain. After `Err` the source has given nothing, and counts one more failure.
    fn read(&mut self, buffer: &mut [u8]) -> Result<usize, Failed>
        ensures within { IfOk result (λ n. n ≤ length buffer.old) }
        ensures gives { Gives (state self.old) (state self.new) result buffer.new };
}

/// Writes all bytes, in as many writes as the sink needs. After `Err` the sink has taken a prefix of them.
pub fn send<S: Sink>(bytes: &[u8], sink: &mut S) -> Result<(), Failed>
    ensures { Sends (S.state sink.old) (S.state sink.new) result bytes.now }
{
    let mut rest = bytes;
    while !rest.is_empty() {
        let count = sink.write(rest)?;
        rest = &rest[count..];
    }
    Ok(())
}

/// Writes all pieces in order. After `Err` the sink has taken a prefix of the pieces joined.
pub fn send_pieces<S: Sink>(pieces: &[&[u8]], sink: &mut S) -> Result<(), Failed>
    ensures { Sends (S.state sink.old) (S.state sink.new) result (flat_map (λ piece. piece.now) pieces.now) }
{
    for piece in pieces {
        send(piece, sink)?;
    }
    Ok(())
}

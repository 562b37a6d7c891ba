//! Devices of std: an interrupted call is a failure.

ghost use Rattle.std.specs.Prelude.{◌≤◌, IfOk};

use byte_streams::{Failed, Sink, Source, send};
use ima_agent::{ReadSource, WriteSink};
use std::io::{self, Error, ErrorKind, Read, Write};

/// A device of std whose second call is interrupted. Each other call gives, or takes, two bytes at most.
#[derive(Drop)]
struct InterruptedDevice {
    calls: u64,
}

impl InterruptedDevice {
    fn count(&mut self, offered: usize) -> io::Result<usize>
        ensures { IfOk result (λ n. n ≤ offered) }
    {
        self.calls = self.calls.saturating_add(1);
        if self.calls == 2 {
            return Err(Error::from(ErrorKind::Interrupted));
        }
        Ok(offered.min(2))
    }
}

impl Read for InterruptedDevice {
    fn read(&mut self, buffer: &mut [u8]) -> io::Result<usize> {
        self.count(buffer.len())
    }
}

impl Write for InterruptedDevice {
    fn write(&mut self, bytes: &[u8]) -> io::Result<usize> {
        self.count(bytes.len())
    }

    fn flush(&mut self) -> io::Result<()> {
        Ok(())
    }
}

#[test]
fn interrupted_read_fails(rt: HostRuntime) {
    let mut source = ReadSource::new(InterruptedDevice { calls: 0 });
    for answer in [Ok(2), Err(Failed), Ok(2)] {
        assert_eq!(rt; source.read(&mut [0; 4]), answer);
    }
}

#[test]
fn interrupted_write_fails(rt: HostRuntime) {
    let mut sink = WriteSink::new(InterruptedDevice { calls: 0 });
    assert_eq!(rt; send(b"abcd", &mut sink), Err(Failed));
    assert_eq!(rt; send(b"cd", &mut sink), Ok(()));
}

/// A write that takes nothing of what it is offered is a failure, too.
#[test]
fn full_writer_fails(rt: HostRuntime) {
    let mut room = [0; 5];
    let mut sink = WriteSink::new(room.as_mut_slice());
    assert_eq!(rt; send(b"abc", &mut sink), Ok(()));
    assert_eq!(rt; send(b"def", &mut sink), Err(Failed));
    assert_eq!(rt; sink.write(b""), Ok(0));
    assert_eq!(rt; sink.write(b"f"), Err(Failed));
    assert_eq!(rt; &room, b"abcde");
}

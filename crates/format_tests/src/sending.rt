//! What is sent to a sink: where it fails a prefix, and nothing after the failure.

use crate::made::entry_of;
use byte_streams::{Failed, Sink, VecSink, send, send_pieces};
use ima_list::send_entry;
use std::test::Fail;
use test_kit::devices::ShortSink;
use test_kit::lists::MEASUREMENT;
use test_kit::{once_more, repeated};

/// How many bytes a sink has room for, and how often it fails.
const ROOMS: [(usize, u64); 4] = [(0, 1), (2, 1), (5, 1), (6, 0)];

#[test]
fn bytes_sent_to_a_sink_that_fails(rt: HostRuntime) {
    for (room, failures) in ROOMS {
        let mut sink = ShortSink::new(room);
        assert_eq!(rt; send(b"abcdef", &mut sink).is_err(), failures == 1);
        assert_eq!(rt; Some(sink.bytes()), b"abcdef".get(..room));
        assert_eq!(rt; sink.failures(), failures);
    }
}

#[test]
fn pieces_sent_to_a_sink_that_fails(rt: HostRuntime) {
    let pieces = [b"".as_slice(), b"a", b"bcde", b"", b"f"];
    for (room, failures) in ROOMS {
        let mut sink = ShortSink::new(room);
        assert_eq!(rt; send_pieces(&pieces, &mut sink).is_err(), failures == 1);
        assert_eq!(rt; Some(sink.bytes()), b"abcdef".get(..room));
        assert_eq!(rt; sink.failures(), failures);
    }
}

/// Two million bytes, offered at once.
#[test]
fn many_bytes_taken_at_once(rt: HostRuntime) -> Result<(), Fail> {
    let bytes = repeated(rt.alloc(), b"\x07", 2_000_000)?;
    let mut sink = VecSink::new(Vec::new(rt.alloc()));
    assert_eq!(rt; once_more(Failed, || sink.write(&bytes))?, 2_000_000);
    Ok(())
}

/// Sending takes no memory: the sink has none to refuse.
#[test]
fn entry_sent_to_a_sink_that_fails(rt: HostRuntime) -> Result<(), Fail> {
    let entry = entry_of(rt.alloc(), MEASUREMENT)?;
    for room in [0, 3, 4, 24, 34, 38, 93, 94] {
        let mut sink = ShortSink::new(room);
        let answer = if room < 94 { Err(Failed) } else { Ok(()) };
        assert_eq!(rt; send_entry(&entry, &mut sink), answer);
        assert_eq!(rt; Some(sink.bytes()), MEASUREMENT.get(..room), "room {room}");
    }
    Ok(())
}

//! Colours that are sent to a sink that fails: it has a prefix of them.

use byte_streams::{Failed, send};
use terminal_colors::{ColorSink, send_colored};
use test_kit::devices::ShortSink;

/// Lines of a report, without colours and with them.
const TEXT: &[u8] = b"sha256 4 match\nverdict differ\n";

const COLORED: &[u8] = b"sha256 4 \x1b[32mmatch\x1b[0m\nverdict \x1b[31mdiffer\x1b[0m\n";

/// How many bytes a sink has room for: all in the last one.
const ROOMS: [usize; 7] = [0, 3, 12, 19, 24, 40, 48];

#[test]
fn colors_sent_to_a_sink_that_fails(rt: HostRuntime) {
    for room in ROOMS {
        let mut sink = ShortSink::new(room);
        let answer = if room < 48 { Err(Failed) } else { Ok(()) };
        assert_eq!(rt; send_colored(TEXT, &mut sink), answer);
        assert_eq!(rt; Some(sink.bytes()), COLORED.get(..room), "room {room}");
    }
}

#[test]
fn color_sinks_that_fail(rt: HostRuntime) {
    for room in ROOMS {
        let mut sink = ColorSink::new(ShortSink::new(room), true);
        assert_eq!(rt; send(TEXT, &mut sink).is_err(), room < 48);
        let taken = sink.into_inner();
        assert_eq!(rt; Some(taken.bytes()), COLORED.get(..room), "room {room}");
        let mut plain = ColorSink::new(ShortSink::new(room), false);
        assert_eq!(rt; send(TEXT, &mut plain).is_err(), room < 30);
        let taken = plain.into_inner();
        assert_eq!(rt;
            Some(taken.bytes()),
            TEXT.get(..room.min(30)),
            "room {room}"
        );
    }
}

//! Logs and lists that are cut short anywhere, or whose lengths are of bytes that are not there.

use crate::pieces::fed;
use boot_log::{LogFault, read_log};
use ima_list::{ListFault, read_list};
use std::alloc::{AllocError, Global};
use std::process::Abort;
use std::test::Fail;
use test_kit::joined;
use test_kit::lists::{MEASUREMENT, VIOLATION, list_of};
use test_kit::logs::{HEADER, log_of};

/// An event of register 4 and the type EV_SEPARATOR, with a digest of zero bytes, up to its data.
const EVENT_HEAD: &[u8] = b"\x04\x00\x00\x00\x04\x00\x00\x00\x01\x00\x00\x00\x0b\x00\
    \x00\x00\x00\x00\x00\x00\x00\x00\x00\x00\x00\x00\x00\x00\x00\x00\
    \x00\x00\x00\x00\x00\x00\x00\x00\x00\x00\x00\x00\x00\x00\x00\x00";

/// Its data, after their size.
const FOUR_ZEROS: &[u8] = b"\x04\x00\x00\x00\x00\x00\x00\x00";

/// An entry of the template `ima` up to the length of its path.
const IMA_HEAD: &[u8] = b"\x0a\x00\x00\x00\
    \x00\x00\x00\x00\x00\x00\x00\x00\x00\x00\x00\x00\x00\x00\x00\x00\x00\x00\x00\x00\
    \x03\x00\x00\x00ima\
    \x01\x01\x01\x01\x01\x01\x01\x01\x01\x01\x01\x01\x01\x01\x01\x01\x01\x01\x01\x01";

/// A length, or a number of rows, of more than there can be.
const LYING: &[u8] = b"\xff\xff\xff\xff";

/// How many entries these bytes have, byte by byte, and the fault at their end; none where a fault comes before it.
fn fed_byte_by_byte(alloc: Global, bytes: &[u8]) -> (usize, Option<ListFault>) {
    match fed(alloc, bytes, 1) {
        Ok(reader) => (reader.entries().len(), reader.finish().err()),
        Err(fault) => (0, Some(fault)),
    }
}

/// How many entries these bytes are.
fn entries_in(alloc: Global, bytes: &[u8]) -> Result<usize, ListFault> {
    Ok(list_of(alloc, bytes)?.len())
}

/// How many events these bytes have after their header.
fn events_in(alloc: Global, bytes: &[u8]) -> Result<usize, LogFault> {
    Ok(log_of(alloc, bytes)?.events().len())
}

/// The first bytes of two entries, byte by byte and as a whole.
fn assert_list_prefixes(rt: &impl Abort, alloc: Global) -> Result<(), Fail> {
    let bytes = joined(alloc, &[MEASUREMENT, VIOLATION])?;
    for length in 0..188 {
        let prefix = bytes.get(..length).ok_or("too few bytes")?;
        let (count, fault) = match length {
            0 => (0, None),
            94 => (1, None),
            187 => (2, None),
            1..94 => (0, Some(ListFault::Truncated { entry: 0 })),
            _ => (1, Some(ListFault::Truncated { entry: 1 })),
        };
        assert_eq!(rt;
            fed_byte_by_byte(alloc, prefix),
            (count, fault),
            "{length} bytes"
        );
        let answer = entries_in(alloc, prefix);
        assert_eq!(rt; answer, fault.map_or(Ok(count), Err), "{length} bytes");
    }
    Ok(())
}

/// The first bytes of a header and two events.
fn assert_log_prefixes(rt: &impl Abort, alloc: Global) -> Result<(), Fail> {
    let parts = [HEADER, EVENT_HEAD, FOUR_ZEROS, EVENT_HEAD, FOUR_ZEROS];
    let bytes = joined(alloc, &parts)?;
    for length in 0..174 {
        let prefix = bytes.get(..length).ok_or("too few bytes")?;
        let answer = match length {
            65 => Ok(0),
            119 => Ok(1),
            173 => Ok(2),
            0..65 => Err(LogFault::Truncated { event: 0 }),
            66..119 => Err(LogFault::Truncated { event: 1 }),
            _ => Err(LogFault::Truncated { event: 2 }),
        };
        assert_eq!(rt; events_in(alloc, prefix), answer, "{length} bytes");
    }
    Ok(())
}

/// The lengths of a template's name, of a payload and of a path. No entry stands before them, so a refused allocation is no answer.
fn assert_list_lies(rt: &impl Abort, alloc: Global) -> Result<(), Fail> {
    let truncated = ListFault::Truncated { entry: 0 };
    let long = ListFault::NameTooLong { entry: 0 };
    for (prefix, rest, fault) in [
        (&MEASUREMENT[..24], &MEASUREMENT[28..], truncated),
        (&MEASUREMENT[..34], &MEASUREMENT[38..], truncated),
        (IMA_HEAD, b"".as_slice(), long),
    ] {
        let bytes = joined(alloc, &[prefix, LYING, rest])?;
        assert_eq!(rt; read_list(alloc, &bytes).err(), Some(fault));
        assert_eq!(rt; fed_byte_by_byte(alloc, &bytes), (0, Some(fault)));
    }
    Ok(())
}

/// The size of a header's data, its number of algorithms, and the size of an event's data. Nothing whole stands before the event's
/// fault, so a refused allocation is no answer.
fn assert_log_lies(rt: &impl Abort, alloc: Global) -> Result<(), Fail> {
    let event = joined(alloc, &[HEADER, EVENT_HEAD])?;
    for (prefix, rest, fault) in [
        (
            &HEADER[..28],
            &HEADER[32..],
            LogFault::Truncated { event: 0 },
        ),
        (&HEADER[..56], &HEADER[60..], LogFault::BadHeader),
        (
            &event,
            b"\0\0\0\0".as_slice(),
            LogFault::Truncated { event: 1 },
        ),
    ] {
        let bytes = joined(alloc, &[prefix, LYING, rest])?;
        assert_eq!(rt; read_log(alloc, &bytes).err(), Some(fault));
    }
    Ok(())
}

#[test]
fn cuts_and_lying_lengths(rt: HostRuntime) -> Result<(), Fail> {
    let alloc = rt.alloc();
    assert_list_prefixes(&rt, alloc)?;
    assert_log_prefixes(&rt, alloc)?;
    assert_list_lies(&rt, alloc)?;
    assert_log_lies(&rt, alloc)
}

#[test]
fn each_allocation_refused_under_lying_lengths(rt: HostRuntime) -> Result<(), Fail> {
    assert_list_lies(&rt, rt.alloc())?;
    assert_log_lies(&rt, rt.alloc())
}

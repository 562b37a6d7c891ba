//! Lists that come in pieces.

ghost use Rattle.std.specs.Prelude.{◌<◌};

use ima_list::{ListFault, ListReader};
use std::alloc::{AllocError, Global};
use std::process::Abort;
use std::test::Fail;
use test_kit::lists::{MEASUREMENT, list_of, spellings};
use test_kit::{joined, once_more, repeated};

/// An entry of register 10 with the digest of a violation and the name `ima-xx`, up to the length of its payload.
pub const OTHER_HEAD: &[u8] = b"\x0a\x00\x00\x00\
    \x00\x00\x00\x00\x00\x00\x00\x00\x00\x00\x00\x00\x00\x00\x00\x00\x00\x00\x00\x00\
    \x06\x00\x00\x00ima-xx";

/// A register that there is not.
const REGISTER_24: &[u8] = b"\x18\0\0\0";

/// Feeds a piece; once more where memory was refused.
fn feed(reader: &mut ListReader, piece: &[u8]) -> Result<(), ListFault> {
    once_more(ListFault::Memory, || reader.feed(piece))
}

/// A reader that took the bytes in pieces of this size.
pub fn fed(alloc: Global, bytes: &[u8], size: usize) -> Result<ListReader, ListFault>
    requires { 0 < size }
{
    let mut reader = ListReader::new(alloc);
    for piece in bytes.chunks(size) {
        feed(&mut reader, piece)?;
    }
    Ok(reader)
}

/// The entries that come in pieces of this size are spelled as these bytes.
fn assert_read(rt: &impl Abort, alloc: Global, bytes: &[u8], size: usize) -> Result<(), Fail>
    requires { 0 < size }
{
    let entries = fed(alloc, bytes, size)?.finish()?;
    assert!(rt; spellings(alloc, &entries)?.as_slice() == bytes);
    Ok(())
}

/// No entry before its last byte; then the entry of `/bin/sh`.
#[test]
fn entry_fed_byte_by_byte(rt: HostRuntime) -> Result<(), ListFault> {
    let mut reader = ListReader::new(rt.alloc());
    for byte in MEASUREMENT {
        assert_eq!(rt; reader.entries().len(), 0);
        feed(&mut reader, &[*byte])?;
    }
    assert!(rt; reader.entries() == list_of(rt.alloc(), MEASUREMENT)?.as_slice());
    Ok(())
}

/// Of a piece with a fault after a whole entry nothing is taken, and the reader reads on.
fn assert_nothing_taken(rt: &impl Abort, alloc: Global) -> Result<(), Fail> {
    let mut reader = ListReader::new(alloc);
    let bad = joined(alloc, &[MEASUREMENT, REGISTER_24])?;
    let fault = ListFault::BadRegister { entry: 1 };
    assert_eq!(rt; feed(&mut reader, &bad), Err(fault));
    assert_eq!(rt; reader.entries().len(), 0);
    feed(&mut reader, MEASUREMENT)?;
    assert_eq!(rt;
        spellings(alloc, &reader.finish()?)?.as_slice(),
        MEASUREMENT
    );
    Ok(())
}

/// A fault within an entry that is cut short leaves the reader as it was, whatever follows it in its piece.
fn assert_fault_within(rt: &impl Abort, alloc: Global) -> Result<(), ListFault> {
    let mut reader = fed(alloc, MEASUREMENT, 7)?;
    feed(&mut reader, &REGISTER_24[..3])?;
    let fault = ListFault::BadRegister { entry: 1 };
    assert_eq!(rt; feed(&mut reader, b"\0and more"), Err(fault));
    assert_eq!(rt; reader.entries().len(), 1);
    let truncated = ListFault::Truncated { entry: 1 };
    assert_eq!(rt; reader.finish().err(), Some(truncated));
    Ok(())
}

#[test]
fn each_allocation_refused_in_feed_of_a_fault(rt: HostRuntime) -> Result<(), Fail> {
    assert_nothing_taken(&rt, rt.alloc())?;
    assert_fault_within(&rt, rt.alloc())?;
    assert_eq!(rt; ListReader::new(rt.alloc()).finish()?.len(), 0);
    Ok(())
}

/// Two entries with no name and no payload.
const TWO_ENTRIES: &[u8] = b"\x0a\x00\x00\x00\
    \x00\x00\x00\x00\x00\x00\x00\x00\x00\x00\x00\x00\x00\x00\x00\x00\x00\x00\x00\x00\
    \x00\x00\x00\x00\x00\x00\x00\x00\
    \x0a\x00\x00\x00\
    \x00\x00\x00\x00\x00\x00\x00\x00\x00\x00\x00\x00\x00\x00\x00\x00\x00\x00\x00\x00\
    \x00\x00\x00\x00\x00\x00\x00\x00";

#[test]
fn each_allocation_refused_in_feed(rt: HostRuntime) -> Result<(), Fail> {
    assert_read(&rt, rt.alloc(), MEASUREMENT, 1)?;
    assert_read(&rt, rt.alloc(), TWO_ENTRIES, 50)
}

/// Twelve thousand, in pieces and as a whole.
#[test]
fn many_entries(rt: HostRuntime) -> Result<(), Fail> {
    let alloc = rt.alloc();
    let bytes = repeated(alloc, MEASUREMENT, 12_000)?;
    assert_read(&rt, alloc, &bytes, 7)?;
    assert_eq!(rt; list_of(alloc, &bytes)?.len(), 12_000);
    Ok(())
}

/// An entry with a payload of a mebibyte, and one after it.
fn large_and_small(alloc: Global) -> Result<Vec<u8>, AllocError> {
    let payload = repeated(alloc, b"\xab", 1024 * 1024)?;
    joined(alloc, &[OTHER_HEAD, b"\0\0\x10\0", &payload, MEASUREMENT])
}

/// Where the large one ends.
const LARGE_END: usize = 38 + 1024 * 1024;

/// The first of these bytes have so many whole entries, and with the others these are the bytes' entries.
fn assert_read_in_two(
    rt: &impl Abort,
    alloc: Global,
    bytes: &[u8],
    cut: usize,
    count: usize,
) -> Result<(), Fail> {
    let (first, second) = bytes.split_at(bytes.len().min(cut));
    let mut reader = ListReader::new(alloc);
    feed(&mut reader, first)?;
    assert_eq!(rt; reader.entries().len(), count, "cut at {cut}");
    feed(&mut reader, second)?;
    assert!(rt; spellings(alloc, &reader.finish()?)?.as_slice() == bytes);
    Ok(())
}

#[test]
fn large_payload_cut_anywhere(rt: HostRuntime) -> Result<(), Fail> {
    let alloc = rt.alloc();
    let bytes = large_and_small(alloc)?;
    for cut in [1, 4, 37, 38, 39, 102, 500_000, LARGE_END - 1] {
        assert_read_in_two(&rt, alloc, &bytes, cut, 0)?;
    }
    for cut in [LARGE_END, LARGE_END + 1, LARGE_END + 93] {
        assert_read_in_two(&rt, alloc, &bytes, cut, 1)?;
    }
    Ok(())
}

//! Books that are exported.

use super::operations::assert_example;
use super::runs::AFTER_THREE;
use crate::books::deeds::THREE;
use ima_list::{ListFault, ReplayFault, VecSink, replay};
use measure_book::{Book, ExportFault};
use pcr_banks::{Alg, Banks};
use std::alloc::Global;
use std::test::Fail;
use test_kit::books::origin;
use test_kit::joined;
use test_kit::lists::{MEASUREMENT, list_of};
use test_kit::registers::{sha256_of, start};

/// The spellings of the boot aggregate of registers at reset, the SHA-256 of 320 zero bytes, and of `/bin/sh` with no content.
pub const OPENING: &[u8] = b"\x0a\x00\x00\x00\
    \x6b\xda\xd7\xef\xa6\x02\xf8\x4c\xa3\x1f\xfe\x3f\x11\xff\x7c\x47\x6e\x25\xdc\xdd\
    \x06\x00\x00\x00ima-ng\
    \x3f\x00\x00\x00\
    \x28\x00\x00\x00sha256:\x00\
    \x7b\x64\x36\xb0\xc9\x8f\x62\x38\x08\x66\xd9\x43\x2c\x2a\xf0\xee\
    \x08\xce\x16\xa1\x71\xbd\xa6\x95\x1a\xec\xd9\x5e\xe1\x30\x7d\x61\
    \x0f\x00\x00\x00boot_aggregate\x00";

pub const EMPTY: &[u8] = b"\x0a\x00\x00\x00\
    \xdf\x64\x96\xba\x01\x6d\xb6\x52\x04\x47\x7d\xb1\x3f\xa7\x71\x23\x7e\x42\xc7\x14\
    \x06\x00\x00\x00ima-ng\
    \x38\x00\x00\x00\
    \x28\x00\x00\x00sha256:\x00\
    \xe3\xb0\xc4\x42\x98\xfc\x1c\x14\x9a\xfb\xf4\xc8\x99\x6f\xb9\x24\
    \x27\xae\x41\xe4\x64\x9b\x93\x4c\xa4\x95\x99\x1b\x78\x52\xb8\x55\
    \x08\x00\x00\x00/bin/sh\x00";

/// The book's export; into another sink once more where an allocation was refused.
fn export_of(alloc: Global, book: &Book) -> Result<Vec<u8>, ExportFault> {
    match exported(alloc, book) {
        Err(ExportFault::Sink) => exported(alloc, book),
        answer => answer,
    }
}

fn exported(alloc: Global, book: &Book) -> Result<Vec<u8>, ExportFault> {
    let mut sink = VecSink::new(Vec::new(alloc));
    book.export(&mut sink)?;
    Ok(sink.into_bytes())
}

/// The registers after the replay of the list that the bytes are.
fn replayed(
    alloc: Global,
    start: Banks,
    bytes: &[u8],
) -> Result<Result<Banks, ReplayFault>, ListFault> {
    let list = list_of(alloc, bytes)?;
    Ok(replay(start, &list))
}

/// Whether the book's export is these spellings, joined, which read back and replay to the book's registers.
pub fn exports(alloc: Global, book: &Book, spellings: &[&[u8]]) -> Result<bool, Fail> {
    let text = joined(alloc, spellings)?;
    let found = export_of(alloc, book)?;
    let banks = replayed(alloc, book.origin().start, &text)?;
    Ok(found.as_slice() == text.as_slice() && banks.ok() == Some(*book.banks()))
}

/// With the last byte of an entry changed, an export is replayed no more.
#[test]
fn export_replays(rt: HostRuntime) -> Result<(), Fail> {
    let alloc = rt.alloc();
    let list: &[&[u8]] = &[OPENING, MEASUREMENT, EMPTY];
    assert_example(&rt, alloc, origin(100), &THREE, 4, list, AFTER_THREE)?;
    let mut text = joined(alloc, list)?;
    let banks = replayed(alloc, start(), &text)?.ok().ok_or("no registers")?;
    assert!(rt; banks.read(Alg::Sha256, 10) == Some(sha256_of(AFTER_THREE)?));
    if let Some(last) = text.last_mut() {
        *last = 1;
    }
    let fault = replayed(alloc, start(), &text)?.err();
    assert!(rt; fault == Some(ReplayFault::BadTemplateDigest { entry: 2 }));
    Ok(())
}

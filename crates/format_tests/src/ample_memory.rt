//! Calls that want all their memory, each made once: on a log of very many events, on a list of the longest entries, and on an entry with a
//! large payload. A body that gives up without reason fails here.

use crate::pieces::OTHER_HEAD;
use boot_log::read_log;
use ima_list::{Entry, Template, read_list, write_entry};
use pcr_banks::{Alg, hash};
use std::alloc::Global;
use std::process::Abort;
use std::test::Fail;
use test_kit::lists::{LONGEST_PATH, longest_sig};
use test_kit::logs::{EVENT, HEADER};
use test_kit::{joined, repeated};

#[test]
fn log_of_a_hundred_thousand_events(rt: HostRuntime) -> Result<(), Fail> {
    let alloc = rt.alloc();
    let events = repeated(alloc, EVENT, 100_000)?;
    let bytes = joined(alloc, &[HEADER, &events])?;
    let log = read_log(alloc, &bytes)?;
    assert_eq!(rt; log.events().len(), 100_000);
    Ok(())
}

/// The longest entry that there is of `ima-sig`.
fn longest_entry(alloc: Global) -> Result<Entry, Fail> {
    let sig = longest_sig(alloc)?;
    let file = hash(Alg::Sha512, b"abc");
    let template = Template::ImaSig;
    Ok(Entry::measurement(alloc, 10, template, &file, LONGEST_PATH, &sig)?)
}

/// A hundred of the longest entries, which are read and written: nearly 7 MiB.
#[test]
fn list_of_the_longest_entries(rt: HostRuntime) -> Result<(), Fail> {
    let alloc = rt.alloc();
    let mut spelling = Vec::new(alloc);
    write_entry(&longest_entry(alloc)?, &mut spelling)?;
    let bytes = repeated(alloc, &spelling, 100)?;
    let mut written = Vec::new(alloc);
    for entry in &read_list(alloc, &bytes)? {
        write_entry(entry, &mut written)?;
    }
    assert!(rt; written == bytes);
    Ok(())
}

/// How many bytes the payload of a large entry has.
const LARGE: usize = 2 * 1024 * 1024;

/// An entry of another template with a payload of this size.
fn large_entry(alloc: Global) -> Result<Vec<Entry>, Fail> {
    let payload = repeated(alloc, b"\xab", LARGE)?;
    let bytes = joined(alloc, &[OTHER_HEAD, b"\0\0\x20\0", &payload])?;
    Ok(read_list(alloc, &bytes)?)
}

/// What is copied and hashed of a large entry is its payload, and its line has two digits for each byte after 51 characters, and a line feed.
fn assert_large(rt: &impl Abort, alloc: Global, entry: &Entry) -> Result<(), Fail> {
    assert!(rt; entry.payload_copy()?.as_slice() == entry.payload());
    let mut hashed = Vec::new(alloc);
    entry.hashed_bytes(&mut hashed)?;
    assert!(rt; hashed.as_slice() == entry.payload());
    let mut line = Vec::new(alloc);
    entry.line(&mut line)?;
    assert_eq!(rt; line.len(), 51 + 2 * LARGE + 1);
    Ok(())
}

#[test]
fn large_payload_is_copied_hashed_and_shown(rt: HostRuntime) -> Result<(), Fail> {
    for entry in &large_entry(rt.alloc())? {
        assert_large(&rt, rt.alloc(), entry)?;
    }
    Ok(())
}

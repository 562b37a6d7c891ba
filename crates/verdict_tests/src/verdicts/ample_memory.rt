//! Calls that want all their memory, each made once: on a log of very many events and a list of very many entries. A body that gives up without
//! reason fails here.

use boot_verdict::{locate, verify, verify_from};
use byte_streams::SliceSource;
use pcr_values::read_expected;
use std::test::Fail;
use test_kit::lists::MEASUREMENT;
use test_kit::logs::{EVENT, HEADER};
use test_kit::samples::EXPECTED;
use test_kit::{joined, repeated};

#[test]
fn verdicts_on_many_events_and_entries(rt: HostRuntime) -> Result<(), Fail> {
    let alloc = rt.alloc();
    let events = repeated(alloc, EVENT, 5_000)?;
    let log = joined(alloc, &[HEADER, &events])?;
    let list = repeated(alloc, MEASUREMENT, 5_000)?;
    let expected = read_expected(alloc, EXPECTED)?;
    let report = verify(alloc, &log, &list, &expected)?;
    assert_eq!(rt; (report.events, report.entries), (5_000, 5_000));
    let mut source = SliceSource::new(&list);
    let report = verify_from(alloc, &log, &mut source, 2_000_000, &expected)?;
    assert_eq!(rt; (report.events, report.entries), (5_000, 5_000));
    assert_eq!(rt; locate(alloc, &log, &list, &expected)?.len(), 3);
    Ok(())
}

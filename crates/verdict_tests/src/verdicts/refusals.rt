//! Calls in which an allocation is refused: each answers that memory ran out, or what it answers with ample memory; and then the
//! same call answers the latter. `tests/faults/sweep.py` refuses the allocations, one in each run.

use super::texts::{Text, expected, positions, report};
use boot_verdict::{VerifyFault, list_start, replay_from, verify_from};
use byte_streams::SliceSource;
use pcr_values::{ExpectFault, read_expected, read_printed};
use std::test::Fail;
use test_kit::devices::PieceSource;
use test_kit::lists::MEASUREMENT;
use test_kit::once_more;
use test_kit::samples::{
    EXPECTED, LIST, LOG, MEASUREMENT_REGISTERS, PLACES, PRINTED, PRINTED_LINE, REPORT,
};

/// Three registers; and the first of them twice.
#[test]
fn each_allocation_refused_in_read_expected(rt: HostRuntime) -> Result<(), Fail> {
    let alloc = rt.alloc();
    let three = expected(alloc)?;
    assert_eq!(rt; Text::Expected(&three).written(alloc)?.as_slice(), EXPECTED);
    const TWICE: &[u8] = b"sha1 4 0000000000000000000000000000000000000000
sha1 4 0000000000000000000000000000000000000000";
    let fault = once_more(ExpectFault::Memory, || read_expected(alloc, TWICE)).err();
    assert_eq!(rt; fault, Some(ExpectFault::DoubleLine { line: 2 }));
    Ok(())
}

/// One register; and then a line that states none.
#[test]
fn each_allocation_refused_in_read_printed(rt: HostRuntime) -> Result<(), Fail> {
    let alloc = rt.alloc();
    let one = once_more(ExpectFault::Memory, || read_printed(alloc, PRINTED))?;
    assert_eq!(rt;
        Text::Expected(&one).written(alloc)?.as_slice(),
        PRINTED_LINE
    );
    const WRONG: &[u8] = b"  sha1:\n    4 : 0x0000000000000000000000000000000000000000\nx";
    let fault = once_more(ExpectFault::Memory, || read_printed(alloc, WRONG)).err();
    assert_eq!(rt; fault, Some(ExpectFault::BadLine { line: 3 }));
    Ok(())
}

/// The report has a row of each state.
#[test]
fn each_allocation_refused_in_verify(rt: HostRuntime) -> Result<(), Fail> {
    let report = report(rt.alloc(), &expected(rt.alloc())?)?;
    let text = Text::Report(&report).written(rt.alloc())?;
    assert_eq!(rt; text.as_slice(), REPORT);
    Ok(())
}

/// The report is the same of a list that comes in pieces of seven bytes; and of ten bytes of it at most.
#[test]
fn each_allocation_refused_in_verify_from(rt: HostRuntime) -> Result<(), Fail> {
    let alloc = rt.alloc();
    let expected = expected(alloc)?;
    let report = once_more(VerifyFault::Memory, || {
        verify_from(
            alloc,
            LOG,
            &mut PieceSource::new(LIST, 7),
            u64::MAX,
            &expected,
        )
    })?;
    assert_eq!(rt; Text::Report(&report).written(alloc)?.as_slice(), REPORT);
    let fault = once_more(VerifyFault::Memory, || {
        verify_from(alloc, LOG, &mut SliceSource::new(LIST), 10, &expected)
    })
    .err();
    assert_eq!(rt; fault, Some(VerifyFault::TooLong));
    Ok(())
}

/// A position after an entry, one that is nowhere, and one of no bank.
#[test]
fn each_allocation_refused_in_locate(rt: HostRuntime) -> Result<(), Fail> {
    let positions = positions(rt.alloc(), &expected(rt.alloc())?)?;
    let text = Text::Positions(&positions).written(rt.alloc())?;
    assert_eq!(rt; text.as_slice(), PLACES);
    Ok(())
}

/// A list that comes in pieces of seven bytes.
#[test]
fn each_allocation_refused_in_replay_from(rt: HostRuntime) -> Result<(), Fail> {
    let alloc = rt.alloc();
    let registers = once_more(VerifyFault::Memory, || {
        replay_from(alloc, &mut PieceSource::new(MEASUREMENT, 7), u64::MAX)
    })?;
    let text = Text::Registers(&registers, &list_start()).written(alloc)?;
    assert_eq!(rt; text.as_slice(), MEASUREMENT_REGISTERS);
    Ok(())
}

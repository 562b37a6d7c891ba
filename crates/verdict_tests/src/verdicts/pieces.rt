//! Lists that come in pieces, from sources that end, fail, or give more than they may.

use boot_log::LogFault;
use boot_verdict::{VerifyFault, verify_from};
use ima_list::{ListFault, ReplayFault};
use std::alloc::Global;
use std::process::Abort;
use std::test::Fail;
use test_kit::devices::PieceSource;
use test_kit::joined;
use test_kit::lists::{MEASUREMENT, VIOLATION};
use test_kit::logs::HEADER;
use test_kit::samples::{LIST, LOG};

/// How many entries a list has, or why there is no report; and how often its source failed.
type Answer = (Result<usize, VerifyFault>, u64);

/// The answer on what a source gives; once more where an allocation was refused.
fn answer_of(alloc: Global, log: &[u8], source: PieceSource<'_>, limit: u64) -> Answer {
    let first = first_answer_of(alloc, log, source, limit);
    if first.0 == Err(VerifyFault::Memory) {
        return first_answer_of(alloc, log, source, limit);
    }
    first
}

fn first_answer_of(alloc: Global, log: &[u8], source: PieceSource<'_>, limit: u64) -> Answer {
    let mut source = source;
    let answer = verify_from(alloc, log, &mut source, limit, &[]);
    (answer.map(|report| report.entries), source.failures())
}

/// The measurement with another template digest than its own.
const FORGED: &[u8] = b"\x0a\x00\x00\x00\
    \x83\xfd\xff\x31\x51\x75\x58\x71\x57\xed\x3a\xa6\x04\xe7\xf9\xec\x63\xca\x0b\x43\
    \x06\x00\x00\x00ima-ng\
    \x38\x00\x00\x00\
    \x28\x00\x00\x00sha256:\x00\
    \xba\x78\x16\xbf\x8f\x01\xcf\xea\x41\x41\x40\xde\x5d\xae\x22\x23\
    \xb0\x03\x61\xa3\x96\x17\x7a\x9c\xb4\x10\xff\x61\xf2\x00\x15\xad\
    \x08\x00\x00\x00/bin/sh\x00";

/// A register that there is not.
const FOREIGN: &[u8] = b"\x18\x00\x00\x00";

fn foreign(entry: usize) -> VerifyFault {
    VerifyFault::List(ListFault::BadRegister { entry })
}

fn forged(entry: usize) -> VerifyFault {
    VerifyFault::Replay(ReplayFault::BadTemplateDigest { entry })
}

fn truncated(entry: usize) -> VerifyFault {
    VerifyFault::List(ListFault::Truncated { entry })
}

/// The answer on the joined list, whatever pieces it comes in.
fn assert_answer(
    rt: &(impl AllocGlobal + Abort),
    list: &[&[u8]],
    limit: u64,
    answer: Result<usize, VerifyFault>,
) -> Result<(), Fail> {
    let list = joined(rt.alloc(), list)?;
    for most in [1, 7, 100, 4_096] {
        let source = PieceSource::new(&list, most);
        let found = answer_of(rt.alloc(), LOG, source, limit);
        assert_eq!(rt; found, (answer, 0), "limit {limit}, {most} at once");
    }
    Ok(())
}

/// A limit counts whole bytes, and a fault of the bytes before it comes first. An entry that is not genuine is told only where the list ends
/// after it.
#[test]
fn pieces_limits_and_faults(rt: HostRuntime) -> Result<(), Fail> {
    for (list, limit, answer) in [
        ([MEASUREMENT, b""], 94, Ok(1)),
        ([MEASUREMENT, b""], 93, Err(VerifyFault::TooLong)),
        ([MEASUREMENT, b""], 0, Err(VerifyFault::TooLong)),
        ([b"", b""], 0, Ok(0)),
        ([LIST, b""], u64::MAX, Ok(3)),
        ([FOREIGN, MEASUREMENT], 10, Err(foreign(0))),
        ([FOREIGN, MEASUREMENT], 3, Err(VerifyFault::TooLong)),
        ([FORGED, VIOLATION], 187, Err(forged(0))),
        ([FORGED, VIOLATION], 186, Err(VerifyFault::TooLong)),
        ([FORGED, FOREIGN], u64::MAX, Err(foreign(1))),
        ([FORGED, b"\x0a\x00"], u64::MAX, Err(truncated(1))),
    ] {
        assert_answer(&rt, &list, limit, answer)?;
    }
    Ok(())
}

/// Each read that fails is the answer, and is one failure; after so many reads the answer is known, and no more are made. So also
/// behind an entry that is not genuine, and at once if the log is none.
#[test]
fn each_read_of_a_list_fails(rt: HostRuntime) -> Result<(), Fail> {
    let none = VerifyFault::Log(LogFault::Truncated { event: 0 });
    for (log, list, most, needed, answer) in [
        (b"".as_slice(), [MEASUREMENT, b"", b""], 94, 0, Err(none)),
        (HEADER, [b"", b"", b""], 1, 1, Ok(0)),
        (LOG, [LIST, b"", b""], 1, 290, Ok(3)),
        (LOG, [LIST, b"", b""], 3, 98, Ok(3)),
        (LOG, [LIST, b"", b""], 50, 7, Ok(3)),
        (LOG, [LIST, b"", b""], usize::MAX, 2, Ok(3)),
        (
            LOG,
            [MEASUREMENT, FOREIGN, VIOLATION],
            1,
            98,
            Err(foreign(1)),
        ),
        (LOG, [FORGED, VIOLATION, b""], 1, 188, Err(forged(0))),
        (LOG, [FORGED, VIOLATION, b""], 94, 3, Err(forged(0))),
    ] {
        let list = joined(rt.alloc(), &list)?;
        for reads in 0..=needed {
            let source = PieceSource::failing(&list, most, reads);
            let found = answer_of(rt.alloc(), log, source, u64::MAX);
            let failed = (Err(VerifyFault::Source), 1);
            let wanted = if reads < needed { failed } else { (answer, 0) };
            assert_eq!(rt; found, wanted, "{reads} reads of {most}");
        }
    }
    Ok(())
}

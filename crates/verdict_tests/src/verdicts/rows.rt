//! Reports on expected registers that no text can state: registers that there are not, and more than all banks have.

use boot_verdict::{Report, State, VerifyFault, verify};
use pcr_banks::{Alg, Digest};
use pcr_values::Expected;
use std::alloc::{AllocError, Global};
use std::test::Fail;
use test_kit::once_more;
use test_kit::registers::{SHA256_OF_64_ZEROS, sha256_of};
use test_kit::samples::LOG;

/// The report on the log and a list of no entries; once more where an allocation was refused.
fn report_on(alloc: Global, expected: &[Expected]) -> Result<Report, VerifyFault> {
    once_more(VerifyFault::Memory, || verify(alloc, LOG, b"", expected))
}

/// The expected register of this number, and how it compares with the registers after the log, where PCR 4 is this. A register of
/// 24 is one that there is not.
fn numbered(number: u32, extended: Digest) -> (Expected, State) {
    let register = number % 25;
    let zeros = Digest::zero(Alg::Sha256);
    let value = if number % 2 == 0 { zeros } else { extended };
    let found = match register {
        4 => extended,
        17..=22 => Digest::ones(Alg::Sha256),
        _ => zeros,
    };
    let state = if register == 24 {
        State::Absent
    } else if value == found {
        State::Match
    } else {
        State::Differ(found)
    };
    let expected = Expected {
        alg: Alg::Sha256,
        register,
        value,
    };
    (expected, state)
}

/// Each has its row, in their order.
#[test]
fn thousand_and_one_expected_registers(rt: HostRuntime) -> Result<(), Fail> {
    const COUNT: u32 = 1_001;
    let alloc = rt.alloc();
    let extended = sha256_of(SHA256_OF_64_ZEROS)?;
    let expected = once_more(AllocError, || {
        let mut expected = Vec::new(alloc);
        for number in 0..COUNT {
            expected.push(numbered(number, extended).0)?;
        }
        Ok::<Vec<Expected>, AllocError>(expected)
    })?;
    let report = report_on(alloc, &expected)?;
    assert_eq!(rt; report.rows.len(), 1_001);
    for (number, row) in (0..COUNT).zip(&report.rows) {
        let (expected, state) = numbered(number, extended);
        assert_eq!(rt; row.expected, expected, "row {number}");
        assert_eq!(rt; row.state, state, "row {number}");
    }
    Ok(())
}

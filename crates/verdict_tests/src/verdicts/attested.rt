//! A log and a list, judged by a quote; and what is against others.

use super::real_boot::{FIRMWARE_LOG, IMA_LIST};
use attestations::{AttestFault, Cause, Policy, PolicyFault, QuoteRefusal, attest};
use boot_log::LogFault;
use boot_verdict::{AggregateRule, Requirement, VerifyFault};
use ima_list::ListFault;
use pcr_values::SelectionFault;
use std::alloc::{AllocError, Global};
use std::test::Fail;
use test_kit::samples::{LIST, LOG, QUOTE, QUOTE_NONCE};
use test_kit::{joined, once_more};

/// Registers 0 to 10 of SHA-256.
fn required(alloc: Global) -> Result<Requirement, SelectionFault> {
    once_more(
        SelectionFault::Memory,
        || Requirement::from_text(alloc, b"sha256:0-10"),
    )
}

/// The log and the list of a real boot, by the quote of the TPM into which both were extended.
#[test]
fn real_boot_is_attested(rt: HostRuntime) -> Result<(), Fail> {
    let required = required(rt.alloc())?;
    let policy = Policy {
        nonce: QUOTE_NONCE,
        required: &required,
        takes_sha1: false,
        rule: AggregateRule::PLAIN,
    };
    let attested = attest(FIRMWARE_LOG, IMA_LIST, QUOTE, &policy)?;
    assert_eq!(rt; attested.events, 24);
    assert_eq!(rt; attested.locality, 0);
    assert_eq!(rt; attested.entries, 99);
    assert_eq!(rt; attested.quote.clock.resets, 1);
    Ok(())
}

/// The small log with register 10 in its event, and the small list with register 11 in its first entry.
fn extending(alloc: Global) -> Result<Vec<u8>, AllocError> {
    joined(alloc, &[&LOG[..65], b"\x0a", &LOG[66..]])
}

fn stray(alloc: Global) -> Result<Vec<u8>, AllocError> {
    joined(alloc, &[b"\x0b", &LIST[1..]])
}

/// Logs, lists and nonces, and what is wrong with them. Where two things are wrong the first is told.
#[test]
fn evidence_that_the_quote_is_not_of(rt: HostRuntime) -> Result<(), Fail> {
    let alloc = rt.alloc();
    let required = required(alloc)?;
    let (extending, stray) = (extending(alloc)?, stray(alloc)?);
    let stray_entry = Cause::ListExtends {
        entry: 0,
        register: 11,
    };
    let cases: [(&[u8], &[u8], &[u8], AttestFault); 8] = [
        (
            b"",
            b"",
            &QUOTE_NONCE[..15],
            AttestFault::Policy(PolicyFault::ShortNonce),
        ),
        (
            b"",
            b"",
            &QUOTE_NONCE[..19],
            AttestFault::Quote(QuoteRefusal::OtherNonce),
        ),
        (
            b"",
            b"\x0a",
            QUOTE_NONCE,
            AttestFault::Boot(VerifyFault::Log(LogFault::Truncated { event: 0 })),
        ),
        (
            extending.as_slice(),
            b"\x0a",
            QUOTE_NONCE,
            AttestFault::Boot(VerifyFault::List(ListFault::Truncated { entry: 0 })),
        ),
        (
            extending.as_slice(),
            stray.as_slice(),
            QUOTE_NONCE,
            AttestFault::Against(Cause::LogExtends { event: 1 }),
        ),
        (
            FIRMWARE_LOG,
            stray.as_slice(),
            QUOTE_NONCE,
            AttestFault::Against(stray_entry),
        ),
        (
            FIRMWARE_LOG,
            LIST,
            QUOTE_NONCE,
            AttestFault::Against(Cause::BadAggregate),
        ),
        (LOG, LIST, QUOTE_NONCE, AttestFault::Against(Cause::Differs)),
    ];
    for (log, list, nonce, fault) in cases {
        let policy = Policy {
            nonce,
            required: &required,
            takes_sha1: false,
            rule: AggregateRule::PLAIN,
        };
        assert_eq!(rt; attest(log, list, QUOTE, &policy).err(), Some(fault));
    }
    Ok(())
}

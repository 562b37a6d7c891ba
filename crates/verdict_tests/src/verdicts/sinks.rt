//! Texts that are sent to sinks that fail at each write.

use super::texts::{Text, book, expected, positions, report};
use pcr_banks::{Alg, AlgSet, Banks, Digest, PerBank};
use std::process::Abort;
use std::test::Fail;
use test_kit::samples::{EXPECTED, LIST, PLACES, REPORT};
use test_kit::sinks::PieceSink;

/// Each write of a text that is reached fails in turn, where a write takes so many bytes at most; and then none.
fn assert_each_write_fails(rt: &impl Abort, sent: &Text<'_>, text: &[u8], most: usize) {
    for writes in 0..text.len() {
        let mut sink = PieceSink::failing(text, most, writes);
        let is_sent = sent.send(&mut sink).is_ok();
        let is_success = if is_sent {
            sink.is_full()
        } else {
            sink.is_cut()
        };
        assert!(rt; is_success, "{writes} writes of {most}");
    }
    let mut sink = PieceSink::failing(text, most, text.len());
    assert!(rt; sent.send(&mut sink).is_ok() && sink.is_full());
}

/// Register 4 of SHA-1 and of SHA-384 after zero bytes, as `sha1sum` and `sha384sum` give the hashes of 40 and of 96 of them.
const TWO_BANKS: &[u8] = b"\
sha1 4 b80de5d138758541c5f05265ad144ab9fa86d1db
sha384 4 f57bb7ed82c6ae4a29e6c9879338c592c7d42a39135583e8ccbe3940f2344b0eb6eb8503db0ffd6a39ddd00cd07d8317
";

/// By sinks that take one byte a write, three, or all that are offered.
fn assert_sent(rt: &impl Abort, sent: &Text<'_>, text: &[u8]) {
    for most in [1, 3, usize::MAX] {
        assert_each_write_fails(rt, sent, text, most);
    }
}

#[test]
fn verdicts_to_failing_sinks(rt: HostRuntime) -> Result<(), Fail> {
    let expected = expected(rt.alloc())?;
    assert_sent(&rt, &Text::Expected(&expected), EXPECTED);
    let report = report(rt.alloc(), &expected)?;
    assert_sent(&rt, &Text::Report(&report), REPORT);
    let positions = positions(rt.alloc(), &expected)?;
    assert_sent(&rt, &Text::Positions(&positions), PLACES);
    Ok(())
}

#[test]
fn exports_to_failing_sinks(rt: HostRuntime) -> Result<(), Fail> {
    let book = book(rt.alloc())?;
    assert_sent(&rt, &Text::List(&book), LIST);
    Ok(())
}

#[test]
fn registers_to_failing_sinks(rt: HostRuntime) {
    let start = Banks::new(AlgSet::empty().with(Alg::Sha1).with(Alg::Sha384), 0);
    let mut now = start;
    now.extend(4, &zeros());
    assert_sent(&rt, &Text::Registers(&now, &start), TWO_BANKS);
}

/// Zero bytes for two banks.
fn zeros() -> PerBank {
    PerBank::empty()
        .with(Digest::zero(Alg::Sha1))
        .with(Digest::zero(Alg::Sha384))
}

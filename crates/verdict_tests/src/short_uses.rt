//! Each function of `uses` on a small log, and what comes of it.

mod samples;

use boot_log::LogFault;
use boot_verdict::VerifyFault;
use hash_workers::Job;
use ima_list::{ListFault, Sig};
use measure_book::{Answer, BookFault, Outcome};
use pcr_banks::{Alg, Digest};
use pcr_values::ExpectFault;
use samples::{AFTER_THREE, AFTER_TWO, EXPECTED, LIST, LOG, PCR_4};
use std::alloc::{AllocError, Global};
use std::test::Fail;
use uses::{
    UseFault, boot_manager_register, measure_by_four, measurement, registers_match, share_book,
};

/// The bytes of hexadecimal digits.
fn bytes_of(alloc: Global, digits: &str) -> Result<Vec<u8>, Fail> {
    Ok(hex::decode(alloc, digits.as_bytes())?)
}

/// The SHA-256 digest of these digits.
fn sha256_of(digits: &str) -> Option<Digest> {
    Digest::from_hex(Alg::Sha256, digits.as_bytes())
}

/// A file without a signature.
fn file(alloc: Global, path: &[u8], content: &[u8]) -> Result<Job, AllocError> {
    Ok(Job::File {
        path: Vec::from_slice(alloc, path)?,
        content: Vec::from_slice(alloc, content)?,
        sig: Sig::empty(alloc),
    })
}

/// The answer of each outcome, in order; `None` where the operation was refused.
fn answers_of(alloc: Global, outcomes: &[Outcome]) -> Result<Vec<Option<Answer>>, AllocError> {
    outcomes.iter().map(answer_in).collect(alloc)
}

fn answer_in(outcome: &Outcome) -> Option<Answer> {
    match outcome {
        Outcome::Done(receipt) => Some(receipt.answer),
        Outcome::Refused(_) => None,
    }
}

#[test]
fn ample_memory_reads_the_boot_manager_register(rt: HostRuntime) -> Result<(), Fail> {
    let alloc = rt.alloc();
    let log = bytes_of(alloc, LOG)?;
    assert_eq!(rt; boot_manager_register(alloc, &log), Ok(sha256_of(PCR_4)));
    let truncated = boot_manager_register(alloc, &log[..log.len() / 2]);
    assert_eq!(rt; truncated, Err(LogFault::Truncated { event: 0 }));
    Ok(())
}

#[test]
fn ample_memory_compares_registers(rt: HostRuntime) -> Result<(), Fail> {
    let alloc = rt.alloc();
    let log = bytes_of(alloc, LOG)?;
    let list = bytes_of(alloc, LIST)?;
    let match_on = |list: &[u8], text: &str| registers_match(alloc, &log, list, text.as_bytes());
    assert_eq!(rt; match_on(&list, EXPECTED), Ok(true));
    assert_eq!(rt; match_on(&list[..0], EXPECTED), Ok(false));
    let wrong = match_on(&list, "sha256 four");
    assert_eq!(rt;
        wrong,
        Err(UseFault::Expected(ExpectFault::BadLine { line: 1 }))
    );
    let truncated = match_on(list.get(1..).unwrap_or_default(), EXPECTED);
    assert!(rt; matches!(truncated, Err(UseFault::Verdict(VerifyFault::List(_)))));
    Ok(())
}

/// One caller measures a file and again the same; another one measures it empty, and a path with a NUL, which is refused.
#[test]
fn ample_memory_shares_a_book(rt: HostRuntime) -> Result<(), Fail> {
    let alloc = rt.alloc();
    let log = bytes_of(alloc, LOG)?;
    let first = [
        measurement(alloc, b"/bin/sh", b"abc")?,
        measurement(alloc, b"/bin/sh", b"abc")?,
    ];
    let second = [
        measurement(alloc, b"/bin/sh", b"")?,
        measurement(alloc, b"/bin/\0sh", b"")?,
    ];
    let (book, groups) = share_book(alloc, &log, &first, &second)?;
    assert_eq!(rt; book.banks().read(Alg::Sha256, 10), sha256_of(AFTER_THREE));
    assert_eq!(rt; book.records().len(), 4);
    let [one, other] = &groups;
    let answers = answers_of(alloc, one)?;
    assert_eq!(rt;
        answers.as_slice(),
        [Some(Answer::Added(1)), Some(Answer::Known(1))].as_slice()
    );
    let answers = answers_of(alloc, other)?;
    assert_eq!(rt;
        answers.as_slice(),
        [Some(Answer::Added(2)), None].as_slice()
    );
    let refused = other.last();
    assert!(rt; matches!(refused, Some(Outcome::Refused(BookFault::NulInPath))));
    Ok(())
}

#[test]
fn ample_memory_measures_by_four(rt: HostRuntime) -> Result<(), Fail> {
    let alloc = rt.alloc();
    let log = bytes_of(alloc, LOG)?;
    let jobs = [
        file(alloc, b"/bin/sh", b"abc")?,
        file(alloc, b"/bin/sh", b"abc")?,
    ];
    let batch = measure_by_four(&rt, alloc, &log, &jobs)?;
    assert_eq!(rt;
        batch.book.banks().read(Alg::Sha256, 10),
        sha256_of(AFTER_TWO)
    );
    assert_eq!(rt; batch.book.records().len(), 3);
    assert_eq!(rt; batch.outcomes.len(), 2);
    Ok(())
}

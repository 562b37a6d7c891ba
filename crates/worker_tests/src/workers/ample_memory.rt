//! Batches of thousands of jobs, of long paths too, and the longest job: they want all their memory. A body that gives up without reason fails
//! here.

use super::numbered::{Failing, Trial, fault_of, tried};
use super::tasks::MOST_JOBS;
use hash_workers::{Job, JobFault, NoGate, measure_files, op_of};
use ima_list::Sig;
use measure_book::{Op, Outcome};
use pcr_banks::Alg;
use std::alloc::{AllocError, Global};
use std::test::Fail;
use test_kit::books::{measure_with, origin};
use test_kit::lists::{LONGEST_PATH, longest_path, longest_sig};
use test_kit::registers::sha256_of;
use test_kit::{copied, repeated};

/// Three thousand jobs, and a hundred of which one has found no memory.
const COUNTS: [(u32, &[Failing]); 2] = [
    (3_000, &[]),
    (
        100,
        &[Failing {
            job: 33,
            fault: JobFault::Memory,
        }],
    ),
];

/// Whether each of the jobs, this many, is done, but for those that fail.
fn are_done(outcomes: &[Outcome], count: u32, failing: &[Failing]) -> bool {
    for job in 0..count {
        let fails = fault_of(failing, job).is_some();
        match outcomes.get(job as usize) {
            Some(outcome) if is_done(outcome) != fails => (),
            _ => return false,
        }
    }
    outcomes.len() == count as usize
}

fn is_done(outcome: &Outcome) -> bool {
    match outcome {
        Outcome::Done(_) => true,
        Outcome::Refused(_) => false,
    }
}

/// The operation of each job is asked for once.
#[test]
fn thousands_of_jobs_of_any_kind(rt: HostRuntime) -> Result<(), Fail> {
    for (count, failing) in COUNTS {
        for workers in [1, 4, 8] {
            let answer = tried(&rt, rt.alloc(), &Trial::of(count, failing, workers));
            assert!(rt; answer.calls == count);
            let outcomes = answer.batch?.outcomes;
            assert!(rt; are_done(&outcomes, count, failing));
        }
    }
    Ok(())
}

/// Files of the longest paths, without content.
fn long_jobs(alloc: Global, count: u32) -> Result<Vec<Job>, AllocError> {
    let mut jobs = Vec::new(alloc);
    for number in 0..count {
        jobs.push(Job::File {
            path: longest_path(alloc, number)?,
            content: Vec::new(alloc),
            sig: Sig::empty(alloc),
        })?;
    }
    Ok(jobs)
}

#[test]
fn thousand_files_of_long_paths(rt: HostRuntime) -> Result<(), Fail> {
    let jobs = long_jobs(rt.alloc(), 1_000)?;
    assert!(rt; jobs.len() <= MOST_JOBS);
    let batch = measure_files(&rt, rt.alloc(), origin(1_001), &jobs, 4, &NoGate)?;
    assert!(rt; are_done(&batch.outcomes, 1_000, &[]));
    assert_eq!(rt; batch.book.entries().len(), 1_001);
    Ok(())
}

/// The digits of the SHA-256 of a million times `a`: an example of NIST for FIPS 180-4 ('Examples with Intermediate Values').
const SHA256_OF_A_MILLION: &[u8] =
    b"cdc76e5c9914fb9281a1c7e284d73e67f1809a48a497200e046d39ccc7112cd0";

/// A file of the longest path and signature, and a violation of this path.
#[test]
fn operations_of_the_longest_jobs(rt: HostRuntime) -> Result<(), Fail> {
    let alloc = rt.alloc();
    let sig = longest_sig(alloc)?;
    let file = Job::File {
        path: copied(alloc, LONGEST_PATH)?,
        content: repeated(alloc, b"a", 1_000_000)?,
        sig: sig.copy()?,
    };
    let wanted = measure_with(alloc, LONGEST_PATH, sha256_of(SHA256_OF_A_MILLION)?, &sig)?;
    assert!(rt; op_of(alloc, &file, Alg::Sha256)? == wanted);
    let path = copied(alloc, LONGEST_PATH)?;
    let violation = op_of(alloc, &Job::Violation { path }, Alg::Sha256)?;
    let path = copied(alloc, LONGEST_PATH)?;
    assert!(rt; violation == Op::Violation { path });
    Ok(())
}

//! Calls that find no memory say so, and are then made once more. Each of these tests is also run with each of its allocations
//! refused.

use super::claims::claims_of;
use super::numbered::{Failing, Trial, tried};
use super::tasks::{End, Task, batch_of, has_ends, job_of};
use hash_workers::{AgentFault, Batch, JobFault, JobsFault, op_of};
use ima_list::Template;
use measure_book::{Answer, BookFault, Op};
use pcr_banks::{Alg, Digest};
use std::alloc::{AllocError, Global};
use std::process::Abort;
use std::sync::Wait;
use std::test::Fail;
use std::thread::Threads;
use test_kit::books::{AFTER_TWO, measure_with, origin};
use test_kit::copied;
use test_kit::lists::{THREE_BYTES, sig_of};
use test_kit::registers::{SHA256_OF_ABC, sha256_of};

/// Jobs of a book of this limit and template, and what becomes of each, or why there is no batch.
struct Run {
    limit: u32,
    template: Template,
    tasks: &'static [Task],
    workers: usize,
    wanted: Result<&'static [End], AgentFault>,
}

const SHELL: Task = Task::File(b"/bin/sh", b"abc");

/// PCR 10 after the boot aggregate and that file: the value whose digits are `AFTER_TWO`.
const VALUE_AFTER_TWO: Digest = Digest::Sha256(
    *b"\
    \x5f\xce\xf8\x4d\x49\x0a\x16\x00\x58\xb8\xf1\xb7\xe3\x3a\xbe\xa9\
    \xf2\xdf\x32\x5f\x2b\x7c\xcb\x29\x4d\x1d\x28\xf3\x45\x9d\xb9\xd5",
);

const BY_ONE_WORKER: [Run; 4] = [
    Run {
        limit: 100,
        template: Template::ImaNg,
        tasks: &[SHELL, Task::Read(Alg::Sha256, 10)],
        workers: 1,
        wanted: Ok(&[
            Ok((1, Answer::Added(1))),
            Ok((2, Answer::Value(VALUE_AFTER_TWO))),
        ]),
    },
    Run {
        limit: 100,
        template: Template::ImaNg,
        tasks: &[],
        workers: 3,
        wanted: Ok(&[]),
    },
    Run {
        limit: 100,
        template: Template::ImaNg,
        tasks: &[SHELL],
        workers: 0,
        wanted: Err(AgentFault::Workers),
    },
    Run {
        limit: 100,
        template: Template::ImaNg,
        tasks: &[SHELL],
        workers: 9,
        wanted: Err(AgentFault::Workers),
    },
];

const WITH_REFUSALS: [Run; 5] = [
    Run {
        limit: 100,
        template: Template::ImaNg,
        tasks: &[
            Task::File(b"/bin\0/sh", b"abc"),
            Task::Read(Alg::Sha384, 10),
            Task::Violation(b"/etc/x"),
        ],
        workers: 2,
        wanted: Ok(&[
            Err(BookFault::NulInPath),
            Err(BookFault::NoBank),
            Ok((1, Answer::Added(1))),
        ]),
    },
    Run {
        limit: 1,
        template: Template::ImaNg,
        tasks: &[SHELL],
        workers: 2,
        wanted: Ok(&[Err(BookFault::Full)]),
    },
    Run {
        limit: 0,
        template: Template::ImaNg,
        tasks: &[SHELL],
        workers: 2,
        wanted: Err(AgentFault::Book(BookFault::Full)),
    },
    Run {
        limit: 0,
        template: Template::ImaNg,
        tasks: &[SHELL],
        workers: 9,
        wanted: Err(AgentFault::Workers),
    },
    Run {
        limit: 100,
        template: Template::Ima,
        tasks: &[SHELL],
        workers: 2,
        wanted: Err(AgentFault::Book(BookFault::WrongHash)),
    },
];

fn is_wanted(found: &Result<Batch, AgentFault>, wanted: &Result<&[End], AgentFault>) -> bool {
    match (found, wanted) {
        (Ok(batch), Ok(ends)) => has_ends(batch, ends),
        (Err(found), Err(fault)) => found == fault,
        _ => false,
    }
}

fn assert_runs<R: Threads + Wait + Sync + Abort>(rt: &R, alloc: Global, runs: &[Run]) {
    for (number, run) in runs.iter().enumerate() {
        let mut origin = origin(run.limit);
        origin.template = run.template;
        let found = batch_of(rt, alloc, origin, run.tasks, run.workers);
        assert!(rt; is_wanted(&found, &run.wanted), "run {number}");
    }
}

#[test]
fn one_worker_keeps_job_order(rt: HostRuntime) {
    assert_runs(&rt, rt.alloc(), &BY_ONE_WORKER);
}

#[test]
fn workers_with_refused_jobs(rt: HostRuntime) {
    assert_runs(&rt, rt.alloc(), &WITH_REFUSALS);
}

const TWO_FILES: [Task; 2] = [SHELL, Task::File(b"/bin/ls", b"")];

pub const ONE_FILE_TWICE: [Task; 2] = [SHELL, SHELL];

/// Of two jobs with two workers one is added first, and the other one has this answer.
pub fn assert_two<R: Threads + Wait + Sync + Abort>(
    rt: &R,
    alloc: Global,
    tasks: &[Task],
    answer: Answer,
) -> Result<(), AgentFault> {
    let batch = batch_of(rt, alloc, origin(100), tasks, 2)?;
    let first = Ok((1, Answer::Added(1)));
    let second = Ok((2, answer));
    assert!(rt; has_ends(&batch, &[first, second]) || has_ends(&batch, &[second, first]));
    Ok(())
}

#[test]
fn two_files_by_two_workers(rt: HostRuntime) -> Result<(), Fail> {
    let alloc = rt.alloc();
    assert_two(&rt, alloc, &TWO_FILES, Answer::Added(2))?;
    assert_two(&rt, alloc, &ONE_FILE_TWICE, Answer::Known(1))?;
    Ok(())
}

/// The job becomes this operation, by SHA-256.
fn assert_op(rt: &impl Abort, alloc: Global, task: &Task, op: &Op) -> Result<(), AllocError> {
    let job = job_of(alloc, task)?;
    let found = match op_of(alloc, &job, Alg::Sha256) {
        Ok(found) => found,
        Err(AllocError) => op_of(alloc, &job, Alg::Sha256)?,
    };
    assert!(rt; found == *op);
    Ok(())
}

#[test]
fn operations_of_jobs(rt: HostRuntime) -> Result<(), Fail> {
    let alloc = rt.alloc();
    let file = sha256_of(SHA256_OF_ABC)?;
    for sig in [b"".as_slice(), THREE_BYTES] {
        let op = measure_with(alloc, b"/bin/sh", file, &sig_of(alloc, sig)?)?;
        assert_op(&rt, alloc, &Task::Signed(b"/bin/sh", b"abc", sig), &op)?;
    }
    let path = copied(alloc, b"/etc/x")?;
    let op = Op::Violation { path };
    assert_op(&rt, alloc, &Task::Violation(b"/etc/x"), &op)?;
    // That of a read takes no memory.
    let job = job_of(alloc, &Task::Read(Alg::Sha384, 300))?;
    let wanted = Op::Read {
        alg: Alg::Sha384,
        register: 300,
    };
    assert!(rt; op_of(alloc, &job, Alg::Sha256)? == wanted);
    Ok(())
}

/// What is told of five jobs of the tests' own of which one fails; once more where an allocation was refused.
fn told<R: Threads + Wait + Sync>(rt: &R, alloc: Global, workers: usize) -> Option<JobsFault> {
    let fault = JobFault::Source;
    let failing = [Failing { job: 3, fault }];
    let trial = Trial::of(5, &failing, workers);
    match tried(rt, alloc, &trial).batch.err() {
        Some(JobsFault::Agent(AgentFault::Memory)) => tried(rt, alloc, &trial).batch.err(),
        told => told,
    }
}

#[test]
fn job_that_fails(rt: HostRuntime) {
    let fault = JobFault::Source;
    for workers in [1, 2] {
        let told = told(&rt, rt.alloc(), workers);
        assert!(rt; told == Some(JobsFault::Job { job: 3, fault }));
    }
}

#[test]
fn claims(rt: HostRuntime) -> Result<(), Fail> {
    let (claims, mut seat) = claims_of(rt.alloc(), 3, 2)?;
    assert!(rt; seat.places() == 2 && !seat.ended());
    assert!(rt; claims.draw(&mut seat) == Some(0));
    Ok(())
}

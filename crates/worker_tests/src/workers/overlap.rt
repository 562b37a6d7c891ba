//! Two workers at once.

use super::each_allocation_refused::{ONE_FILE_TWICE, assert_two};
use super::tasks::{Task, TwoFault, by_two, has_ends, job_of};
use hash_workers::{Batch, Gate, Job, measure_files};
use measure_book::{Answer, Op};
use std::alloc::{AllocError, Global};
use std::process::Abort;
use std::sync::Wait;
use std::sync::atomic::{AtomicBool, Ordering};
use std::test::Fail;
use std::thread::Threads;
use test_kit::books::{measure, origin};
use test_kit::registers::sha256;

/// How often a gate looks for another job at most.
const TURNS: u32 = 100_000_000;

/// How often it looks where it only waits a while.
const A_WHILE: u32 = 10_000_000;

/// How far a job is.
#[derive(Drop)]
struct Stages {
    op: Op,
    hashed: AtomicBool,
    recorded: AtomicBool,
}

impl Stages {
    fn of(op: Op) -> Self {
        Stages {
            op,
            hashed: AtomicBool::new(false),
            recorded: AtomicBool::new(false),
        }
    }
}

/// Has both jobs hashed before one is recorded, and holds job 0 or job 1 until the other one is recorded.
#[derive(Drop)]
struct OtherFirst {
    jobs: [Stages; 2],
    held: u32,
    ran_out: AtomicBool,
    other_op: AtomicBool,
    never: AtomicBool,
}

impl OtherFirst {
    fn new(alloc: Global, held: u32) -> Result<Self, AllocError> {
        let first = measure(alloc, b"/bin/sh", sha256(b"abc"))?;
        let second = measure(alloc, b"/bin/ls", sha256(b""))?;
        Ok(OtherFirst {
            jobs: [Stages::of(first), Stages::of(second)],
            held,
            ran_out: AtomicBool::new(false),
            other_op: AtomicBool::new(false),
            never: AtomicBool::new(false),
        })
    }

    /// The job, and the other one.
    fn both(&self, job: u32) -> (&Stages, &Stages) {
        let [first, second] = &self.jobs;
        if job == 0 {
            (first, second)
        } else {
            (second, first)
        }
    }

    fn wait_for(&self, stage: &AtomicBool) {
        if !comes(stage, TURNS) {
            self.ran_out.store(true, Ordering::SeqCst);
        }
    }
}

/// Whether the stage is reached within this number of turns.
pub(super) fn comes(stage: &AtomicBool, turns: u32) -> bool {
    for _ in 0..turns {
        if stage.load(Ordering::SeqCst) {
            return true;
        }
    }
    false
}

impl Gate for OtherFirst {
    fn hashed(&self, job: u32, op: Option<&Op>) {
        let (this, other) = self.both(job);
        if op != Some(&this.op) {
            self.other_op.store(true, Ordering::SeqCst);
        }
        this.hashed.store(true, Ordering::SeqCst);
        self.wait_for(&other.hashed);
        if job == self.held {
            self.wait_for(&other.recorded);
        }
    }

    /// The other worker can have the lock now, and its job comes after this one in the book.
    fn recorded(&self, job: u32) {
        let (this, other) = self.both(job);
        this.recorded.store(true, Ordering::SeqCst);
        if job != self.held {
            self.wait_for(&other.recorded);
            let _waited = comes(&self.never, A_WHILE);
        }
    }
}

/// Two files with two workers, where one job is held.
fn held_batch<R: Threads + Wait + Sync>(
    rt: &R,
    alloc: Global,
    jobs: &[Job; 2],
    held: u32,
) -> Result<Batch, TwoFault> {
    let Ok(gate) = OtherFirst::new(alloc, held) else {
        return Err(TwoFault::Memory);
    };
    let batch = measure_files(rt, alloc, origin(100), jobs, 2, &gate);
    let batch = by_two(batch, gate.ran_out.load(Ordering::SeqCst))?;
    if gate.other_op.load(Ordering::SeqCst) {
        return Err(TwoFault::Wrong("another operation"));
    }
    Ok(batch)
}

const FILES: [Task; 2] = [Task::File(b"/bin/sh", b"abc"), Task::File(b"/bin/ls", b"")];

/// One job is held until the other one is recorded, which so comes first; each by another worker.
fn assert_held<R: Threads + Wait + Sync + Abort>(
    rt: &R,
    alloc: Global,
    jobs: &[Job; 2],
    held: u32,
) -> Result<(), TwoFault> {
    let batch = match held_batch(rt, alloc, jobs, held) {
        // An allocation may have been refused.
        Err(TwoFault::Memory | TwoFault::OneWorker) => held_batch(rt, alloc, jobs, held)?,
        found => found?,
    };
    let first = Ok((1, Answer::Added(1)));
    let second = Ok((2, Answer::Added(2)));
    let ends = if held == 0 {
        [second, first]
    } else {
        [first, second]
    };
    assert!(rt; has_ends(&batch, &ends));
    assert!(rt; batch.by.first() != batch.by.last());
    Ok(())
}

#[test]
fn jobs_overlap(rt: HostRuntime) -> Result<(), Fail> {
    let alloc = rt.alloc();
    let [one, other] = &FILES;
    let jobs = [job_of(alloc, one)?, job_of(alloc, other)?];
    for held in [0, 1] {
        assert_held(&rt, alloc, &jobs, held)?;
    }
    assert_two(&rt, alloc, &ONE_FILE_TWICE, Answer::Known(1))?;
    Ok(())
}

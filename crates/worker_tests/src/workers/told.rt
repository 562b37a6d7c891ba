//! What a gate is told of each job.

use super::numbered::{Failing, Numbered, Trial, has_run_out};
use hash_workers::{AgentFault, Gate, JobFault, JobsFault, record_jobs};
use measure_book::Op;
use std::alloc::{AllocError, Global};
use std::sync::Wait;
use std::sync::atomic::{AtomicU32, Ordering};
use std::test::Fail;
use std::thread::Threads;
use test_kit::books::origin;

/// What the gate was told of a job: nothing; that it is hashed, with an operation or without one; the same, and then that it is
/// recorded; or something else.
const NOTHING: u32 = 0;

const WITH: u32 = 1;

const WITHOUT: u32 = 2;

const DONE_WITH: u32 = 3;

const DONE_WITHOUT: u32 = 4;

const ELSE: u32 = 5;

/// What a gate is told of each job, and of any other.
#[derive(Drop)]
struct NotedJobs {
    jobs: Vec<AtomicU32>,
    other: AtomicU32,
}

impl NotedJobs {
    fn new(alloc: Global, count: u32) -> Result<Self, AllocError> {
        let mut jobs = Vec::new(alloc);
        for _job in 0..count {
            jobs.push(AtomicU32::new(NOTHING))?;
        }
        let other = AtomicU32::new(NOTHING);
        Ok(NotedJobs { jobs, other })
    }

    fn of(&self, job: u32) -> &AtomicU32 {
        self.jobs.get(job as usize).unwrap_or(&self.other)
    }

    /// Whether it was told this of each job, and nothing of others.
    fn is(&self, told: &[u32]) -> bool {
        for (job, state) in self.jobs.iter().zip(told) {
            if job.load(Ordering::SeqCst) != *state {
                return false;
            }
        }
        self.jobs.len() == told.len() && self.other.load(Ordering::SeqCst) == NOTHING
    }
}

impl Gate for NotedJobs {
    fn hashed(&self, job: u32, op: Option<&Op>) {
        let told = self.of(job);
        let next = match told.load(Ordering::SeqCst) {
            NOTHING if op.is_some() => WITH,
            NOTHING => WITHOUT,
            _ => ELSE,
        };
        told.store(next, Ordering::SeqCst);
    }

    fn recorded(&self, job: u32) {
        let told = self.of(job);
        let next = match told.load(Ordering::SeqCst) {
            WITH => DONE_WITH,
            WITHOUT => DONE_WITHOUT,
            _ => ELSE,
        };
        told.store(next, Ordering::SeqCst);
    }
}

/// So many jobs, of which some fail and that so many workers take, what the gate is told of each, and what is answered.
struct Row {
    count: u32,
    workers: usize,
    failing: &'static [Failing],
    told: &'static [u32],
    fault: Option<JobsFault>,
}

const MEMORY: Failing = Failing {
    job: 1,
    fault: JobFault::Memory,
};

const SOURCE: Failing = Failing {
    job: 3,
    fault: JobFault::Source,
};

/// The gate is told of a job whose operation cannot be had as of any other, but without an operation. After one that fails
/// for another reason than want of memory it is told of none.
const ROWS: [Row; 5] = [
    Row {
        count: 60,
        workers: 1,
        failing: &[],
        told: &[DONE_WITH; 60],
        fault: None,
    },
    Row {
        count: 60,
        workers: 5,
        failing: &[],
        told: &[DONE_WITH; 60],
        fault: None,
    },
    Row {
        count: 5,
        workers: 1,
        failing: &[SOURCE],
        told: &[DONE_WITH, DONE_WITH, DONE_WITH, DONE_WITHOUT, NOTHING],
        fault: Some(JobsFault::Job {
            job: 3,
            fault: JobFault::Source,
        }),
    },
    Row {
        count: 5,
        workers: 1,
        failing: &[MEMORY],
        told: &[DONE_WITH, DONE_WITHOUT, DONE_WITH, DONE_WITH, DONE_WITH],
        fault: None,
    },
    Row {
        count: 5,
        workers: 1,
        failing: &[MEMORY, SOURCE],
        told: &[DONE_WITH, DONE_WITHOUT, DONE_WITH, DONE_WITHOUT, NOTHING],
        fault: Some(JobsFault::Agent(AgentFault::Memory)),
    },
];

/// Whether what the gate is told and what is answered is that of the row, and whether memory ran out.
fn is_told<R: Threads + Wait + Sync>(
    rt: &R,
    alloc: Global,
    row: &Row,
) -> Result<(bool, bool), AllocError> {
    let jobs = Numbered::of(&Trial::of(row.count, row.failing, row.workers));
    let told = NotedJobs::new(alloc, row.count)?;
    let batch = record_jobs(rt, alloc, origin(100), &jobs, row.workers, &told);
    let ran_out = has_run_out(&batch);
    Ok((batch.err() == row.fault && told.is(row.told), ran_out))
}

#[test]
fn gate_is_told_of_each_job(rt: HostRuntime) -> Result<(), Fail> {
    let alloc = rt.alloc();
    for (number, row) in ROWS.iter().enumerate() {
        let (is_so, _) = match is_told(&rt, alloc, row) {
            Ok((false, true)) | Err(AllocError) => is_told(&rt, alloc, row)?,
            found => found?,
        };
        assert!(rt; is_so, "row {number}");
    }
    Ok(())
}

//! Jobs of the tests' own, each made of its number alone.

ghost use Rattle.std.specs.Prelude.{◌≡◌, ◌⊎◌, IfOk, IfSome, Contains};
ghost use Rattle.measure_book.specs.Names.{book_op_of};
ghost use Rattle.hash_workers.specs.declared.fault.JobFault.TheVariants.{Memory};
ghost use Rattle.worker_tests.specs.Numbered.{operation_of_number, path_of_number};

use super::overlap::comes;
use super::tasks::lacks_memory;
use hash_workers::{AgentFault, Batch, Gate, JobFault, Jobs, JobsFault, record_jobs};
use ima_list::Sig;
use measure_book::Op;
use pcr_banks::{Alg, hash};
use std::alloc::{AllocError, Global};
use std::sync::Wait;
use std::sync::atomic::{AtomicBool, AtomicU32, Ordering};
use std::thread::Threads;
use test_kit::books::origin;

/// How often a job that is held looks for its release at most.
const TURNS: u32 = 1_000_000_000;

/// A job whose operation cannot be had, and why.
#[derive(Clone, Copy, Debug)]
pub(super) struct Failing {
    pub(super) job: u32,
    pub(super) fault: JobFault,
}

/// How many jobs there are, which of them fail, and how many workers record them in a book of this limit. The jobs below
/// `held` are held up in their operations until another job is recorded.
#[derive(Clone, Copy, Debug)]
pub(super) struct Trial<'a> {
    pub(super) count: u32,
    pub(super) failing: &'a [Failing],
    pub(super) held: u32,
    pub(super) workers: usize,
    pub(super) limit: u32,
}

impl<'a> Trial<'a> {
    /// Jobs none of which is held, and a book that has room for ten thousand.
    pub(super) fn of(count: u32, failing: &'a [Failing], workers: usize) -> Self {
        Trial {
            count,
            failing,
            held: 0,
            workers,
            limit: 10_000,
        }
    }
}

/// Jobs each of which is the measurement of a file whose path tells the job's number, and whose content is that path. Some fail.
#[derive(Drop)]
pub(super) struct Numbered<'a> {
    count: u32,
    failing: &'a [Failing],
    held: u32,
    calls: AtomicU32,
    released: AtomicBool,
    ran_out: AtomicBool,
    all_held: AtomicBool,
}

impl<'a> Numbered<'a> {
    pub(super) fn of(trial: &Trial<'a>) -> Self
        ensures { result.count ≡ trial.now.count }
    {
        Numbered {
            count: trial.count,
            failing: trial.failing,
            held: trial.held,
            calls: AtomicU32::new(0),
            released: AtomicBool::new(false),
            ran_out: AtomicBool::new(false),
            all_held: AtomicBool::new(false),
        }
    }

    /// Waits until the jobs that are held are released. Where the turns run out they all are.
    fn wait(&self) {
        if !comes(&self.released, TURNS) {
            let all_held = self.calls.load(Ordering::SeqCst) <= self.held;
            self.all_held.store(all_held, Ordering::SeqCst);
            self.ran_out.store(true, Ordering::SeqCst);
            self.released.store(true, Ordering::SeqCst);
        }
    }
}

/// Why this job fails, where it does.
pub(super) fn fault_of(failing: &[Failing], job: u32) -> Option<JobFault>
    ensures { IfSome result (λ fault. Contains failing.now (record { job = job; fault = fault })) }
{
    for one in failing {
        if one.job == job {
            return Some(one.fault);
        }
    }
    None
}

/// The path `/0123` of a number.
fn path_of(number: u32) -> [u8; 5]
    ensures { result ≡ path_of_number number }
{
    let mut path = *b"/0000";
    path[1] += (number / 1000 % 10) as u8;
    path[2] += (number / 100 % 10) as u8;
    path[3] += (number / 10 % 10) as u8;
    path[4] += (number % 10) as u8;
    path
}

/// The operation of a job that does not fail.
fn operation_of(alloc: Global, job: u32, alg: Alg) -> Result<Op, AllocError>
    ensures { IfOk result (λ op. book_op_of op ≡ operation_of_number alg job) }
{
    let path = path_of(job);
    Ok(Op::Measure {
        path: Vec::from_slice(alloc, &path)?,
        digest: hash(alg, &path),
        sig: Sig::empty(alloc),
    })
}

impl<'a> Jobs for Numbered<'a> {
    ghost total = { λ jobs. jobs.count };

    ghost makes = { λ _ alg job op. op ≡ operation_of_number alg job };

    // Memory may run out for each job, and some fail.
    ghost fails = { λ jobs job fault. (fault ≡ Memory) ⊎ Contains jobs.failing.now (record { job = job; fault = fault }) };

    fn count(&self) -> usize {
        self.count as usize
    }

    fn operation(&self, alloc: Global, job: u32, alg: Alg) -> Result<Op, JobFault> {
        self.calls.fetch_add(1, Ordering::SeqCst);
        if job < self.held {
            self.wait();
        }
        match fault_of(self.failing, job) {
            Some(fault) => Err(fault),
            None => Ok(operation_of(alloc, job, alg)?),
        }
    }
}

/// Releases the jobs that are held, once one that is not is recorded.
impl<'a> Gate for Numbered<'a> {
    fn hashed(&self, _job: u32, _op: Option<&Op>) {}

    fn recorded(&self, job: u32) {
        if job >= self.held {
            self.released.store(true, Ordering::SeqCst);
        }
    }
}

/// The batch, or why there is none, how often an operation was asked for, and whether the turns ran out for a job: if so, whether
/// no operation had then been asked for of a job that is not held. One of the workers had not begun, or no thread could be started for it.
#[derive(Drop)]
pub(super) struct Answer {
    pub(super) batch: Result<Batch, JobsFault>,
    pub(super) calls: u32,
    pub(super) ran_out: bool,
    pub(super) all_held: bool,
}

/// What comes of the jobs.
pub(super) fn tried<R: Threads + Wait + Sync>(rt: &R, alloc: Global, trial: &Trial) -> Answer {
    let jobs = Numbered::of(trial);
    let batch = record_jobs(rt, alloc, origin(trial.limit), &jobs, trial.workers, &jobs);
    Answer {
        batch,
        calls: jobs.calls.load(Ordering::SeqCst),
        ran_out: jobs.ran_out.load(Ordering::SeqCst),
        all_held: jobs.all_held.load(Ordering::SeqCst),
    }
}

/// Whether memory ran out, for the batch or for a job.
pub(super) fn has_run_out(batch: &Result<Batch, JobsFault>) -> bool {
    match batch {
        Ok(batch) => lacks_memory(batch),
        Err(fault) => *fault == JobsFault::Agent(AgentFault::Memory),
    }
}

/// The answer to the trial; once more where an allocation may have been refused.
pub(super) fn answer_of<R: Threads + Wait + Sync>(rt: &R, alloc: Global, trial: &Trial) -> Answer {
    let answer = tried(rt, alloc, trial);
    if has_run_out(&answer.batch) || answer.all_held {
        tried(rt, alloc, trial)
    } else {
        answer
    }
}

//! Jobs of a list as data, and batches of them.

use hash_workers::{AgentFault, Batch, Job, NoGate, measure_files};
use ima_list::Sig;
use measure_book::{Answer, Book, BookFault, Op, Origin, Outcome};
use pcr_banks::Alg;
use std::alloc::{AllocError, Global};
use std::process::Abort;
use std::sync::Wait;
use std::thread::Threads;
use test_kit::copied;
use test_kit::registers::sha256;

/// How many jobs a batch may have.
pub const MOST_JOBS: usize = 0xFFFF_FFFF;

/// A job. A file has a path, a content, and, where it is signed, a signature.
#[derive(Clone, Copy)]
pub enum Task {
    File(&'static [u8], &'static [u8]),
    Signed(&'static [u8], &'static [u8], &'static [u8]),
    Violation(&'static [u8]),
    Read(Alg, u32),
}

/// Why there is nothing to look at of what two threads did.
#[derive(Clone, Copy, Debug, PartialEq, Eq)]
pub enum TwoFault {
    /// Out of memory.
    Memory,
    /// One worker took all jobs: the other one had not begun when the turns ran out. No thread can be started for it where that
    /// finds no memory.
    OneWorker,
    /// Anything else.
    Wrong(&'static str),
}

/// What becomes of a job: the place of its record and the answer, or why it is refused.
pub type End = Result<(u32, Answer), BookFault>;

/// The job; once more where an allocation was refused.
pub fn job_of(alloc: Global, task: &Task) -> Result<Job, AllocError> {
    match *task {
        Task::File(path, content) => file(alloc, path, content, b""),
        Task::Signed(path, content, sig) => file(alloc, path, content, sig),
        Task::Violation(path) => violation(alloc, path),
        Task::Read(alg, register) => Ok(Job::Read { alg, register }),
    }
}

fn file(alloc: Global, path: &[u8], content: &[u8], sig: &[u8]) -> Result<Job, AllocError> {
    let path = copied(alloc, path)?;
    let content = copied(alloc, content)?;
    let sig = Sig::new(copied(alloc, sig)?).ok().ok_or(AllocError)?;
    Ok(Job::File { path, content, sig })
}

fn violation(alloc: Global, path: &[u8]) -> Result<Job, AllocError> {
    let path = copied(alloc, path)?;
    Ok(Job::Violation { path })
}

fn jobs_of(alloc: Global, tasks: &[Task]) -> Result<Vec<Job>, AllocError> {
    let count = tasks.len();
    let mut jobs = match Vec::with_capacity(alloc, count) {
        Ok(jobs) => jobs,
        Err(AllocError) => Vec::with_capacity(alloc, count)?,
    };
    for task in tasks {
        jobs.push(job_of(alloc, task)?)?;
    }
    Ok(jobs)
}

/// The batch of these jobs, which accounts for them. Where an allocation was refused, that one is looked at too, and then they are
/// recorded once more.
pub fn batch_of<R: Threads + Wait + Sync + Abort>(
    rt: &R,
    alloc: Global,
    origin: Origin,
    tasks: &[Task],
    workers: usize,
) -> Result<Batch, AgentFault> {
    let jobs = jobs_of(alloc, tasks)?;
    if jobs.len() > MOST_JOBS {
        return Err(AgentFault::Memory);
    }
    let first = measure_files(rt, alloc, origin, &jobs, workers, &NoGate);
    assert!(rt; accounts(&first, tasks, workers));
    if !has_run_out(&first) {
        return first;
    }
    let second = measure_files(rt, alloc, origin, &jobs, workers, &NoGate);
    assert!(rt; accounts(&second, tasks, workers));
    assert!(rt; differ_by_one(&first, &second));
    second
}

/// Whether the batch, if there is one, has an outcome and a worker of each job, names each record after the first by one receipt, and has
/// the receipts of each worker in their order.
fn accounts(batch: &Result<Batch, AgentFault>, tasks: &[Task], workers: usize) -> bool {
    let Ok(batch) = batch else {
        return true;
    };
    for worker in &batch.by {
        if *worker as usize >= workers || !rise(batch, *worker) {
            return false;
        }
    }
    batch.by.len() == tasks.len()
        && batch.outcomes.len() == tasks.len()
        && name_each(&batch.outcomes, tasks, &batch.book)
}

/// Whether the places of this worker's receipts rise with its jobs, from 1 on.
fn rise(batch: &Batch, worker: u32) -> bool {
    let mut last = 0;
    for (outcome, by) in batch.outcomes.iter().zip(&batch.by) {
        match outcome {
            Outcome::Done(receipt) if *by == worker => {
                if receipt.place <= last {
                    return false;
                }
                last = receipt.place;
            }
            _ => (),
        }
    }
    true
}

/// Whether the receipts, each with the operation of its task and with the answer of the record at its place, are for each record after
/// the first.
fn name_each(outcomes: &[Outcome], tasks: &[Task], book: &Book) -> bool {
    let mut count: usize = 1;
    for (outcome, task) in outcomes.iter().zip(tasks) {
        if let Outcome::Done(receipt) = outcome {
            count = count.saturating_add(1);
            let Some(record) = book.records().get(receipt.place as usize) else {
                return false;
            };
            if !is_of(&receipt.op, task)
                || record.op != receipt.op
                || record.answer != receipt.answer
            {
                return false;
            }
        }
    }
    count == book.records().len() && have_own_places(outcomes)
}

/// Whether no two receipts have one place.
fn have_own_places(outcomes: &[Outcome]) -> bool {
    for (index, outcome) in outcomes.iter().enumerate() {
        for other in outcomes.iter().take(index) {
            match (outcome, other) {
                (Outcome::Done(one), Outcome::Done(other)) if one.place == other.place => {
                    return false;
                }
                _ => (),
            }
        }
    }
    true
}

/// Whether the operation is the task's, by SHA-256.
fn is_of(op: &Op, task: &Task) -> bool {
    match (op, task) {
        (Op::Measure { path, digest, sig }, Task::File(name, content)) => {
            path.as_slice() == *name && *digest == sha256(content) && sig.bytes().is_empty()
        }
        (Op::Violation { path }, Task::Violation(name)) => path.as_slice() == *name,
        (Op::Read { alg, register }, Task::Read(other_alg, other_register)) => alg == other_alg
            && register == other_register,
        _ => false,
    }
}

/// Whether the first batch, if there is one, has one job at most that found no memory, and each other one was done or refused as in
/// the second.
fn differ_by_one(first: &Result<Batch, AgentFault>, second: &Result<Batch, AgentFault>) -> bool {
    let (Ok(first), Ok(second)) = (first, second) else {
        return first.is_err();
    };
    let mut lacking: usize = 0;
    for (one, other) in first.outcomes.iter().zip(&second.outcomes) {
        match (one, other) {
            (Outcome::Refused(BookFault::Memory), _) => lacking = lacking.saturating_add(1),
            (Outcome::Refused(fault), Outcome::Refused(other)) if fault == other => (),
            (Outcome::Done(_), Outcome::Done(_)) => (),
            _ => return false,
        }
    }
    lacking <= 1
}

/// Whether memory ran out, for the batch or for a job.
fn has_run_out(batch: &Result<Batch, AgentFault>) -> bool {
    match batch {
        Ok(batch) => lacks_memory(batch),
        Err(fault) => *fault == AgentFault::Memory,
    }
}

/// Whether memory ran out for some job.
pub fn lacks_memory(batch: &Batch) -> bool {
    batch
        .outcomes
        .contains(&Outcome::Refused(BookFault::Memory))
}

/// A batch by two workers, jobs of which waited for one another; whether the turns ran out.
pub fn by_two(batch: Result<Batch, AgentFault>, ran_out: bool) -> Result<Batch, TwoFault> {
    if has_run_out(&batch) {
        return Err(TwoFault::Memory);
    }
    match batch {
        Ok(batch) if !ran_out => Ok(batch),
        Ok(batch) if are_by_one(&batch.by) => Err(TwoFault::OneWorker),
        Ok(_) => Err(TwoFault::Wrong("the turns ran out")),
        Err(_) => Err(TwoFault::Wrong("no batch")),
    }
}

fn are_by_one(workers: &[u32]) -> bool {
    for worker in workers {
        if Some(worker) != workers.first() {
            return false;
        }
    }
    true
}

fn is_end(outcome: &Outcome, end: &End) -> bool {
    match (outcome, end) {
        (Outcome::Done(done), Ok((place, answer))) => {
            done.place == *place && done.answer == *answer
        }
        (Outcome::Refused(found), Err(fault)) => found == fault,
        _ => false,
    }
}

/// Whether the jobs of the batch have these ends.
pub fn has_ends(batch: &Batch, ends: &[End]) -> bool {
    for (outcome, end) in batch.outcomes.iter().zip(ends) {
        if !is_end(outcome, end) {
            return false;
        }
    }
    batch.outcomes.len() == ends.len()
}

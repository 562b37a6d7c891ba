//! Runs jobs on several workers, and collects the outcome of each.

ghost use Rattle.std.specs.Prelude.{◌≡◌, ◌≢◌, ℕ, ◌↔◌, ◌<◌, ◌^◌, length, map, Some, Err, IfOk, IfErr, MatchResult};
ghost use Rattle.measure_book.specs.declared.fault.BookFault.{BookFault};
ghost use Rattle.measure_book.specs.declared.gathers.GatherFault.{GatherFault};
ghost use Rattle.measure_book.specs.Names.{AccountsForAll, IsBook, IsFirstFault, book_outcome_of, groups_of, open_refusal_of};
ghost use Rattle.hash_workers.specs.Jobs.{operations_of};
ghost use Rattle.hash_workers.specs.declared.fault.JobFault.{JobFault};
ghost use Rattle.hash_workers.specs.declared.fault.JobFault.TheVariants.{Memory};
ghost use Rattle.hash_workers.specs.Faults.{IsAgentFaultOf, IsJobsFaultOf, IsNumberOfWorkers, MayBegin};
ghost use Rattle.hash_workers.specs.parts.Faults.{fault_of_unmade};
ghost use Rattle.hash_workers.specs.parts.Settling.{IsAllWork, IsUnsettled};
ghost use Rattle.hash_workers.specs.Reasons.{AllMadeUnlessMemory, IsReasonAmong, IsReasonOf, IsFirstUnmade};
ghost use Rattle.hash_workers.specs.Batches.{IsBatch, IsBatchOf};

use crate::claims::Claims;
use crate::fan::fan_out;
use crate::fault::{AgentFault, JobFault, JobsFault};
use crate::gate::Gate;
use crate::job::Job;
use crate::jobs::{Jobs, Listed};
use crate::scatter::scatter;
use crate::work::{AllWork, Unmade};
use measure_book::{Book, BookFault, GatherFault, Origin, Outcome, gather};
use std::alloc::{AllocError, Global};
use std::sync::Wait;
use std::thread::Threads;

/// The greatest number of workers.
const MOST_WORKERS: usize = 8;

/// The result of jobs that were recorded.
#[derive(Drop)]
pub struct Batch {
    /// The book in which the jobs were recorded.
    pub book: Book,
    /// The outcome of each job.
    pub outcomes: Vec<Outcome>,
    /// The worker that took each job. Workers count from 0.
    pub by: Vec<u32>,
}

/// Opens a book, and records the jobs in it with 1 to 8 workers in parallel. Each worker draws one job after another until none
/// is left: it makes the job's operation, and then holds the book's lock for this one operation. The gate is told of each job.
///
/// Each job has one outcome, whatever the schedule: the receipts and the book's records from place 1 on correspond one to one,
/// and for each worker the places of its receipts rise with its jobs.
///
/// Fails, in this order, with `Workers` if the number of workers is not 1 to 8, `Book` if the book cannot be opened, `Memory` if
/// there is no memory for the lists of the call or of a worker, and `Gather` if the outcomes do not account for the book's
/// records (or `Memory` if that check runs out of memory). In the last two cases the book is dropped.
pub fn measure_files<R: Threads + Wait + Sync, G: Gate + Sync>(
    rt: &R,
    alloc: Global,
    origin: Origin,
    jobs: &[Job],
    workers: usize,
    gate: &G,
) -> Result<Batch, AgentFault>
    requires { length jobs.now < 2 ^ 32 }
    // Each job has one outcome.
    ensures batch { IfOk result (λ batch. IsBatch origin (operations_of origin.alg jobs.now) workers
        batch.book (map book_outcome_of batch.outcomes.items) batch.by.items) }
    // Its book is one: the records are a legal history.
    ensures is_book { IfOk result (λ batch. IsBook batch.book) }
    // Workers start only if their number is right and a book may be opened, and each fault has its reason.
    ensures fault { MatchResult result (λ _. MayBegin workers origin) (IsAgentFaultOf workers origin) }
    // `Workers` exactly where the number of workers is not 1 to 8.
    ensures workers { (result ≡ Err AgentFault.Workers) ↔ (IsNumberOfWorkers workers → ⊥) }
    // If the number is right and `open_refusal_of` is `Some fault`, the result is `Err(Book(fault))`.
    ensures book { (fault : BookFault) → IsNumberOfWorkers workers → open_refusal_of origin ≡ Some fault
        → result ≡ Err (AgentFault.Book fault) }
    // `Gather` names the first reason that holds for some book and some outcomes of distinct jobs, one group per worker.
    ensures gather { (reason : GatherFault) → result ≡ Err (AgentFault.Gather reason)
        → IsReasonAmong workers origin (operations_of origin.alg jobs.now) reason }
{
    match record_jobs(rt, alloc, origin, &Listed { jobs }, workers, gate) {
        Ok(batch) => Ok(batch),
        Err(JobsFault::Agent(fault)) => Err(fault),
        Err(JobsFault::Job { .. }) => unreachable!(),
    }
}

/// As [`measure_files`], for jobs of any kind. Their operations are made on the workers' threads.
///
/// If an operation cannot be made for a reason other than memory, the worker draws all jobs that are left, and there is no batch.
/// The fault is then that of the first such job in the order of the jobs, whatever the schedule: the operations of all jobs
/// before it were made. If only memory ran out for operations, there may be a batch, in which their jobs' outcome is
/// `Refused(Memory)`.
///
/// Fails, in this order, with `Workers`; `Book`; `Memory` for the lists; `Gather` if a worker found a book with another origin;
/// `Job`, or `Memory` if memory ran out for the operation of an earlier job; and `Gather` for any other reason (or `Memory` if
/// that check runs out of memory). In all but the first two cases the book is dropped.
pub fn record_jobs<R: Threads + Wait + Sync, J: Jobs + Sync, G: Gate + Sync>(
    rt: &R,
    alloc: Global,
    origin: Origin,
    jobs: &J,
    workers: usize,
    gate: &G,
) -> Result<Batch, JobsFault>
    requires { J.total jobs.now < 2 ^ 32 }
    // Each job has one outcome.
    ensures batch { IfOk result (λ batch. IsBatchOf origin (J.total jobs.now) (J.makes jobs.now origin.alg) workers
        batch.book (map book_outcome_of batch.outcomes.items) batch.by.items) }
    // Its book is one: the records are a legal history.
    ensures is_book { IfOk result (λ batch. IsBook batch.book) }
    // There is a batch only if each job's operation was made, unless memory ran out for it.
    ensures made { IfOk result (λ _. AllMadeUnlessMemory (J.total jobs.now) (J.makes jobs.now origin.alg) (J.fails jobs.now)) }
    // Workers start only if their number is right and a book may be opened, and each fault has its reason.
    ensures fault { MatchResult result (λ _. MayBegin workers origin) (IsJobsFaultOf workers origin) }
    // `Workers` exactly where the number of workers is not 1 to 8.
    ensures workers { (result ≡ Err (JobsFault.Agent AgentFault.Workers)) ↔ (IsNumberOfWorkers workers → ⊥) }
    // If the number is right and `open_refusal_of` is `Some fault`, the result is `Err(Agent(Book(fault)))`.
    ensures book { (fault : BookFault) → IsNumberOfWorkers workers → open_refusal_of origin ≡ Some fault
        → result ≡ Err (JobsFault.Agent (AgentFault.Book fault)) }
    // `Job` names the first job whose operation could not be made, and the reason, which is never memory.
    ensures job { (job : ℕ) (fault : JobFault) → result ≡ Err (JobsFault.Job job fault)
        → IsFirstUnmade (J.total jobs.now) (J.makes jobs.now origin.alg) (J.fails jobs.now) job fault × (fault ≢ Memory) }
    // `Gather` names the first reason that holds for some book and some outcomes of distinct jobs, one group per worker.
    ensures gather { (reason : GatherFault) → result ≡ Err (JobsFault.Agent (AgentFault.Gather reason))
        → IsReasonOf workers origin (J.total jobs.now) (J.makes jobs.now origin.alg) reason }
{
    if workers == 0 || workers > MOST_WORKERS {
        return Err(JobsFault::Agent(AgentFault::Workers));
    }
    let book = Book::open(alloc, origin)?;
    let (book, all) = all_taken(rt, alloc, book, &origin, jobs, workers, gate)?;
    settle(alloc, book, &origin, jobs, workers, all)
}

// Has the workers take all jobs and record them in the book. Returns the book, and what all of them did.
fn all_taken<R: Threads + Wait + Sync, J: Jobs + Sync, G: Gate + Sync>(
    rt: &R,
    alloc: Global,
    book: Book,
    origin: &Origin,
    jobs: &J,
    workers: usize,
    gate: &G,
) -> Result<(Book, AllWork), AllocError>
    requires few { J.total jobs.now < 2 ^ 32 }
    requires number { IsNumberOfWorkers workers }
    ensures { IfOk result (λ done. IsAllWork origin.now (J.total jobs.now) (J.makes jobs.now origin.now.alg) (J.fails jobs.now) workers done.1) }
{
    let count = jobs.count();
    let (claims, first) = Claims::new(alloc, count as u32, workers as u32)?;
    let (book, works) = fan_out(rt, alloc, &claims, first, book, origin, jobs, gate)?;
    let all = AllWork::of(alloc, claims, works, count)?;
    Ok((book, all))
}

// Checks what all workers did against the book, and puts their outcomes in the order of the jobs. The lists for that are passed
// in, so no reason comes before their memory. `_jobs` is for the contract only.
fn settle<J: Jobs>(
    alloc: Global,
    book: Book,
    origin: &Origin,
    _jobs: &J,
    workers: usize,
    all: AllWork,
) -> Result<Batch, JobsFault>
    requires number { IsNumberOfWorkers workers }
    requires all { IsAllWork origin.now (J.total _jobs.now) (J.makes _jobs.now origin.now.alg) (J.fails _jobs.now) workers all }
    ensures batch { IfOk result (λ batch. IsBatchOf origin.now (J.total _jobs.now) (J.makes _jobs.now origin.now.alg) workers
        batch.book (map book_outcome_of batch.outcomes.items) batch.by.items) }
    ensures is_book { IfOk result (λ batch. IsBook batch.book) }
    ensures made { IfOk result (λ _. AllMadeUnlessMemory (J.total _jobs.now) (J.makes _jobs.now origin.now.alg) (J.fails _jobs.now)) }
    // The fault is the first reason that holds for this book and the workers' outcomes, or that of the first unmade job.
    ensures fault { IfErr result (IsUnsettled all book origin.now) }
{
    if all.foreign {
        return Err(JobsFault::Agent(AgentFault::Gather(GatherFault::ForeignBook)));
    }
    if let Some(unmade) = all.unmade {
        return Err(unmade_fault(unmade));
    }
    check_accounts(alloc, &book, origin, &all.groups)?;
    let AllWork {
        takings,
        groups,
        mut outcomes,
        mut by,
        ..
    } = all;
    scatter(&mut outcomes, &mut by, &takings, groups);
    Ok(Batch { book, outcomes, by })
}

// Fails unless the workers' outcomes account for the book's records. Nothing else shows that the same book was behind the lock
// each time.
fn check_accounts(
    alloc: Global,
    book: &Book,
    origin: &Origin,
    groups: &[Vec<Outcome>],
) -> Result<(), GatherFault>
    ensures accounts { IfOk result (λ _. AccountsForAll book.now origin.now (groups_of groups.now)) }
    ensures fault { IfErr result (IsFirstFault book.now origin.now (groups_of groups.now)) }
    ensures book { IsBook book.now }
{
    gather(alloc, book, origin, groups)
}

// The fault where this is the first job whose operation could not be made.
fn unmade_fault(unmade: Unmade) -> JobsFault
    ensures { result ≡ fault_of_unmade unmade }
{
    match unmade.fault {
        JobFault::Memory => JobsFault::Agent(AgentFault::Memory),
        fault => JobsFault::Job {
            job: unmade.job,
            fault,
        },
    }
}

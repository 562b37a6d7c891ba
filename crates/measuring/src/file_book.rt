//! Records the files of given names in a book over a log.

ghost use Rattle.std.specs.Prelude.{◌≡◌, ◌<◌, ◌⊎◌, ◌^◌, length, map, None, IfOk, IfErr, IfSome, IfNone};
ghost use Rattle.boot_log.specs.Names.{log_bytes};
ghost use Rattle.measure_book.specs.Names.{book_outcome_of};
ghost use Rattle.agent_inputs.specs.Faults.{fault_of_job};
ghost use Rattle.measuring.specs.Measuring.{AreDone, AreLog, HasRecorded, IsFileFault, IsFirstRefusal, fault_of_workers};
ghost use Rattle.measuring.specs.Measuring.{IsMeasuredOver, IsNotRecorded, IsRecordingFault};
ghost use Rattle.measuring.specs.parts.{names_borrowed};

use crate::named_files::{NamedFiles, ProgressGate};
use crate::progress::FileProgress;
use agent_inputs::{RunFault, SharedFiles};
use agent_plans::Measurement;
use boot_log::LogView;
use hash_workers::{AgentFault, JobsFault, record_jobs};
use measure_book::{Book, BookFault, Origin, Outcome};
use pcr_banks::Banks;
use std::alloc::Global;
use std::sync::Wait;
use std::thread::Threads;

/// What a measurement gives.
#[derive(Drop)]
pub struct Measured {
    /// The book in which all files are recorded.
    pub book: Book,
    /// The registers at their reset values, as the log's startup leaves them.
    pub reset: Banks,
}

/// Measures the files of these names over a log that was looked through.
pub(crate) fn measure_over<R: Threads + Wait + Sync, S: SharedFiles + Sync, P: FileProgress>(
    rt: &R,
    alloc: Global,
    files: &S,
    log: &LogView<'_>,
    request: &Measurement,
    names: &[&str],
    progress: &P,
) -> Result<Measured, RunFault>
    requires small { length names.now < 2 ^ 32 }
    requires read { AreLog (log_bytes log.now) }
    ensures measured { IfOk result (IsMeasuredOver (S.held files.now) (log_bytes log.now) request.now (names_borrowed names.now)) }
    ensures fault { IfErr result (λ fault. IsFileFault (S.held files.now) (S.fails files.now) (names_borrowed names.now) fault
        ⊎ IsNotRecorded (S.held files.now) (log_bytes log.now) request.now (names_borrowed names.now) fault) }
{
    let origin = Origin {
        start: log.registers(),
        template: request.template,
        alg: request.alg,
        limit: request.limit,
    };
    let jobs = NamedFiles { files, names };
    let book = recorded(rt, alloc, origin, &jobs, request.workers, progress)?;
    Ok(Measured {
        book,
        reset: log.reset_registers(),
    })
}

// The book in which all files are recorded.
fn recorded<R: Threads + Wait + Sync, S: SharedFiles + Sync, P: FileProgress>(
    rt: &R,
    alloc: Global,
    origin: Origin,
    jobs: &NamedFiles<'_, S>,
    workers: usize,
    progress: &P,
) -> Result<Book, RunFault>
    requires small { length jobs.now.names.now < 2 ^ 32 }
    ensures measured { IfOk result (HasRecorded (S.held jobs.now.files.now) (names_borrowed jobs.now.names.now) origin workers None) }
    ensures fault { IfErr result (λ fault.
        IsFileFault (S.held jobs.now.files.now) (S.fails jobs.now.files.now) (names_borrowed jobs.now.names.now) fault
        ⊎ IsRecordingFault (S.held jobs.now.files.now) (names_borrowed jobs.now.names.now) origin workers fault) }
{
    let gate = ProgressGate::new(progress, jobs.names.len() as u32);
    let recorded = record_jobs(rt, alloc, origin, jobs, workers, &gate);
    progress.ended();
    match recorded {
        Ok(batch) => match first_refusal(&batch.outcomes) {
            None => Ok(batch.book),
            Some(fault) => Err(fault),
        },
        Err(JobsFault::Job { job, fault }) => Err(jobs.fault_of(alloc, job, fault)),
        Err(JobsFault::Agent(AgentFault::Book(fault))) => {
            jobs.check(alloc, origin.alg)?;
            Err(RunFault::Book(fault))
        }
        Err(JobsFault::Agent(fault)) => Err(fault_of_workers(fault)),
    }
}

// The program's fault for a fault of the workers.
fn fault_of_workers(fault: AgentFault) -> RunFault
    ensures { result ≡ fault_of_workers fault }
{
    match fault {
        AgentFault::Workers => RunFault::Usage,
        AgentFault::Book(fault) => RunFault::Book(fault),
        AgentFault::Gather(fault) => RunFault::Gather(fault),
        AgentFault::Memory => RunFault::Memory,
    }
}

// The fault of the first job that was refused.
fn first_refusal(outcomes: &[Outcome]) -> Option<RunFault>
    requires small { length outcomes.now < 2 ^ 32 }
    ensures some { IfSome result (IsFirstRefusal (map book_outcome_of outcomes.now)) }
    ensures none { IfNone result (AreDone (map book_outcome_of outcomes.now) (length (map book_outcome_of outcomes.now))) }
{
    for job in 0..outcomes.len() {
        if let Outcome::Refused(fault) = &outcomes[job] {
            return Some(refused(job as u32, *fault));
        }
    }
    None
}

// The fault for a job of this number that was refused for this reason.
fn refused(job: u32, fault: BookFault) -> RunFault
    ensures { result ≡ fault_of_job job fault }
{
    match fault {
        BookFault::Memory => RunFault::Memory,
        _ => RunFault::Outcome { job, fault },
    }
}

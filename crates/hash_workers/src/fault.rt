//! The faults of jobs and batches.

ghost use Rattle.std.specs.Prelude.{◌≡◌};
ghost use Rattle.hash_workers.specs.Faults.{fault_of_book, fault_of_gather, jobs_fault_of_book, jobs_fault_of_gather};

use measure_book::{BookFault, GatherFault};
use std::alloc::AllocError;
use thiserror::Error;

/// Why a list of jobs has no batch. Reasons are checked in the order `Workers`, `Book`, `Memory`, `Gather`, as
/// [`measure_files`](crate::measure_files) says.
#[derive(Clone, Copy, Debug, PartialEq, Eq, Error)]
pub enum AgentFault {
    /// The number of workers is not 1 to 8.
    #[error("the number of workers is not 1 to 8")]
    Workers,
    /// No book is opened; never `BookFault::Memory`.
    #[error("the book cannot be opened: {0}")]
    Book(BookFault),
    /// What the workers got does not account for the book's records; never `GatherFault::Memory`.
    #[error("the outcomes do not account for the book: {0}")]
    Gather(GatherFault),
    /// Out of memory.
    #[error("out of memory")]
    Memory,
}

impl From<BookFault> for AgentFault {
    ghost from_gives = { λ book_fault fault. fault ≡ fault_of_book book_fault };

    fn from(fault: BookFault) -> Self {
        match fault {
            BookFault::Memory => AgentFault::Memory,
            other => AgentFault::Book(other),
        }
    }
}

impl From<GatherFault> for AgentFault {
    ghost from_gives = { λ gather_fault fault. fault ≡ fault_of_gather gather_fault };

    fn from(fault: GatherFault) -> Self {
        match fault {
            GatherFault::Memory => AgentFault::Memory,
            other => AgentFault::Gather(other),
        }
    }
}

impl From<AllocError> for AgentFault {
    ghost use Rattle.hash_workers.specs.declared.fault.AgentFault.TheVariants.{Memory};

    ghost from_gives = { λ _ fault. fault ≡ Memory };

    fn from(_refused: AllocError) -> Self {
        AgentFault::Memory
    }
}

/// Why the operation of a job cannot be made.
#[derive(Clone, Copy, Debug, PartialEq, Eq, Error)]
pub enum JobFault {
    /// The input to hash has more bytes than are allowed.
    #[error("too many bytes")]
    TooLong,
    /// The input to hash could not be opened, or failed while it was read.
    #[error("the source failed")]
    Source,
    /// Out of memory.
    #[error("out of memory")]
    Memory,
}

impl From<AllocError> for JobFault {
    ghost use Rattle.hash_workers.specs.declared.fault.JobFault.TheVariants.{Memory};

    ghost from_gives = { λ _ fault. fault ≡ Memory };

    fn from(_refused: AllocError) -> Self {
        JobFault::Memory
    }
}

/// Why jobs of any kind have no batch.
#[derive(Clone, Copy, Debug, PartialEq, Eq, Error)]
pub enum JobsFault {
    /// A fault that a list of jobs may have too.
    #[error("{0}")]
    Agent(AgentFault),
    /// The operation of this job cannot be made, and those of all jobs before it were; never for `JobFault::Memory`.
    #[error("job {job}: {fault}")]
    Job {
        /// The number of the job.
        job: u32,
        /// Why its operation cannot be made.
        fault: JobFault,
    },
}

impl From<BookFault> for JobsFault {
    ghost from_gives = { λ book_fault fault. fault ≡ jobs_fault_of_book book_fault };

    fn from(fault: BookFault) -> Self {
        JobsFault::Agent(fault.into())
    }
}

impl From<GatherFault> for JobsFault {
    ghost from_gives = { λ gather_fault fault. fault ≡ jobs_fault_of_gather gather_fault };

    fn from(fault: GatherFault) -> Self {
        JobsFault::Agent(fault.into())
    }
}

impl From<AllocError> for JobsFault {
    ghost use Rattle.hash_workers.specs.declared.fault.AgentFault.TheVariants as agents;
    ghost use Rattle.hash_workers.specs.declared.fault.JobsFault.TheVariants.{Agent};

    ghost from_gives = { λ _ fault. fault ≡ Agent agents.Memory };

    fn from(_refused: AllocError) -> Self {
        JobsFault::Agent(AgentFault::Memory)
    }
}

//! Why a use fails.

ghost use Rattle.std.specs.Prelude.{◌≡◌};
ghost use Rattle.uses.specs.declared.fault.UseFault.TheVariants as faults;

use boot_log::LogFault;
use boot_verdict::VerifyFault;
use hash_workers::AgentFault;
use measure_book::{BookFault, GatherFault};
use pcr_values::ExpectFault;
use std::alloc::AllocError;
use thiserror::Error;

/// Why a use fails.
#[derive(Clone, Copy, Debug, PartialEq, Eq, Error)]
pub enum UseFault {
    /// The firmware event log was not read.
    #[error("not a firmware event log: {0}")]
    Log(LogFault),
    /// The expected registers were not read.
    #[error("not expected registers: {0}")]
    Expected(ExpectFault),
    /// There is no verdict.
    #[error("there is no verdict: {0}")]
    Verdict(VerifyFault),
    /// The book was not opened.
    #[error("the book cannot be opened: {0}")]
    Book(BookFault),
    /// The outcomes do not account for the book's records.
    #[error("the outcomes do not account for the book: {0}")]
    Gather(GatherFault),
    /// The workers did not do their jobs.
    #[error("the workers did not do their jobs: {0}")]
    Workers(AgentFault),
    /// Out of memory.
    #[error("out of memory")]
    Memory,
}

impl From<LogFault> for UseFault {
    ghost from_gives = { λ log_fault fault. fault ≡ faults.Log log_fault };

    fn from(fault: LogFault) -> Self {
        UseFault::Log(fault)
    }
}

impl From<ExpectFault> for UseFault {
    ghost from_gives = { λ expect_fault fault. fault ≡ faults.Expected expect_fault };

    fn from(fault: ExpectFault) -> Self {
        UseFault::Expected(fault)
    }
}

impl From<VerifyFault> for UseFault {
    ghost from_gives = { λ verify_fault fault. fault ≡ faults.Verdict verify_fault };

    fn from(fault: VerifyFault) -> Self {
        UseFault::Verdict(fault)
    }
}

impl From<BookFault> for UseFault {
    ghost from_gives = { λ book_fault fault. fault ≡ faults.Book book_fault };

    fn from(fault: BookFault) -> Self {
        UseFault::Book(fault)
    }
}

impl From<GatherFault> for UseFault {
    ghost from_gives = { λ gather_fault fault. fault ≡ faults.Gather gather_fault };

    fn from(fault: GatherFault) -> Self {
        UseFault::Gather(fault)
    }
}

impl From<AgentFault> for UseFault {
    ghost from_gives = { λ agent_fault fault. fault ≡ faults.Workers agent_fault };

    fn from(fault: AgentFault) -> Self {
        UseFault::Workers(fault)
    }
}

impl From<AllocError> for UseFault {
    ghost from_gives = { λ _ fault. fault ≡ faults.Memory };

    fn from(_refused: AllocError) -> Self {
        UseFault::Memory
    }
}

//! The jobs that workers take.

ghost use Rattle.std.specs.Prelude.{◌≡◌, ◌<◌, ℕ, MatchResult, length};
ghost use Rattle.measure_book.specs.Names.{BookOp, book_op_of};
ghost use Rattle.pcr_banks.specs.declared.alg.Alg.{Alg};
ghost use Rattle.hash_workers.specs.declared.fault.JobFault.{JobFault};
ghost use Rattle.hash_workers.specs.declared.fault.JobFault.TheVariants.{Memory};
ghost use Rattle.hash_workers.specs.Jobs.{operations_of};
ghost use Rattle.hash_workers.specs.Outcomes.{IsAt};

use crate::fault::JobFault;
use crate::job::{Job, op_of};
use measure_book::Op;
use pcr_banks::Alg;
use std::alloc::Global;

/// Jobs for the workers, counted from 0. The worker that takes a job makes its operation, on its own thread.
pub trait Jobs {
    // The number of jobs.
    ghost total: { Self → ℕ };

    // The job with this number, hashed by this algorithm, may become this operation. Several are possible where the input is not
    // known to contracts, such as a file's content.
    ghost makes: { Self → Alg → ℕ → BookOp → Type 0 };

    // The operation of the job with this number cannot be made, for this reason.
    ghost fails: { Self → ℕ → JobFault → Type 0 };

    /// The number of jobs.
    fn count(&self) -> usize
        ensures { result ≡ total self.now };

    /// Makes the operation of the job with this number, hashed by this algorithm.
    fn operation(&self, alloc: Global, job: u32, alg: Alg) -> Result<Op, JobFault>
        requires { job < total self.now }
        ensures { MatchResult result (λ op. makes self.now alg job (book_op_of op)) (λ fault. fails self.now job fault) };
}

/// The jobs of a list.
#[derive(Clone, Copy)]
pub(crate) struct Listed<'a> {
    pub(crate) jobs: &'a [Job],
}

impl Jobs for Listed<'_> {
    ghost total = { λ listed. length listed.jobs.now };

    ghost makes = { λ listed alg. IsAt (operations_of alg listed.jobs.now) };

    // Making an operation fails only for memory.
    ghost fails = { λ _ _ fault. fault ≡ Memory };

    fn count(&self) -> usize {
        self.jobs.len()
    }

    #[tactic(auto, using(crate::proofs::WorkLaws::op_of_job))]
    fn operation(&self, alloc: Global, job: u32, alg: Alg) -> Result<Op, JobFault> {
        Ok(op_of(alloc, &self.jobs[job as usize], alg)?)
    }
}

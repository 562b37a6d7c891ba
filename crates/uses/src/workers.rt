//! Files that are measured by several workers at once.

ghost use Rattle.std.specs.Prelude.{◌<◌, ◌^◌, length, map, IfOk, IfErr};
ghost use Rattle.pcr_banks.specs.declared.alg.Alg.TheVariants.{Sha256};
ghost use Rattle.measure_book.specs.Names.{book_outcome_of};
ghost use Rattle.hash_workers.specs.Names.{operations_of};
ghost use Rattle.uses.specs.Faults.{IsNotRecorded};
ghost use Rattle.uses.specs.Uses.{IsSharedByWorkers};

use crate::book::origin_after;
use crate::fault::UseFault;
use hash_workers::{Batch, Job, NoGate, measure_files};
use std::alloc::Global;
use std::sync::Wait;
use std::thread::Threads;

/// Has four workers hash the files of these jobs at once, and record each in a book that goes on from the registers of a firmware event
/// log. It may wait for other threads; the clauses hold if it returns.
pub fn measure_by_four<R: Threads + Wait + Sync>(
    rt: &R,
    alloc: Global,
    log: &[u8],
    jobs: &[Job],
) -> Result<Batch, UseFault>
    requires { length jobs.now < 2 ^ 32 }
    ensures batch { IfOk result (λ batch. IsSharedByWorkers log.now (operations_of Sha256 jobs.now) batch.book
        (map book_outcome_of batch.outcomes.items) batch.by.items) }
    ensures fault { IfErr result (IsNotRecorded log.now) }
{
    let origin = origin_after(alloc, log)?;
    Ok(measure_files(rt, alloc, origin, jobs, 4, &NoGate)?)
}

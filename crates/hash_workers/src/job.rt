//! Jobs, and the operations that they become.

ghost use Rattle.std.specs.Prelude.{◌≡◌, IfOk};
ghost use Rattle.measure_book.specs.Names.{book_op_of};
ghost use Rattle.hash_workers.specs.Jobs.{operation_of};

use ima_list::Sig;
use measure_book::Op;
use pcr_banks::{Alg, hash};
use std::alloc::{AllocError, Global};

/// A job: what is to be recorded.
#[derive(Drop)]
pub enum Job {
    /// Measure the file with this path, content and signature.
    File {
        path: Vec<u8>,
        content: Vec<u8>,
        sig: Sig,
    },
    /// Record that the measurement of the file with this path was violated.
    Violation {
        path: Vec<u8>,
    },
    /// Read a register.
    Read {
        alg: Alg,
        register: u32,
    },
}

/// The operation of a job. A file becomes a measurement with its path, the hash of its content by the algorithm, and its
/// signature; a violation or a read stays what it is.
///
/// Fails where there is no memory for the path or the signature.
pub fn op_of(alloc: Global, job: &Job, alg: Alg) -> Result<Op, AllocError>
    ensures { IfOk result (λ op. book_op_of op ≡ operation_of alg job.now) }
{
    Ok(match job {
        Job::File { path, content, sig } => Op::Measure {
            path: Vec::from_slice(alloc, path)?,
            digest: hash(alg, content),
            sig: sig.copy()?,
        },
        Job::Violation { path } => Op::Violation {
            path: Vec::from_slice(alloc, path)?,
        },
        Job::Read { alg, register } => Op::Read {
            alg: *alg,
            register: *register,
        },
    })
}

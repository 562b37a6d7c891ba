//! Progress reports of the workers.

use measure_book::Op;

/// Is told how far each job is. A worker makes both calls for every job that it takes, neither of them while it holds the book's
/// lock. A gate may block the worker. It is supplied by the caller; no contract.
pub trait Gate {
    /// The worker has made the job's operation, and has not taken the lock for it yet. `op` is `None` if it could not be made.
    fn hashed(&self, job: u32, op: Option<&Op>);

    /// The worker is done with the job, and does not hold the lock.
    fn recorded(&self, job: u32);
}

/// A gate that does nothing.
#[derive(Clone, Copy)]
pub struct NoGate;

impl Gate for NoGate {
    fn hashed(&self, _job: u32, _op: Option<&Op>) {}

    fn recorded(&self, _job: u32) {}
}

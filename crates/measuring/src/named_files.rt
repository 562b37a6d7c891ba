//! Named files as the workers' jobs.

ghost use Rattle.std.specs.Prelude.{◌<◌, ◌^◌, length, slice_get, IfErr, IfSome, OnOk};
ghost use Rattle.measuring.specs.Measuring.{HasFiles, IsFileFault, IsFileMeasure, IsUnhashed};
ghost use Rattle.measuring.specs.parts.{IsFileFailure, names_borrowed};

use crate::progress::FileProgress;
use agent_inputs::{INPUT_LIMIT, LoadFault, RunFault, SharedFiles, not_read, too_long};
use hash_workers::{Gate, JobFault, Jobs};
use ima_list::Sig;
use measure_book::Op;
use pcr_banks::Alg;
use std::alloc::Global;
use std::sync::atomic::{AtomicU32, Ordering};

/// The files of these names, as jobs. Each becomes the measurement of its name, with the hash of its content, which is hashed as
/// it is read, and without a signature: extended attributes are not read.
#[derive(Clone, Copy)]
pub(crate) struct NamedFiles<'a, S> {
    pub files: &'a S,
    pub names: &'a [&'a str],
}

impl<S: SharedFiles> Jobs for NamedFiles<'_, S> {
    ghost total = { λ jobs. length (names_borrowed jobs.names.now) };

    ghost makes = { λ jobs. IsFileMeasure (S.held jobs.files.now) (names_borrowed jobs.names.now) };

    ghost fails = { λ jobs. IsFileFailure (S.held jobs.files.now) (S.fails jobs.files.now) (names_borrowed jobs.names.now) };

    fn count(&self) -> usize {
        self.names.len()
    }

    fn operation(&self, alloc: Global, job: u32, alg: Alg) -> Result<Op, JobFault> {
        let name = self.names[job as usize];
        let digest = match self.files.hash(alloc, name, alg, INPUT_LIMIT) {
            Ok(digest) => digest,
            Err(LoadFault::TooLong) => return Err(JobFault::TooLong),
            Err(LoadFault::Source) => return Err(JobFault::Source),
            Err(LoadFault::Memory) => return Err(JobFault::Memory),
        };
        Ok(Op::Measure {
            path: Vec::from_slice(alloc, name.as_bytes())?,
            digest,
            sig: Sig::empty(alloc),
        })
    }
}

impl<S: SharedFiles> NamedFiles<'_, S> {
    /// The fault of the file of this number, which has no operation for this reason.
    pub fn fault_of(&self, alloc: Global, job: u32, fault: JobFault) -> RunFault
        requires number { job < length self.now.names.now }
        requires reason { IsFileFailure (S.held self.now.files.now) (S.fails self.now.files.now) (names_borrowed self.now.names.now) job fault }
        ensures { IfSome (slice_get (names_borrowed self.now.names.now) job) (λ name.
            IsUnhashed (S.held self.now.files.now) (S.fails self.now.files.now) name result) }
    {
        let name = self.names[job as usize];
        match fault {
            JobFault::TooLong => too_long(alloc, name),
            JobFault::Source => not_read(alloc, name),
            JobFault::Memory => RunFault::Memory,
        }
    }

    /// Reads each file. Fails with the fault of the first, in their order, that cannot be read. For the case that no book was opened,
    /// and so no worker read them.
    pub fn check(&self, alloc: Global, alg: Alg) -> Result<(), RunFault>
        requires { length self.now.names.now < 2 ^ 32 }
        ensures read { OnOk result (HasFiles (S.held self.now.files.now) (names_borrowed self.now.names.now) (length (names_borrowed self.now.names.now))) }
        ensures fault { IfErr result (IsFileFault (S.held self.now.files.now) (S.fails self.now.files.now) (names_borrowed self.now.names.now)) }
    {
        for index in 0..self.names.len() {
            if let Err(fault) = self.operation(alloc, index as u32, alg) {
                return Err(self.fault_of(alloc, index as u32, fault));
            }
        }
        Ok(())
    }
}

/// A gate of the workers that reports how many files are done.
#[derive(Drop)]
pub(crate) struct ProgressGate<'a, P> {
    progress: &'a P,
    done: AtomicU32,
    all: u32,
}

impl<'a, P: FileProgress> ProgressGate<'a, P> {
    /// A gate for `all` files, none of which is done yet.
    pub fn new(progress: &'a P, all: u32) -> Self {
        ProgressGate {
            progress,
            done: AtomicU32::new(0),
            all,
        }
    }
}

impl<P: FileProgress> Gate for ProgressGate<'_, P> {
    fn hashed(&self, _job: u32, _op: Option<&Op>) {}

    fn recorded(&self, _job: u32) {
        let before = self.done.fetch_add(1, Ordering::SeqCst);
        self.progress.done(before.wrapping_add(1), self.all);
    }
}

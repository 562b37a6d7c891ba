//! One worker: it draws jobs, makes their operations and records them.

ghost use Rattle.std.specs.Prelude.{◌≡◌, ◌≢◌, ◌<◌, ℕ, None, Some, map, IfOk, IfSome, OnErr, OnOk, MatchResult, option_map};
ghost use Rattle.std.specs.Option.{option_copied};
ghost use Rattle.measure_book.specs.Names.{book_op_of, book_outcome_of};
ghost use Rattle.hash_workers.specs.parts.Taking.{NumbersRise};
ghost use Rattle.hash_workers.specs.parts.Working.{IsWorked};
ghost use Rattle.hash_workers.specs.declared.fault.JobFault.TheVariants.{Memory};
ghost use Rattle.hash_workers.specs.declared.work.End.TheVariants.{NoOperation};
ghost use Rattle.hash_workers.specs.declared.work.Turn.TheVariants.{Next, Last};
ghost use Rattle.hash_workers.specs.parts.Ending.{AreHad, AreMadeUnlessMemory, IsEnd, IsTakenUnmade, IsUnmadeAfter, IsNoted, IsStopped, IsTurnAfter, KeepsOne, StopsFor, TakesOne, TellsAll};
ghost use Rattle.hash_workers.specs.parts.Seats.{IsNewSeat, IsSinglePlace};

mod all;

use crate::claims::{ClaimSeat, Claims};
use crate::fault::JobFault;
use crate::gate::Gate;
use crate::jobs::Jobs;
use crate::recorder::{ForeignBook, Recorder};
pub(crate) use all::AllWork;
use measure_book::{BookFault, Op, Origin, Outcome};
use std::alloc::{AllocError, Global};

/// Why a worker takes no more jobs.
#[derive(Clone, Copy, PartialEq, Eq)]
enum End {
    /// No job is left.
    NoneLeft,
    /// There was no memory to keep another job's outcome.
    OutOfMemory,
    /// The book has another origin.
    ForeignBook,
    /// A job's operation could not be made, for a reason other than memory.
    NoOperation,
}

impl From<AllocError> for End {
    ghost use Rattle.hash_workers.specs.declared.work.End.TheVariants.{OutOfMemory};

    ghost from_gives = { λ _ end. end ≡ OutOfMemory };

    fn from(_refused: AllocError) -> Self {
        End::OutOfMemory
    }
}

impl From<ForeignBook> for End {
    ghost use Rattle.hash_workers.specs.declared.work.End.TheVariants as ends;

    ghost from_gives = { λ _ end. end ≡ ends.ForeignBook };

    fn from(_found: ForeignBook) -> Self {
        End::ForeignBook
    }
}

/// Whether a worker takes another job.
#[derive(Clone, Copy, PartialEq, Eq)]
enum Turn {
    /// It does.
    Next,
    /// It does not: the operation of the last one could not be made.
    Last,
}

/// A job whose operation could not be made, and why.
#[derive(Clone, Copy)]
pub(crate) struct Unmade {
    pub(crate) job: u32,
    pub(crate) fault: JobFault,
}

/// What a worker did: its seat, the jobs that it took, in order, the outcome of each, the first job whose operation could not be
/// made, and why it took no more.
#[derive(Drop)]
pub(crate) struct Work {
    pub(crate) seat: ClaimSeat,
    pub(crate) taken: Vec<u32>,
    pub(crate) outcomes: Vec<Outcome>,
    unmade: Option<Unmade>,
    end: End,
}

/// Draws jobs and takes each, until none is left or the worker has to stop. If a job's operation cannot be made for a reason other
/// than memory, draws all jobs that are left, so that no worker takes another.
pub(crate) fn take_jobs<B: Recorder, J: Jobs, G: Gate>(
    alloc: Global,
    recorder: &mut B,
    origin: &Origin,
    jobs: &J,
    claims: &Claims,
    seat: ClaimSeat,
    gate: &G,
) -> Work
    requires jobs { claims.now.jobs ≡ J.total jobs.now }
    requires seat { IsNewSeat claims.now seat }
    ensures seat { IsSinglePlace claims.now result.seat }
    ensures taken { NumbersRise result.taken.items }
    ensures worked { IsWorked origin.now (J.total jobs.now) (J.makes jobs.now origin.now.alg) result.taken.items
        (map book_outcome_of result.outcomes.items) }
    ensures had { AreHad (J.makes jobs.now origin.now.alg) result.taken.items result.unmade }
    ensures unmade { IfSome result.unmade (IsTakenUnmade (J.total jobs.now) (J.fails jobs.now) result.taken.items) }
    ensures end { IsEnd origin.now result.seat result.taken.items result.unmade result.end }
    // It stops for a job exactly if the operation of that could not be made for a reason other than memory.
    ensures made { result.end ≢ NoOperation → AreMadeUnlessMemory (J.makes jobs.now origin.now.alg) (J.fails jobs.now) result.taken.items }
    ensures stopped { result.end ≡ NoOperation → (job : ℕ) × IsStopped (J.fails jobs.now) job }
    ensures told { TellsAll origin.now (J.makes jobs.now origin.now.alg) (B.told recorder.old) (B.told recorder.new)
        result.taken.items (map book_outcome_of result.outcomes.items) result.end }
{
    let mut work = Work {
        seat,
        taken: Vec::new(alloc),
        outcomes: Vec::new(alloc),
        unmade: None,
        end: End::NoneLeft,
    };
    while let Some(number) = claims.draw(&mut work.seat) {
        match work.take(alloc, recorder, origin, jobs, number, gate) {
            Ok(Turn::Next) => (),
            Ok(Turn::Last) => {
                claims.draw_rest(&mut work.seat);
                work.end = End::NoOperation;
                return work;
            }
            Err(end) => {
                work.end = end;
                return work;
            }
        }
    }
    work
}

impl Work {
    // Takes one job: makes its operation and records it. If the operation cannot be made, notes that, and gives the job the
    // outcome `Refused(Memory)`, whatever the reason.
    fn take<B: Recorder, J: Jobs, G: Gate>(
        &mut self,
        alloc: Global,
        recorder: &mut B,
        origin: &Origin,
        jobs: &J,
        number: u32,
        gate: &G,
    ) -> Result<Turn, End>
        requires { number < J.total jobs.now }
        ensures takes { MatchResult result
            (λ _. TakesOne origin.now (J.total jobs.now) (J.makes jobs.now origin.now.alg) number self.old.taken.items self.new.taken.items
            (map book_outcome_of self.old.outcomes.items) (map book_outcome_of self.new.outcomes.items)
            (B.told recorder.old) (B.told recorder.new))
            (λ end. StopsFor origin.now (B.told recorder.old) (B.told recorder.new) end) }
        ensures unmade { OnOk result (IsUnmadeAfter (J.total jobs.now) (J.makes jobs.now origin.now.alg) (J.fails jobs.now) number
            self.old.taken.items self.new.taken.items self.old.unmade self.new.unmade) }
        ensures turn { IfOk result (IsTurnAfter (J.makes jobs.now origin.now.alg) (J.fails jobs.now) number) }
        ensures last { IfOk result (λ turn. turn ≡ Last → self.new.unmade ≢ None) }
        ensures refused { OnErr result ((self.new.taken.items ≡ self.old.taken.items) × (self.new.outcomes.items ≡ self.old.outcomes.items)
            × (self.new.unmade ≡ self.old.unmade)) }
        ensures same { (self.new.seat ≡ self.old.seat) × (self.new.end ≡ self.old.end) }
    {
        match jobs.operation(alloc, number, origin.alg) {
            Ok(op) => {
                self.pass(recorder, origin, number, Some(&op), gate)?;
                Ok(Turn::Next)
            }
            Err(fault) => {
                self.pass(recorder, origin, number, None, gate)?;
                Ok(self.note(number, fault))
            }
        }
    }

    // Notes the job as the one whose operation could not be made, if it is the first such. Returns whether the worker goes on.
    fn note(&mut self, job: u32, fault: JobFault) -> Turn
        ensures noted { IsNoted job fault self.old.unmade self.new.unmade }
        ensures next { result ≡ Next → fault ≡ Memory }
        ensures last { result ≡ Last → fault ≢ Memory }
        ensures same { (self.new.seat ≡ self.old.seat) × (self.new.end ≡ self.old.end) × (self.new.taken ≡ self.old.taken)
            × (self.new.outcomes ≡ self.old.outcomes) }
    {
        if self.unmade.is_none() {
            self.unmade = Some(Unmade { job, fault });
        }
        match fault {
            JobFault::Memory => Turn::Next,
            JobFault::TooLong | JobFault::Source => Turn::Last,
        }
    }

    // Records the job's operation between the two calls to the gate, which are made whatever the outcome.
    fn pass<B: Recorder, G: Gate>(
        &mut self,
        recorder: &mut B,
        origin: &Origin,
        number: u32,
        op: Option<&Op>,
        gate: &G,
    ) -> Result<(), End>
        ensures keeps { MatchResult result
            (λ _. KeepsOne origin.now (option_map book_op_of (option_copied op.entry)) number self.old.taken.items self.new.taken.items
            (map book_outcome_of self.old.outcomes.items) (map book_outcome_of self.new.outcomes.items)
            (B.told recorder.old) (B.told recorder.new))
            (λ end. StopsFor origin.now (B.told recorder.old) (B.told recorder.new) end) }
        ensures refused { OnErr result ((self.new.taken.items ≡ self.old.taken.items) × (self.new.outcomes.items ≡ self.old.outcomes.items)) }
        ensures same { (self.new.seat ≡ self.old.seat) × (self.new.end ≡ self.old.end) × (self.new.unmade ≡ self.old.unmade) }
    {
        gate.hashed(number, op);
        let kept = self.keep(recorder, origin, number, op);
        gate.recorded(number);
        kept
    }

    // Records the operation, and keeps its outcome as that of the job: `Refused(Memory)` where there is no operation.
    fn keep<B: Recorder>(
        &mut self,
        recorder: &mut B,
        origin: &Origin,
        number: u32,
        op: Option<&Op>,
    ) -> Result<(), End>
        ensures keeps { MatchResult result
            (λ _. KeepsOne origin.now (option_map book_op_of (option_copied op.entry)) number self.old.taken.items self.new.taken.items
            (map book_outcome_of self.old.outcomes.items) (map book_outcome_of self.new.outcomes.items)
            (B.told recorder.old) (B.told recorder.new))
            (λ end. StopsFor origin.now (B.told recorder.old) (B.told recorder.new) end) }
        ensures refused { OnErr result ((self.new.taken.items ≡ self.old.taken.items) × (self.new.outcomes.items ≡ self.old.outcomes.items)) }
        ensures same { (self.new.seat ≡ self.old.seat) × (self.new.end ≡ self.old.end) × (self.new.unmade ≡ self.old.unmade) }
    {
        self.taken.reserve(1)?;
        self.outcomes.reserve(1)?;
        let outcome = match op {
            Some(op) => recorder.record(origin, op)?,
            None => Outcome::Refused(BookFault::Memory),
        };
        self.taken.push_reserved(number);
        self.outcomes.push_reserved(outcome);
        Ok(())
    }
}

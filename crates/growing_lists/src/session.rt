//! A verification of a list that grows: of a log, it takes the list's bytes as they come, and reports on what it has taken.

ghost use Rattle.std.specs.Prelude.{◌≡◌, ◌↔◌, IsTrue, List, [], Some, is_some, IsOk, IfOk, IfErr, IsErrOf, OnOk, OnErr, ℕ};
ghost use Rattle.byte_streams.specs.Streams.{LosesPrefix};
ghost use Rattle.boot_log.specs.Names.{IsLog, LogEvent, log_bytes, log_fault};
ghost use Rattle.boot_log.specs.declared.header.DeclaredAlgorithm.{DeclaredAlgorithm};
ghost use Rattle.boot_verdict.specs.Names.{AreTracked, IsCheckpoint, IsMoreFault, IsVerdictUnder, ReadsAsLog, failures_after_list, most_after, verdict_of};
ghost use Rattle.growing_lists.specs.CheckpointData.{LeavesRoom};

use crate::same_banks::are_same_banks;
use boot_log::{LogFault, LogView};
use boot_verdict::{
    AggregateRule, Checkpoint, Report, ResumeFault, Tracker, VerifyFault, report_on,
};
use byte_streams::Source;
use pcr_values::Expected;
use std::alloc::Global;

/// A verification of a list that grows. It has looked through the log, and has taken some bytes of the list: it knows what they leave,
/// and keeps none of them.
#[derive(Drop)]
pub struct Session<'a> {
    pub(crate) log: LogView<'a>,
    pub(crate) checkpoint: Checkpoint,
}

impl<'a> Session<'a> {
    ghost use Rattle.growing_lists.specs.Sessions.{HasTaken, IsOfBoot, TakesMore, WatchesMore};

    /// A session of this log that has taken no bytes of the list. Fails with the fault of the log.
    pub fn new(log: &'a [u8]) -> Result<Self, LogFault>
        ensures taken { IfOk result (HasTaken log.now []) }
        ensures only { (table : List DeclaredAlgorithm) (events : List LogEvent) → IsLog log.now table events → IsOk result }
        ensures fault { IfErr result (λ fault. log_fault log.now ≡ Some fault) }
    {
        let log = LogView::new(log)?;
        let checkpoint = Checkpoint::before_list(log.registers());
        Ok(Session { log, checkpoint })
    }

    /// A session of this log that goes on from a checkpoint.
    ///
    /// Fails with the fault of the log, or with [`ResumeFault::OtherBoot`] if the log leaves other registers than those before the
    /// checkpoint's list.
    pub fn resume(log: &'a [u8], checkpoint: Checkpoint) -> Result<Self, ResumeFault>
        // If it is the checkpoint of a list, the session has taken that list.
        ensures taken { IfOk result (λ session. (list : List ℕ) → IsCheckpoint list checkpoint → HasTaken log.now list session) }
        ensures log { IfOk result (λ session. log_bytes session.log ≡ log.now) }
        ensures checkpoint { IfOk result (λ session. session.checkpoint ≡ checkpoint) }
        ensures boot { IfOk result (λ _. IsOfBoot log.now checkpoint) }
        // Wherever the log leaves the registers before the checkpoint, the session goes on.
        ensures only { IsOfBoot log.now checkpoint → IsOk result }
        // The log's fault comes first.
        ensures fault { (fault : LogFault) → IsErrOf result (ResumeFault.Log fault) → log_fault log.now ≡ Some fault }
        ensures other { IsErrOf result ResumeFault.OtherBoot → ReadsAsLog log.now }
    {
        let log = match LogView::new(log) {
            Ok(log) => log,
            Err(fault) => return Err(ResumeFault::Log(fault)),
        };
        if !are_same_banks(&log.registers(), &checkpoint.before) {
            return Err(ResumeFault::OtherBoot);
        }
        Ok(Session { log, checkpoint })
    }

    /// What is known after the bytes taken so far: enough to go on later with [`Session::resume`].
    pub fn checkpoint(&self) -> &Checkpoint
        ensures { result.now ≡ self.now.checkpoint }
    {
        &self.checkpoint
    }

    /// Takes all that the source has left, as the bytes that follow those taken so far: at most `limit`, and no more than make a list
    /// of 2^63 - 1 bytes. `watch` takes the new entries, and is returned. After `Err` the session is as before.
    ///
    /// Fails as [`boot_verdict::verify_from`] does of the whole list, with entries numbered from its first.
    pub fn more<R: Source, W: Tracker>(
        &mut self,
        alloc: Global,
        source: &mut R,
        limit: u64,
        watch: W,
    ) -> Result<W, VerifyFault>
        ensures taken { OnOk result ((log list : List ℕ) → HasTaken log list self.old
            → TakesMore log list (R.state source.old).remaining (R.state source.new).remaining (most_after self.old.checkpoint limit) self.new) }
        // What had tracked the entries taken so far has tracked those of the whole list.
        ensures watched { IfOk result (λ now. (start : W) (log list : List ℕ) (taken : HasTaken log list self.old)
            → AreTracked W.is_after start taken.checkpoint.entries watch
            → WatchesMore W.is_after start log list (R.state source.old).remaining (R.state source.new).remaining (most_after self.old.checkpoint limit) self.new now) }
        ensures kept { OnErr result (self.new ≡ self.old) }
        // Any fault is the first reason.
        ensures fault { IfErr result (λ fault. (log list : List ℕ) → HasTaken log list self.old
            → IsMoreFault list (R.state source.old).remaining (R.state source.new).remaining (most_after self.old.checkpoint limit) fault) }
        // In any case the source loses bytes from its start, and nothing else.
        ensures prefix { LosesPrefix (R.state source.old).remaining (R.state source.new).remaining }
        ensures telling { is_some (R.state source.new).remaining ≡ is_some (R.state source.old).remaining }
        ensures counts { (R.state source.new).failures ≡ failures_after_list result (R.state source.old).failures }
    {
        let (next, watch) = self
            .checkpoint
            .go_on(alloc, source, self.checkpoint.room(limit), watch)?;
        self.checkpoint = next;
        Ok(watch)
    }

    /// The report by this rule on the log, the list taken so far and the expected registers. Fails only if memory runs out.
    pub fn report(
        &self,
        alloc: Global,
        expected: &[Expected],
        rule: AggregateRule,
    ) -> Result<Report, VerifyFault>
        // It is the verdict on the log and the list.
        ensures report { IfOk result (λ report. (log list : List ℕ) → HasTaken log list self.now
            → IsVerdictUnder rule log list expected.now (verdict_of report)) }
        ensures fault { IfErr result (λ fault. fault ≡ VerifyFault.Memory) }
    {
        Ok(report_on(alloc, &self.log, &self.checkpoint, expected, rule)?)
    }
}

/// Whether a whole input fits after the checkpoint's list: where it does not, no checkpoint is read back from its text.
pub fn leaves_room(checkpoint: &Checkpoint) -> bool
    ensures { IsTrue result ↔ LeavesRoom checkpoint.now }
{
    checkpoint.bytes < (1 << 63) - (1 << 26)
}

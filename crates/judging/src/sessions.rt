//! Verdicts on a log and a list, which may go on from a checkpoint.

ghost use Rattle.std.specs.Prelude.{◌≡◌, ℕ, List, Option, option_map, IfOk, IfErr};
ghost use Rattle.pcr_banks.specs.Names.{value_at};
ghost use Rattle.boot_verdict.specs.Names.{IsVerdictUnder, verdict_of};
ghost use Rattle.growing_lists.specs.Goals.{goal_data, sought_data};
ghost use Rattle.growing_lists.specs.Sessions.{HasTaken};
ghost use Rattle.agent_inputs.specs.declared.fault.RunFault.TheVariants as runs;
ghost use Rattle.judging.specs.Answering.{IsCheckpointText, IsNoCheckpoint, goal_in, evidence_of, CanBeReadBack, IsAnswerOn, FindsFrom, IsLogRefused, IsStarted, JudgesFrom, seeks_prefix, sought_by};
ghost use Rattle.judging.specs.Requests.{VerdictOf, location_of};
ghost use Rattle.judging.specs.Inputs.{Where};

use crate::answers::{Evidence, Finding};
use crate::attesting::report_on;
use crate::inputs::{Input, limit_of, refusal};
use crate::request::{Answer, Found, ScopedReport};
use agent_inputs::{NotResumed, RunFault};
use agent_plans::Scope;
use boot_verdict::{AggregateRule, Checkpoint, CheckpointFault, PrefixReport, Report, ResumeFault};
use byte_streams::Source;
use growing_lists::laws::counted_checkpoint_is_possible;
use growing_lists::{Goal, SavedState, Session, Sought, leaves_room, read_checkpoint};
use known_files::UnknownEntries;
use pcr_banks::Banks;
use pcr_values::Expected;
use std::alloc::{AllocError, Global};

/// The checkpoint whose text this is, and its boot.
pub(crate) fn checkpoint_in(alloc: Global, text: &[u8]) -> Result<SavedState, RunFault>
    ensures found { IfOk result (IsCheckpointText text.now) }
    ensures fault { IfErr result (IsNoCheckpoint text.now) }
{
    match read_checkpoint(alloc, text) {
        Ok(state) => Ok(state),
        Err(CheckpointFault::Damaged) => Err(RunFault::Checkpoint(NotResumed::Damaged)),
        Err(CheckpointFault::Version) => Err(RunFault::Checkpoint(NotResumed::Version)),
        Err(CheckpointFault::Memory) => Err(RunFault::Memory),
    }
}

impl Evidence<'_> {
    /// The verdict on the whole list of this source, or on its confirmed prefix.
    #[inline(never)]
    pub(crate) fn verdict_from<R: Source>(
        &self,
        alloc: Global,
        source: &mut R,
        list: Input<'_>,
        scope: Scope,
    ) -> Finding
        ensures { (log : Where) (resume : Option Where) → FindsFrom (VerdictOf log scope resume) (location_of list.entry) (evidence_of self.now)
            (R.state source.old) (R.state source.new) result }
    {
        let mut session = session_of(self.log.bytes(), self.checkpoint)?;
        let watch = UnknownEntries::new(
            alloc,
            self.known_files.as_ref(),
            session.checkpoint().entries,
        );
        let (judged, watch) = self.judge_from(alloc, &mut session, source, list, scope, watch)?;
        let next = next_of(&session)?;
        let unknown = watch.within(next.entries)?;
        let answer = self.answer_on(alloc, judged, &next.after)?;
        Ok(Found {
            answer,
            next: Some(next),
            unknown,
        })
    }

    /// The report on what was judged, after which these are the registers. It fails only if memory runs out.
    #[inline(never)]
    pub(crate) fn answer_on(
        &self,
        alloc: Global,
        judged: ScopedReport,
        registers: &Banks,
    ) -> Result<Answer, RunFault>
        ensures answer { IfOk result (IsAnswerOn (evidence_of self.now).quote self.now.signature self.now.values judged
            (value_at registers.now)) }
        ensures fault { IfErr result (λ fault. fault ≡ runs.Memory) }
    {
        match (self.quote, judged) {
            (None, ScopedReport::Whole(report)) => Ok(Answer::Report(report)),
            (None, ScopedReport::Prefix(report)) => Ok(Answer::Prefix(report)),
            (Some(quote), judged) => {
                let report = report_on(
                    alloc,
                    judged,
                    registers,
                    quote,
                    self.signature,
                    self.values,
                )?;
                Ok(Answer::Attestation(report))
            }
        }
    }

    // Has the session take the list, or its confirmed prefix if that is sought, and reports on it. The watch looks at its entries.
    #[inline(never)]
    fn judge_from<'k, R: Source>(
        &self,
        alloc: Global,
        session: &mut Session<'_>,
        source: &mut R,
        list: Input<'_>,
        scope: Scope,
        watch: UnknownEntries<'k>,
    ) -> Result<(ScopedReport, UnknownEntries<'k>), RunFault>
        ensures { JudgesFrom scope (location_of list.entry) (evidence_of self.now) watch.entry (R.state source.old) (R.state source.new)
            session.old session.new result }
    {
        if self.seeks_prefix(scope) {
            match session.confirm(alloc, source, limit_of(list), self.goal(), watch) {
                Ok((Some(confirmed), watch)) => {
                    let prefix = PrefixReport {
                        report: report(alloc, session, &self.expected, self.rule)?,
                        entries: confirmed.entries,
                        unconfirmed: confirmed.unconfirmed,
                    };
                    Ok((ScopedReport::Prefix(prefix), watch))
                }
                Ok((None, watch)) => {
                    let whole = report(alloc, session, &self.expected, self.rule)?;
                    Ok((ScopedReport::Whole(whole), watch))
                }
                Err(fault) => Err(refusal(alloc, list, fault)),
            }
        } else {
            match session.more(alloc, source, limit_of(list), watch) {
                Ok(watch) => {
                    let whole = report(alloc, session, &self.expected, self.rule)?;
                    Ok((ScopedReport::Whole(whole), watch))
                }
                Err(fault) => Err(refusal(alloc, list, fault)),
            }
        }
    }
}

impl Evidence<'_> {
    // Whether a prefix is asked for that can be confirmed.
    fn seeks_prefix(&self, scope: Scope) -> bool
        ensures { result ≡ seeks_prefix scope (evidence_of self.now) }
    {
        match (scope, &self.quote, &self.requirement) {
            (Scope::Whole, _, _) => false,
            (Scope::Prefix, Some(_), _) => true,
            (Scope::Prefix, None, None) => !self.expected.is_empty(),
            (Scope::Prefix, None, Some(requirement)) => requirement.is_met(&self.expected),
        }
    }

    // What a prefix is confirmed by, and by which rule.
    fn goal(&self) -> Goal<'_>
        ensures { goal_data result ≡ goal_in (evidence_of self.now) }
    {
        Goal {
            sought: self.sought(),
            rule: self.rule,
        }
    }

    // What a prefix is confirmed by.
    fn sought(&self) -> Sought<'_>
        ensures { sought_data result ≡ sought_by (evidence_of self.now).quote (evidence_of self.now).expected }
    {
        match self.quote {
            Some(quote) => Sought::Quote(quote),
            None => Sought::Expected(&self.expected),
        }
    }
}

// A session of this log that goes on from this checkpoint, if there is one.
#[inline(never)]
fn session_of(log: &[u8], checkpoint: Option<Checkpoint>) -> Result<Session<'_>, RunFault>
    ensures started { IfOk result (IsStarted log.now checkpoint) }
    ensures fault { IfErr result (IsLogRefused log.now checkpoint) }
{
    match checkpoint {
        None => match Session::new(log) {
            Ok(session) => Ok(session),
            Err(fault) => Err(fault.into()),
        },
        Some(checkpoint) => match Session::resume(log, checkpoint) {
            Ok(session) => Ok(session),
            Err(ResumeFault::Log(fault)) => Err(fault.into()),
            Err(ResumeFault::OtherBoot) => Err(RunFault::Checkpoint(NotResumed::OtherBoot)),
        },
    }
}

// Where to go on. Fails for want of memory if no whole input fits after what the session has taken: its checkpoint would not be read back.
#[inline(never)]
fn next_of(session: &Session<'_>) -> Result<Checkpoint, RunFault>
    ensures next { IfOk result (λ next. (next ≡ session.now.checkpoint) × CanBeReadBack session.now.checkpoint) }
    ensures fault { IfErr result (λ fault. fault ≡ runs.Memory) }
{
    let next = session.checkpoint();
    counted_checkpoint_is_possible(next);
    if leaves_room(next) {
        Ok(*next)
    } else {
        Err(RunFault::Memory)
    }
}

// The report by this rule on all that the session has taken. It fails only if memory runs out.
fn report(
    alloc: Global,
    session: &Session<'_>,
    expected: &[Expected],
    rule: AggregateRule,
) -> Result<Report, AllocError>
    ensures { IfOk result (λ report. (log list : List ℕ) → HasTaken log list session.now
        → IsVerdictUnder rule log list expected.now (verdict_of report)) }
{
    Ok(
        session
            .report(alloc, expected, rule)
            .map_err(|_| AllocError)?,
    )
}

//! The answer to what is asked for, by one path.

ghost use Rattle.std.specs.Prelude.{◌≡◌, ◌⊎◌, [], true, None, if◌then◌else◌, option_map, IfOk, IfErr, IsSomeAnd, MatchOption, MatchResult};
ghost use Rattle.boot_verdict.specs.Names.{verdict_of};
ghost use Rattle.judging.specs.Answering.{HasNoEvidence, IsAnswer, IsComparison, IsEvidence, IsJudged, IsNotFound, IsResumedState, IsNoCheckpoint, IsNoComparison, IsNotCompared, IsNotRequired, IsRefusal, IsRequired, checkpoint_of, evidence_of, is_good, is_match, is_success, state_after, Finds, FindsFrom};
ghost use Rattle.judging.specs.Requests.{ListVerdictOf, requested_of, compared_of, held_bytes, judgement_of, log_of, location_of, requires_of, resume_of, rule_by, takes_known};
ghost use Rattle.judging.specs.Inputs.{Holds, IsInputFault, OfInput};

use crate::attesting::attest;
use crate::inputs::{Held, Input, known_in, limit_of, load_at, refusal};
use crate::keys::told_of_key;
use crate::printed_registers::printed_registers;
use crate::registers::{after_list, after_log};
use crate::request::{
    Answer, Answered, Answering, Comparison, Found, ReportKind, Request, Required,
};
use crate::sessions::checkpoint_in;
use agent_inputs::{AgentFiles, RunFault, STANDARD_INPUT, not_read};
use attestations::{ExpectedValues, SignatureState};
use boot_verdict::{
    AggregateRule, Checkpoint, Report, Requirement, all_found, locate_from, required_found,
    verify_list_from,
};
use byte_streams::{Failed, SliceSource, Source};
use growing_lists::{Boot, SavedState};
use known_files::{KnownFiles, UnknownEntries, has_no_unknown};
use pcr_values::{Expected, SelectionFault, read_expected};
use std::alloc::Global;
use tpm_quotes::Quote;

/// The answer to what is asked for. What is compared is read in this order (only in part by the clauses): what is required; the log, which
/// is loaded; the expected registers; the checkpoint; the texts of known files; and then the list is opened, and replayed as it is read,
/// without loading it.
pub fn answer_request<F: AgentFiles>(
    alloc: Global,
    files: &mut F,
    request: Request<'_>,
) -> Result<Answered, RunFault>
    ensures answer { IfOk result (IsAnswer (F.inputs files.old) (requested_of request.entry)) }
    ensures fault { IfErr result (IsRefusal (F.inputs files.old) (requested_of request.entry)) }
    ensures inputs { F.inputs files.new ≡ F.inputs files.old }
    ensures replaced { F.replaced files.new ≡ F.replaced files.old }
{
    match request {
        Request::Comparison(request) => compare(alloc, files, request),
        Request::Attestation(request) => attest(alloc, files, request),
        Request::LogRegisters { log } => after_log(alloc, files, log),
        Request::ListRegisters { list } => after_list(alloc, files, list),
        Request::Expected { printed, registers } => {
            printed_registers(alloc, files, printed, registers)
        },
        Request::Key {
            area,
            purpose,
            part,
        } => told_of_key(alloc, files, area, purpose, part),
    }
}

// What comes of what is compared.
#[inline(never)]
fn compare<F: AgentFiles>(alloc: Global, files: &mut F, request: Comparison<'_>) -> Answering
    ensures answer { IfOk result (IsComparison (F.inputs files.old) (compared_of request.entry)) }
    ensures fault { IfErr result (IsNoComparison (F.inputs files.old) (compared_of request.entry)) }
    ensures inputs { F.inputs files.new ≡ F.inputs files.old }
    ensures replaced { F.replaced files.new ≡ F.replaced files.old }
{
    if takes_known(request) {
        compare_as_asked(alloc, files, request)
    } else {
        Err(RunFault::Usage)
    }
}

// Whether known files can be asked for so.
fn takes_known(request: Comparison<'_>) -> bool
    ensures { result ≡ takes_known (compared_of request.entry).judgement (compared_of request.entry).required (compared_of request.entry).known }
{
    match (request.known, request.wanted, request.required) {
        ([], _, _) => true,
        (_, ReportKind::Positions { .. }, _) => false,
        (_, _, Required::These(_)) => true,
        (_, _, Required::Nothing | Required::Any) => false,
    }
}

// What comes of what is compared, where known files are asked for as they can be, or are not.
fn compare_as_asked<F: AgentFiles>(
    alloc: Global,
    files: &mut F,
    request: Comparison<'_>,
) -> Answering
    requires { takes_known (compared_of request).judgement (compared_of request).required (compared_of request).known ≡ true }
    ensures answer { IfOk result (IsComparison (F.inputs files.old) (compared_of request.entry)) }
    ensures fault { IfErr result (IsNotCompared (F.inputs files.old) (compared_of request.entry)) }
    ensures inputs { F.inputs files.new ≡ F.inputs files.old }
    ensures replaced { F.replaced files.new ≡ F.replaced files.old }
{
    let requirement = required_in(alloc, request.required)?;
    let evidence = evidence_of(alloc, files, request, requirement)?;
    let found = evidence.find(alloc, files, request)?;
    Ok(answered_with(request.required, evidence.requirement, found, None))
}

// What has to be among the expected registers, if a text spells it.
fn required_in(alloc: Global, required: Required<'_>) -> Result<Option<Requirement>, RunFault>
    ensures required { IfOk result (IsRequired (requires_of required.entry)) }
    ensures fault { IfErr result (IsNotRequired (requires_of required.entry)) }
{
    match required {
        Required::Nothing | Required::Any => Ok(None),
        Required::These(text) => match Requirement::from_text(alloc, text) {
            Ok(requirement) => Ok(Some(requirement)),
            Err(SelectionFault::Malformed { .. } | SelectionFault::LacksPcr10) => Err(
                RunFault::Usage,
            ),
            Err(SelectionFault::Memory) => Err(RunFault::Memory),
        },
    }
}

/// What a list is judged with.
#[derive(Drop)]
pub(crate) struct Evidence<'a> {
    /// The registers that are required, if a text spells some.
    pub requirement: Option<Requirement>,
    /// The log; no bytes without one.
    pub log: Held<'a>,
    /// The expected registers; beside a quote those that count.
    pub expected: Vec<Expected>,
    /// The quote, if there is one.
    pub quote: Option<&'a Quote<'a>>,
    /// What is known of the signature of the quote's message.
    pub signature: SignatureState,
    /// What came of the values of expected registers beside the quote.
    pub values: ExpectedValues,
    /// By which rule the boot aggregate is taken.
    pub rule: AggregateRule,
    /// The checkpoint to go on from, if there is one.
    pub checkpoint: Option<Checkpoint>,
    /// The files that are known, if files have to be known.
    pub known_files: Option<KnownFiles>,
}

// Loads the log, then loads and reads the expected registers, then the checkpoint, and then the texts of known files.
fn evidence_of<'a, F: AgentFiles>(
    alloc: Global,
    files: &mut F,
    request: Comparison<'a>,
    requirement: Option<Requirement>,
) -> Result<Evidence<'a>, RunFault>
    requires { IsRequired (requires_of request.required) requirement }
    ensures evidence { IfOk result (λ evidence. IsEvidence (F.inputs files.old) (compared_of request.entry) (evidence_of evidence)) }
    ensures fault { IfErr result (HasNoEvidence (F.inputs files.old) (compared_of request.entry)) }
    ensures inputs { F.inputs files.new ≡ F.inputs files.old }
    ensures replaced { F.replaced files.new ≡ F.replaced files.old }
{
    let log = log_in(alloc, files, request.wanted)?;
    let text = load_at(alloc, files, request.expected)?;
    let expected = read_expected(alloc, text.bytes())?;
    let state = state_in(alloc, files, request.wanted)?;
    let known_files = known_in(alloc, files, request.known)?;
    Ok(Evidence {
        requirement,
        log,
        expected,
        quote: None,
        signature: SignatureState::NotChecked,
        values: ExpectedValues::NotGiven,
        rule: rule_by(request.required, request.old_kernel),
        checkpoint: checkpoint_of(state),
        known_files,
    })
}

// By which rule the boot aggregate is taken where this has to be among the expected registers: only beside a text of them an entry of any template
// is, and an older kernel's aggregate, if that is asked for.
fn rule_by(required: Required<'_>, old_kernel: bool) -> AggregateRule
    ensures { result ≡ rule_by (requires_of required.entry) old_kernel }
{
    match required {
        Required::Nothing | Required::Any => AggregateRule::PLAIN,
        Required::These(_) => AggregateRule {
            wide: true,
            old_kernel,
        },
    }
}

// The bytes of the log, if there is one.
fn log_in<'a, F: AgentFiles>(
    alloc: Global,
    files: &mut F,
    wanted: ReportKind<'a>,
) -> Result<Held<'a>, RunFault>
    ensures log { IfOk result (λ log. MatchOption (log_of (judgement_of wanted.entry)) (held_bytes log ≡ [])
        (λ place. Holds (F.inputs files.old) place (held_bytes log))) }
    ensures fault { IfErr result (λ fault. IsSomeAnd (log_of (judgement_of wanted.entry)) (λ place. IsInputFault (F.inputs files.old) place fault)) }
    ensures inputs { F.inputs files.new ≡ F.inputs files.old }
    ensures replaced { F.replaced files.new ≡ F.replaced files.old }
{
    match wanted {
        ReportKind::Verdict { log, .. } => load_at(alloc, files, log),
        ReportKind::WholeVerdict { log } => load_at(alloc, files, log),
        ReportKind::Positions { log } => load_at(alloc, files, log),
        ReportKind::ListVerdict => Ok(Held::Bytes(&[])),
    }
}

/// The checkpoint to go on from, if there is one.
pub(crate) fn checkpoint_of(state: Option<SavedState>) -> Option<Checkpoint>
    ensures { result ≡ checkpoint_of state }
{
    match state {
        None => None,
        Some(state) => Some(state.checkpoint),
    }
}

/// The state to go on from, if there is one.
pub(crate) fn state_in<F: AgentFiles>(
    alloc: Global,
    files: &mut F,
    wanted: ReportKind<'_>,
) -> Result<Option<SavedState>, RunFault>
    ensures state { IfOk result (IsResumedState (F.inputs files.old) (resume_of (judgement_of wanted.entry))) }
    ensures fault { IfErr result (λ fault. IsSomeAnd (resume_of (judgement_of wanted.entry))
        (λ place. IsInputFault (F.inputs files.old) place fault ⊎ OfInput (F.inputs files.old) place (λ text. IsNoCheckpoint text fault))) }
    ensures inputs { F.inputs files.new ≡ F.inputs files.old }
    ensures replaced { F.replaced files.new ≡ F.replaced files.old }
{
    match wanted {
        ReportKind::Verdict {
            resume: Some(resume),
            ..
        } => {
            let text = load_at(alloc, files, resume)?;
            Ok(Some(checkpoint_in(alloc, text.bytes())?))
        }
        _ => Ok(None),
    }
}

/// What was found in a list, or why nothing was.
pub(crate) type Finding = Result<Found, RunFault>;

impl Evidence<'_> {
    /// Opens the list, and finds what is asked for in it.
    pub(crate) fn find<F: AgentFiles>(
        &self,
        alloc: Global,
        files: &mut F,
        request: Comparison<'_>,
    ) -> Finding
        ensures found { Finds (F.inputs files.old) (judgement_of request.entry.wanted) (location_of request.entry.list) (evidence_of self.now) result }
        ensures inputs { F.inputs files.new ≡ F.inputs files.old }
        ensures replaced { F.replaced files.new ≡ F.replaced files.old }
    {
        match request.list {
            Input::Bytes(list) => self.find_from(alloc, &mut SliceSource::new(list), request),
            Input::File(name) => match files.source(Some(name)) {
                Ok(mut source) => self.find_from(alloc, &mut source, request),
                Err(Failed) => Err(not_read(alloc, name)),
            },
            Input::StandardInput => match files.source(None) {
                Ok(mut source) => self.find_from(alloc, &mut source, request),
                Err(Failed) => Err(not_read(alloc, STANDARD_INPUT)),
            },
            Input::HcrtmLog(_) => self.find_loaded(alloc, files, request),
        }
    }

    // Loads the list, and finds what is asked for in it.
    #[inline(never)]
    fn find_loaded<F: AgentFiles>(
        &self,
        alloc: Global,
        files: &mut F,
        request: Comparison<'_>,
    ) -> Finding
        ensures found { MatchResult result
            (λ found. IsJudged (F.inputs files.old) (judgement_of request.entry.wanted) (location_of request.entry.list) (evidence_of self.now)
            found.answer found.next found.unknown)
            (λ fault. IsInputFault (F.inputs files.old) (location_of request.entry.list) fault
            ⊎ IsNotFound (F.inputs files.old) (judgement_of request.entry.wanted) (location_of request.entry.list) (evidence_of self.now) fault) }
        ensures inputs { F.inputs files.new ≡ F.inputs files.old }
        ensures replaced { F.replaced files.new ≡ F.replaced files.old }
    {
        match load_at(alloc, files, request.list) {
            Ok(held) => self.find_from(alloc, &mut SliceSource::new(held.bytes()), request),
            Err(fault) => Err(fault),
        }
    }

    // Finds what is asked for in the list of this source.
    fn find_from<R: Source>(
        &self,
        alloc: Global,
        source: &mut R,
        request: Comparison<'_>,
    ) -> Finding
        ensures { FindsFrom (judgement_of request.entry.wanted) (location_of request.entry.list) (evidence_of self.now)
            (R.state source.old) (R.state source.new) result }
    {
        let list = request.list;
        match request.wanted {
            ReportKind::Verdict { scope, .. } => self.verdict_from(alloc, source, list, scope),
            ReportKind::WholeVerdict { .. } => self.whole_verdict_from(alloc, source, list),
            ReportKind::Positions { .. } => {
                let log = self.log.bytes();
                match locate_from(alloc, log, source, limit_of(list), &self.expected) {
                    Ok(positions) => Ok(Found {
                        answer: Answer::Positions(positions),
                        next: None,
                        unknown: None,
                    }),
                    Err(fault) => Err(refusal(alloc, list, fault)),
                }
            }
            ReportKind::ListVerdict => self.list_verdict_from(alloc, source, list),
        }
    }

    // The verdict on the list of this source alone.
    #[inline(never)]
    fn list_verdict_from<R: Source>(
        &self,
        alloc: Global,
        source: &mut R,
        list: Input<'_>,
    ) -> Finding
        ensures { FindsFrom ListVerdictOf (location_of list.entry) (evidence_of self.now) (R.state source.old) (R.state source.new) result }
    {
        let watch = UnknownEntries::new(alloc, self.known_files.as_ref(), 0);
        match verify_list_from(alloc, source, limit_of(list), &self.expected, watch) {
            Ok((report, watch)) => {
                let unknown = watch.within(report.entries)?;
                Ok(Found {
                    answer: Answer::ListReport(report),
                    next: None,
                    unknown,
                })
            }
            Err(fault) => Err(refusal(alloc, list, fault)),
        }
    }
}

/// What was found, and what it is worth where this has to be among the expected registers, of which the text spells these. If all is well,
/// another goes on from the checkpoint, if there is one, in this boot.
pub(crate) fn answered_with(
    required: Required<'_>,
    requirement: Option<Requirement>,
    found: Found,
    boot: Option<Boot>,
) -> Answered
    ensures answer { result.answer ≡ found.answer }
    ensures requirement { result.requirement ≡ requirement }
    ensures unknown { result.unknown ≡ found.unknown }
    ensures success { result.is_success ≡ is_success (requires_of required.entry) requirement found.unknown found.answer }
    ensures next { result.next ≡ (if result.is_success then state_after boot found.next else None) }
{
    let Found {
        answer,
        next,
        unknown,
    } = found;
    let is_success = has_no_unknown(unknown.as_ref())
        && is_good(required, requirement.as_ref(), &answer);
    Answered {
        answer,
        requirement,
        unknown,
        is_success,
        next: if is_success {
            state_after(boot, next)
        } else {
            None
        },
    }
}

// The checkpoint, if there is one, with this boot.
fn state_after(boot: Option<Boot>, next: Option<Checkpoint>) -> Option<SavedState>
    ensures { result ≡ state_after boot next }
{
    match next {
        None => None,
        Some(checkpoint) => Some(SavedState { checkpoint, boot }),
    }
}

// Whether the answer is good where this has to be among the expected registers, of which the text spells these; so is an answer that
// compares nothing.
fn is_good(required: Required<'_>, ranges: Option<&Requirement>, answer: &Answer) -> bool
    ensures { result ≡ is_good (requires_of required.entry) (option_map (λ ranges. ranges.now) ranges.entry) answer.now }
{
    match (answer, ranges) {
        (Answer::Report(report), None) => is_match(required, report),
        (Answer::Report(report), Some(requirement)) => report.meets(requirement),
        (Answer::Prefix(prefix), None) => prefix.report.matches(),
        (Answer::Prefix(prefix), Some(requirement)) => prefix.report.meets(requirement),
        (Answer::Positions(positions), None) => all_found(positions),
        (Answer::Positions(positions), Some(requirement)) => required_found(positions, requirement),
        (Answer::ListReport(report), None) => report.matches(),
        (Answer::ListReport(report), Some(requirement)) => report.meets(requirement),
        (Answer::Attestation(report), _) => report.signature.is_signed() && report.is_attested(),
        (Answer::Registers(_) | Answer::Expected(_) | Answer::Key { .. }, _) => true,
    }
}

// Whether the verdict is `match` where no text spells what is required.
fn is_match(required: Required<'_>, report: &Report) -> bool
    ensures { result ≡ is_match (requires_of required.entry) (verdict_of report.now) }
{
    match required {
        Required::Nothing => report.matches(),
        Required::Any | Required::These(_) => report.matches() && !report.rows.is_empty(),
    }
}

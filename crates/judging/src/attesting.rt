//! The judgement on a log and a list by a quote.

ghost use Rattle.std.specs.Prelude.{◌≡◌, ◌↔◌, ◌⊎◌, ℕ, List, None, option_map, IfOk, IfErr, IfSome, IsTrue};
ghost use Rattle.pcr_banks.specs.Names.{value_at};
ghost use Rattle.pcr_values.specs.declared.selection.BankRange.{BankRange};
ghost use Rattle.pcr_values.specs.Names.{BeginsWithBankRange};
ghost use Rattle.boot_verdict.specs.Names.{IsRequirementText};
ghost use Rattle.tpm_quotes.specs.Spelling.{IsQuote, quote_of};
ghost use Rattle.attestations.specs.declared.policy.QuoteRefusal.{QuoteRefusal};
ghost use Rattle.attestations.specs.Attesting.{IsQuoteRefusal};
ghost use Rattle.attestations.specs.Judging.{quote_refusal};
ghost use Rattle.attestations.specs.Policies.{terms_of};
ghost use Rattle.attestations.specs.Reports.{attest_verdict_of};
ghost use Rattle.agent_inputs.specs.declared.fault.RunFault.TheVariants as runs;
ghost use Rattle.judging.specs.Answering.{AreCounted, AreTaken, IsAskedFor, IsAttestation, IsResumedState, IsNoAttestation, IsNotJudgedBy, IsNoResumedState, IsNotStated, IsOfQuote, told_by};
ghost use Rattle.judging.specs.Requests.{attested_of, judgement_of, location_of, resume_of, verdict_asked};

use crate::answers::{Evidence, answered_with, checkpoint_of, state_in};
use crate::inputs::{Input, known_in, load_at};
use crate::request::{
    Answering, AttestRequest, Comparison, ReportKind, Required, ScopedReport, verdict_wanted,
};
use crate::signing::{message_in, vouch_for};
use agent_inputs::{AgentFiles, NotResumed, RunFault};
use attestations::{
    AttestReport, ExpectedValues, Policy, Quoted, SignatureState, Whole, keep_confirmed, quote_for,
};
use boot_verdict::{AggregateRule, Requirement};
use growing_lists::{Boot, SavedState};
use pcr_banks::Banks;
use pcr_values::{Expected, SelectionFault, read_expected};
use std::alloc::Global;
use tpm_quotes::Quote;

/// What comes of a log, a list and a quote. It is read in this order (only in part by the clauses: not that the log comes first of its inputs):
/// what is required; the quote's message; the key and the signature, if it is verified here; the log, which is loaded; the expected registers, if
/// there are such; the checkpoint, and whether it is of the quote's boot; the texts of known files; and then the list is opened, and replayed as it
/// is read, without loading it.
pub(crate) fn attest<F: AgentFiles>(
    alloc: Global,
    files: &mut F,
    request: AttestRequest<'_>,
) -> Answering
    ensures answer { IfOk result (IsAttestation (F.inputs files.old) (attested_of request.entry)) }
    ensures fault { IfErr result (IsNoAttestation (F.inputs files.old) (attested_of request.entry)) }
    ensures inputs { F.inputs files.new ≡ F.inputs files.old }
    ensures replaced { F.replaced files.new ≡ F.replaced files.old }
{
    let required = required_by(alloc, request.required)?;
    let policy = Policy {
        nonce: request.nonce,
        required: &required,
        takes_sha1: request.takes_sha1,
        rule: AggregateRule {
            wide: true,
            old_kernel: request.old_kernel,
        },
    };
    if policy.fault().is_some() {
        return Err(RunFault::Usage);
    }
    let message = message_in(alloc, files, request)?;
    let bytes = message.bytes();
    let signature = vouch_for(alloc, files, bytes, request.signing)?;
    let quote = asked_quote(bytes, &policy)?;
    answer_by_quote(alloc, files, request, &quote, signature)
}

// The registers that must be quoted.
fn required_by(alloc: Global, text: &[u8]) -> Result<Requirement, RunFault>
    ensures found { IfOk result (IsRequirementText text.now) }
    ensures fault { IfErr result (λ fault. ((fault ≡ runs.Usage) × ((ranges : List BankRange) → IsRequirementText text.now ranges → ⊥))
        ⊎ ((fault ≡ runs.Memory) × BeginsWithBankRange text.now)) }
{
    match Requirement::from_text(alloc, text) {
        Ok(requirement) => Ok(requirement),
        Err(SelectionFault::Malformed { .. } | SelectionFault::LacksPcr10) => Err(RunFault::Usage),
        Err(SelectionFault::Memory) => Err(RunFault::Memory),
    }
}

// The quote that is asked for, which this message is.
fn asked_quote<'a>(message: &'a [u8], policy: &Policy<'_>) -> Result<Quote<'a>, RunFault>
    ensures found { IfOk result (λ quote. IsQuote message.now (quote_of quote)) }
    ensures asked { IfOk result (λ quote. quote_refusal (quote_of quote) (terms_of policy.now) ≡ None) }
    ensures fault { IfErr result (λ fault. (first : QuoteRefusal) × IsQuoteRefusal message.now (terms_of policy.now) first × (fault ≡ runs.Quote first)) }
{
    match quote_for(message, policy) {
        Ok(quote) => Ok(quote),
        Err(refusal) => Err(RunFault::Quote(refusal)),
    }
}

// What comes of a log and a list by this quote.
#[inline(never)]
fn answer_by_quote<F: AgentFiles>(
    alloc: Global,
    files: &mut F,
    request: AttestRequest<'_>,
    quote: &Quote<'_>,
    signature: SignatureState,
) -> Answering
    ensures answer { IfOk result (λ given. (ranges : List BankRange) → AreTaken (attested_of request.entry) ranges
        → (message : List ℕ) → IsAskedFor (F.inputs files.old) (attested_of request.entry) ranges message signature (quote_of quote.now)
        → IsAttestation (F.inputs files.old) (attested_of request.entry) given) }
    ensures fault { IfErr result (IsNotJudgedBy (F.inputs files.old) (attested_of request.entry) (quote_of quote.now) signature) }
    ensures inputs { F.inputs files.new ≡ F.inputs files.old }
    ensures replaced { F.replaced files.new ≡ F.replaced files.old }
{
    let comparison = comparison_of(request);
    let log = load_at(alloc, files, request.log)?;
    let (values, expected) = counted_in(alloc, files, request.expected, quote)?;
    let state = state_by(alloc, files, comparison.wanted, quote)?;
    let known_files = known_in(alloc, files, request.known)?;
    let evidence = Evidence {
        requirement: None,
        log,
        expected,
        quote: Some(quote),
        signature,
        values,
        rule: AggregateRule {
            wide: true,
            old_kernel: request.old_kernel,
        },
        checkpoint: checkpoint_of(state),
        known_files,
    };
    let found = evidence.find(alloc, files, comparison)?;
    let boot = Boot::of(quote);
    Ok(answered_with(Required::Nothing, None, found, Some(boot)))
}

// What came of the values of expected registers, and those that count beside this quote.
#[inline(never)]
fn counted_in<F: AgentFiles>(
    alloc: Global,
    files: &mut F,
    input: Option<Input<'_>>,
    quote: &Quote<'_>,
) -> Result<(ExpectedValues, Vec<Expected>), RunFault>
    ensures counted { IfOk result (λ found. AreCounted (F.inputs files.old) (option_map location_of input.entry) (quote_of quote.now)
        found.0 found.1.items) }
    ensures fault { IfErr result (IsNotStated (F.inputs files.old) (option_map location_of input.entry)) }
    ensures inputs { F.inputs files.new ≡ F.inputs files.old }
    ensures replaced { F.replaced files.new ≡ F.replaced files.old }
{
    let Some(input) = input else {
        return Ok((ExpectedValues::NotGiven, Vec::new(alloc)));
    };
    let text = load_at(alloc, files, input)?;
    let mut expected = read_expected(alloc, text.bytes())?;
    let values = keep_confirmed(quote, &mut expected);
    Ok((values, expected))
}

// The state to go on from, if there is one, which must be of the boot of this quote.
#[inline(never)]
fn state_by<F: AgentFiles>(
    alloc: Global,
    files: &mut F,
    wanted: ReportKind<'_>,
    quote: &Quote<'_>,
) -> Result<Option<SavedState>, RunFault>
    ensures state { IfOk result (IsResumedState (F.inputs files.old) (resume_of (judgement_of wanted.entry))) }
    ensures boot { IfOk result (λ state. IfSome state (IsOfQuote (quote_of quote.now))) }
    ensures fault { IfErr result (IsNoResumedState (F.inputs files.old) (quote_of quote.now) (resume_of (judgement_of wanted.entry))) }
    ensures inputs { F.inputs files.new ≡ F.inputs files.old }
    ensures replaced { F.replaced files.new ≡ F.replaced files.old }
{
    let state = state_in(alloc, files, wanted)?;
    if is_of_quote(state, quote) {
        Ok(state)
    } else {
        Err(RunFault::Checkpoint(NotResumed::OtherCounts))
    }
}

// Whether the state, if there is one, is of the boot of this quote.
fn is_of_quote(state: Option<SavedState>, quote: &Quote<'_>) -> bool
    ensures { IsTrue result ↔ IfSome state (IsOfQuote (quote_of quote.now)) }
{
    match state {
        None => true,
        Some(state) => state.is_of(Boot::of(quote)),
    }
}

// The verdict on log and list, as it is asked for where registers are expected.
fn comparison_of(request: AttestRequest<'_>) -> Comparison<'_>
    ensures wanted { judgement_of result.wanted ≡ verdict_asked (attested_of request.entry) }
    ensures resume { resume_of (judgement_of result.wanted) ≡ (attested_of request.entry).resume }
    ensures list { location_of result.list ≡ (attested_of request.entry).list }
{
    Comparison {
        wanted: verdict_wanted(request.log, request.scope, request.resume, request.saves),
        list: request.list,
        expected: Input::Bytes(&[]),
        required: Required::Nothing,
        old_kernel: false,
        known: &[],
    }
}

/// The report by this quote on what was judged, after which these are the registers. Fails only for want of memory.
pub(crate) fn report_on(
    alloc: Global,
    judged: ScopedReport,
    registers: &Banks,
    quote: &Quote<'_>,
    signature: SignatureState,
    values: ExpectedValues,
) -> Result<AttestReport, RunFault>
    ensures report { IfOk result (λ report. attest_verdict_of report ≡ told_by (quote_of quote.now) signature values (value_at registers.now) judged) }
    ensures fault { IfErr result (λ fault. fault ≡ runs.Memory) }
{
    let quoted = Quoted::of(alloc, quote)?;
    let (report, prefix) = match judged {
        ScopedReport::Whole(report) => (report, None),
        ScopedReport::Prefix(prefix) => {
            let whole = Whole {
                entries: prefix.entries,
                unconfirmed: prefix.unconfirmed,
            };
            (prefix.report, Some(whole))
        }
    };
    Ok(AttestReport {
        quoted,
        report,
        prefix,
        expected: values,
        is_quoted: quote.is_of(registers),
        signature,
    })
}

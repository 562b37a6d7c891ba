//! The judgement, and why log and list are not what the quote is of.

ghost use Rattle.std.specs.Prelude.{◌≡◌, List, ℕ, None, Ok, IsOk, IfOk, IfErr};
ghost use Rattle.tpm_quotes.specs.Spelling.{IsQuote, TpmQuote, quote_of};
ghost use Rattle.boot_log.specs.declared.header.DeclaredAlgorithm.{DeclaredAlgorithm};
ghost use Rattle.boot_log.specs.Names.{IsFirmware, IsLog, LogEvent, algs_in, log_bytes};
ghost use Rattle.ima_list.specs.Names.{AreGenuine, IsReading, ListEntry};
ghost use Rattle.boot_verdict.specs.Names.{IsCheckpoint, fault_of_log};
ghost use Rattle.attestations.specs.declared.attested.AttestFault.TheVariants.{Boot, Quote as NotTaken};
ghost use Rattle.attestations.specs.Policies.{policy_fault, terms_of};
ghost use Rattle.attestations.specs.Judging.{attestation_of, attestation_on, cause_against, cause_in_extends, cause_in_registers, quote_refusal};
ghost use Rattle.attestations.specs.Attesting.{IsAttested, IsAttestFault};
ghost use Rattle.attestations.specs.Kept.{HaveSame};

use crate::kept::banks_for;
use crate::policy::{Policy, PolicyFault, QuoteRefusal, quote_for};
use boot_log::{LogFault, LogView};
use boot_verdict::{
    Aggregate, AggregateRule, Checkpoint, VerifyFault, aggregate_with, first_extending,
};
use pcr_banks::Banks;
use thiserror::Error;
use tpm_quotes::Quote;

/// Why log and list are not what the quote is of: the first of these that holds.
#[derive(Clone, Copy, Debug, PartialEq, Eq, Error)]
pub enum Cause {
    /// An event of the log extends the list's register: the first one.
    #[error("event {event}: it extends register 10")]
    LogExtends {
        /// The event's number, counted from 1.
        event: usize,
    },
    /// An entry of the list extends another register: the first one.
    #[error("entry {entry}: it extends register {register}")]
    ListExtends {
        /// The entry's number, counted from 0.
        entry: usize,
        /// The register.
        register: u32,
    },
    /// The list does not record the boot aggregate of the log's registers.
    #[error("the list does not record the log's boot aggregate")]
    BadAggregate,
    /// The quote is of other values than those to which log and list replay.
    #[error("the quote is of other values than those to which log and list replay")]
    Differs,
}

/// What is known of a log and a list that a quote confirms.
///
/// Of the log it confirms the events of the registers that it selects. The locality is confirmed if register 0 is among them.
#[derive(Drop)]
pub struct AttestedLog<'a> {
    /// How many events the log has after its header.
    pub events: usize,
    /// The locality from which the TPM was started.
    pub locality: u8,
    /// How many entries the list has.
    pub entries: usize,
    /// How the list's boot aggregate is that of the log: [`Aggregate::Old`] only if the policy takes that.
    pub aggregate: Aggregate,
    /// What the quote states.
    pub quote: Quote<'a>,
}

/// Why there is no attestation: the first of these that holds.
#[derive(Clone, Copy, Debug, PartialEq, Eq, Error)]
pub enum AttestFault {
    /// The policy is refused.
    #[error("the policy is refused: {0}")]
    Policy(PolicyFault),
    /// The message is not the quote that is asked for.
    #[error("the quote is refused: {0}")]
    Quote(QuoteRefusal),
    /// The log or the list is refused.
    #[error("{0}")]
    Boot(VerifyFault),
    /// Log and list are not what the quote is of.
    #[error("{0}")]
    Against(Cause),
}

impl From<QuoteRefusal> for AttestFault {
    ghost from_gives = { λ refusal fault. fault ≡ NotTaken refusal };

    fn from(refusal: QuoteRefusal) -> Self {
        AttestFault::Quote(refusal)
    }
}

impl From<LogFault> for AttestFault {
    ghost from_gives = { λ log_fault fault. fault ≡ Boot (fault_of_log log_fault) };

    fn from(fault: LogFault) -> Self {
        AttestFault::Boot(fault.into())
    }
}

impl From<VerifyFault> for AttestFault {
    ghost from_gives = { λ verify_fault fault. fault ≡ Boot verify_fault };

    fn from(fault: VerifyFault) -> Self {
        AttestFault::Boot(fault)
    }
}

/// Judges a firmware log and a measurement list by the message of a quote. The quote must have the verifier's nonce, select what the
/// verifier requires, and be of the values to which log and list replay; and log and list must extend different registers.
///
/// **The caller must have verified the message's signature**, with the machine's attestation key, which must be a restricted one: with other
/// keys, anybody who holds them signs any message.
pub fn attest<'a>(
    log: &[u8],
    list: &[u8],
    message: &'a [u8],
    policy: &Policy<'_>,
) -> Result<AttestedLog<'a>, AttestFault>
    // `Ok` only if all of this holds.
    ensures attested { IfOk result (λ attested. IsAttested log.now list.now message.now (terms_of policy.now) (attestation_of attested)) }
    // Where nothing is refused and no cause is against it, there is an attestation.
    ensures only { (table : List DeclaredAlgorithm) (events : List LogEvent) (entries : List ListEntry) (quote : TpmQuote)
        → policy_fault (terms_of policy.now) ≡ None → IsQuote message.now quote → quote_refusal quote (terms_of policy.now) ≡ None
        → IsLog log.now table events → IsReading list.now (Ok entries) → AreGenuine entries
        → cause_against (terms_of policy.now).rule (algs_in table) events entries quote ≡ None → IsOk result }
    // A fault is the first one.
    ensures fault { IfErr result (IsAttestFault log.now list.now message.now (terms_of policy.now)) }
{
    if let Some(fault) = policy.fault() {
        return Err(AttestFault::Policy(fault));
    }
    let quote = quote_for(message, policy)?;
    let view = LogView::new(log)?;
    let start = view.registers();
    let known = Checkpoint::of_list(banks_for(&start, &quote), list)?;
    match cause_against(&view, &start, &known, &quote, policy.rule) {
        Some(cause) => Err(AttestFault::Against(cause)),
        None => Ok(confirmed(&view, &start, &known, quote, policy.rule)),
    }
}

// What the quote confirms.
fn confirmed<'a>(
    log: &LogView<'_>,
    start: &Banks,
    known: &Checkpoint,
    quote: Quote<'a>,
    rule: AggregateRule,
) -> AttestedLog<'a>
    ensures { (list : List ℕ) (table : List DeclaredAlgorithm) (events : List LogEvent) → IsLog (log_bytes log.now) table events
        → IsFirmware (algs_in table) events start.now → (is : IsCheckpoint list known.now)
        → attestation_of result ≡ attestation_on rule (algs_in table) events is.entries (quote_of quote.entry) }
{
    AttestedLog {
        events: log.count(),
        locality: log.locality(),
        entries: known.entries,
        aggregate: aggregate_with(rule, start, known.recorded, known.told),
        quote,
    }
}

// The first cause against log and list, if there is one. The log leaves the registers `start`; the list is replayed into those that the
// quote asks for.
fn cause_against(
    log: &LogView<'_>,
    start: &Banks,
    known: &Checkpoint,
    quote: &Quote<'_>,
    rule: AggregateRule,
) -> Option<Cause>
    ensures { (list : List ℕ) (table : List DeclaredAlgorithm) (events : List LogEvent) → IsLog (log_bytes log.now) table events
        → IsFirmware (algs_in table) events start.now → HaveSame (quote_of quote.now).selections known.now.before start.now
        → (is : IsCheckpoint list known.now)
        → result ≡ cause_against rule (algs_in table) events is.entries (quote_of quote.now) }
{
    if let Some(cause) = cause_in_extends(log, known) {
        return Some(cause);
    }
    cause_in_registers(start, known, quote, rule)
}

// The first cause in which registers log and list extend, if there is one.
fn cause_in_extends(log: &LogView<'_>, known: &Checkpoint) -> Option<Cause>
    ensures { (list : List ℕ) (table : List DeclaredAlgorithm) (events : List LogEvent) → IsLog (log_bytes log.now) table events
        → (is : IsCheckpoint list known.now) → result ≡ cause_in_extends events is.entries }
{
    if let Some(event) = first_extending(log) {
        return Some(Cause::LogExtends { event });
    }
    let stray = known.stray?;
    Some(Cause::ListExtends {
        entry: stray.entry,
        register: stray.register,
    })
}

// The first cause in the values to which log and list replay, if there is one.
fn cause_in_registers(
    start: &Banks,
    known: &Checkpoint,
    quote: &Quote<'_>,
    rule: AggregateRule,
) -> Option<Cause>
    ensures { (list : List ℕ) (table : List DeclaredAlgorithm) (events : List LogEvent) → IsFirmware (algs_in table) events start.now
        → HaveSame (quote_of quote.now).selections known.now.before start.now → (is : IsCheckpoint list known.now)
        → result ≡ cause_in_registers rule (algs_in table) events is.entries (quote_of quote.now) }
{
    if !aggregate_with(rule, start, known.recorded, known.told).is_good() {
        return Some(Cause::BadAggregate);
    }
    if !quote.is_of(&known.after) {
        return Some(Cause::Differs);
    }
    None
}

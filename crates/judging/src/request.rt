//! Requests on logs, lists, quotes, printed PCR values and keys, and their answers before they are written.

ghost use Rattle.std.specs.Prelude.{◌≡◌, None, option_map};
ghost use Rattle.agent_plans.specs.declared.plan.Scope.TheVariants.{Prefix};
ghost use Rattle.judging.specs.Answering.{alone};
ghost use Rattle.judging.specs.Requests.{VerdictOf, judgement_of, location_of, requested_of, on_prefix, resume_of, verdict_for};

use crate::inputs::Input;
use agent_inputs::RunFault;
use agent_plans::Scope;
use attestations::AttestReport;
use boot_verdict::{Checkpoint, ListReport, Located, PrefixReport, Report, Requirement};
use growing_lists::SavedState;
use known_files::UnknownFiles;
use pcr_banks::Banks;
use pcr_values::Expected;
use tpm_keys::{KeyPart, KeyReport, Purpose};

/// Which report on a list is wanted, with the inputs and options that only it has.
#[derive(Clone, Copy)]
pub enum ReportKind<'a> {
    /// The verdict on a log, a list and expected registers, from which another may go on.
    Verdict {
        /// The firmware event log.
        log: Input<'a>,
        /// Which part of the list the verdict is on.
        scope: Scope,
        /// The checkpoint to go on from, if there is one.
        resume: Option<Input<'a>>,
    },
    /// The verdict on a log, a whole list and expected registers, from which nobody goes on: only the banks that are compared are replayed.
    WholeVerdict {
        /// The firmware event log.
        log: Input<'a>,
    },
    /// Where the expected registers first have their values.
    Positions {
        /// The firmware event log.
        log: Input<'a>,
    },
    /// The verdict on a list alone.
    ListVerdict,
}

/// What has to be among the expected registers.
#[derive(Clone, Copy)]
pub enum Required<'a> {
    /// Nothing: a verdict may be `match` though no register is expected.
    Nothing,
    /// Some register.
    Any,
    /// The registers that this text spells, as `sha256:0-10`.
    These(&'a [u8]),
}

/// A request to compare a list with expected registers.
#[derive(Clone, Copy)]
pub struct Comparison<'a> {
    /// Which report is wanted.
    pub wanted: ReportKind<'a>,
    /// The measurement list; with a checkpoint, what follows it.
    pub list: Input<'a>,
    /// The text of expected registers.
    pub expected: Input<'a>,
    /// What has to be among them.
    pub required: Required<'a>,
    /// Whether the boot aggregate of a kernel before 5.8 is taken: only beside a text of required registers.
    pub old_kernel: bool,
    /// The texts of known files, if files have to be known: only for a verdict, and beside a text of required registers.
    pub known: &'a [Input<'a>],
}

/// What tells that a quote's message is signed by the right key.
#[derive(Clone, Copy)]
pub enum Signing<'a> {
    /// Nothing does: nobody looks at the signature. Without that nothing is attested.
    NotChecked,
    /// The caller has verified the signature.
    ByCaller,
    /// A key and a signature, under which the message is verified before it is read.
    ByKey {
        /// The key: its public area, or PEM.
        key: Input<'a>,
        /// The signature.
        signature: Input<'a>,
    },
}

/// A request for the report on a log and a list by a quote, with what the quote must be.
#[derive(Clone, Copy)]
pub struct AttestRequest<'a> {
    /// The firmware event log.
    pub log: Input<'a>,
    /// The measurement list; with a checkpoint, what follows it.
    pub list: Input<'a>,
    /// The message that the TPM signed.
    pub message: Input<'a>,
    /// The nonce that the verifier gave out for it.
    pub nonce: &'a [u8],
    /// The text of the registers that must be quoted, as `sha256:0-10`.
    pub required: &'a [u8],
    /// Whether a register may be required in the SHA-1 bank alone.
    pub takes_sha1: bool,
    /// Whether the boot aggregate of a kernel before 5.8 is taken.
    pub old_kernel: bool,
    /// What tells that the message is signed by the right key.
    pub signing: Signing<'a>,
    /// The text of expected registers, if there is one: nobody has signed it. If the quote confirms their values, the report has rows of them.
    pub expected: Option<Input<'a>>,
    /// Which part of the list is judged.
    pub scope: Scope,
    /// The checkpoint to go on from, if there is one.
    pub resume: Option<Input<'a>>,
    /// Whether somebody saves where to go on. Otherwise a whole list that goes on from nothing is replayed into the compared banks alone.
    pub saves: bool,
    /// The texts of known files, if files have to be known.
    pub known: &'a [Input<'a>],
}

/// What is asked for, and of which inputs.
#[derive(Clone, Copy)]
pub enum Request<'a> {
    /// Whether a quote is of a log and a list.
    Attestation(AttestRequest<'a>),
    /// What a list is worth against expected registers, or where they have their values.
    Comparison(Comparison<'a>),
    /// The registers after a firmware event log.
    LogRegisters {
        /// The log.
        log: Input<'a>,
    },
    /// The registers that a measurement list alone makes.
    ListRegisters {
        /// The list.
        list: Input<'a>,
    },
    /// The expected registers that `tpm2_pcrread` or `tpm2_checkquote` printed.
    Expected {
        /// The text that one of them printed.
        printed: Input<'a>,
        /// The text that selects those that are wanted, as `sha256:0-10`; none for all of them.
        registers: Option<&'a [u8]>,
    },
    /// What is told of a key of a TPM, if it is one for a purpose.
    Key {
        /// Its public area.
        area: Input<'a>,
        /// What it must be for.
        purpose: Purpose,
        /// What is wanted of it.
        part: KeyPart,
    },
}

/// What asks the same of the shortest prefix of the list that matches; `None` where it is not asked of a whole list.
pub fn on_prefix(request: Request<'_>) -> Option<Request<'_>>
    ensures { option_map requested_of result ≡ on_prefix (requested_of request.entry) }
{
    match request {
        Request::Comparison(
            Comparison {
                wanted: ReportKind::Verdict {
                    log,
                    scope: Scope::Whole,
                    resume,
                },
                list,
                expected,
                required,
                old_kernel,
                known,
            },
        ) => Some(Request::Comparison(Comparison {
            wanted: ReportKind::Verdict {
                log,
                scope: Scope::Prefix,
                resume,
            },
            list,
            expected,
            required,
            old_kernel,
            known,
        })),
        Request::Comparison(
            Comparison {
                wanted: ReportKind::WholeVerdict { log },
                list,
                expected,
                required,
                old_kernel,
                known,
            },
        ) => Some(Request::Comparison(Comparison {
            wanted: prefix_verdict(log),
            list,
            expected,
            required,
            old_kernel,
            known,
        })),
        Request::Attestation(
            asked @ AttestRequest {
                scope: Scope::Whole,
                ..
            },
        ) => Some(Request::Attestation(AttestRequest {
            scope: Scope::Prefix,
            ..asked
        })),
        _ => None,
    }
}

// The verdict on the confirmed prefix of a list of which nothing was taken before.
fn prefix_verdict(log: Input<'_>) -> ReportKind<'_>
    ensures { judgement_of result ≡ VerdictOf (location_of log.entry) Prefix None }
{
    ReportKind::Verdict {
        log,
        scope: Scope::Prefix,
        resume: None,
    }
}

/// The verdict on a log and a list that is wanted, where somebody saves where to go on, or nobody does.
pub(crate) fn verdict_wanted<'a>(
    log: Input<'a>,
    scope: Scope,
    resume: Option<Input<'a>>,
    saves: bool,
) -> ReportKind<'a>
    ensures wanted { judgement_of result ≡ verdict_for saves (location_of log.entry) scope (option_map location_of resume.entry) }
    ensures resume { resume_of (judgement_of result) ≡ option_map location_of resume.entry }
{
    match (saves, scope, resume) {
        (false, Scope::Whole, None) => ReportKind::WholeVerdict { log },
        _ => ReportKind::Verdict { log, scope, resume },
    }
}

/// What is answered.
#[derive(Drop)]
pub enum Answer {
    /// A report on a log and a list by a quote.
    Attestation(AttestReport),
    /// A report on all of a list.
    Report(Report),
    /// A report on its confirmed prefix.
    Prefix(PrefixReport),
    /// Where registers have their values.
    Positions(Vec<Located>),
    /// A report on a list alone.
    ListReport(ListReport),
    /// Registers, of a log or of a list alone.
    Registers(Registers),
    /// Expected registers that a text states, those that are wanted; at least one.
    Expected(Vec<Expected>),
    /// What is told of a key.
    Key {
        /// All that is told.
        report: KeyReport,
        /// What of it is wanted.
        part: KeyPart,
    },
}

/// Registers, and those that they began from.
#[derive(Clone, Copy)]
pub struct Registers {
    /// Before a log's events or a list, at their reset values.
    pub start: Banks,
    /// After it.
    pub now: Banks,
}

/// The report on a list or on its confirmed prefix, before it is an answer.
#[derive(Drop)]
pub(crate) enum ScopedReport {
    /// All of a list.
    Whole(Report),
    /// Its confirmed prefix.
    Prefix(PrefixReport),
}

/// An answer, and what it is worth.
#[derive(Drop)]
pub struct Answered {
    /// The answer.
    pub answer: Answer,
    /// The registers that are required, if a text spells some.
    pub requirement: Option<Requirement>,
    /// The entries that are not known, of those that the answer is on; none without known files.
    pub unknown: Option<UnknownFiles>,
    /// Whether all is well: the verdict is `match`, or each register was located; what has to be among them is; and no entry is unknown.
    pub is_success: bool,
    /// Where to go on, if all is well: the checkpoint of what a verdict is on, and the boot, if a quote confirmed it.
    pub next: Option<SavedState>,
}

/// An answer, or why there is none.
pub(crate) type Answering = Result<Answered, RunFault>;

impl Answered {
    /// An answer that compares nothing: all is well with it.
    pub fn alone(answer: Answer) -> Self
        ensures { result ≡ alone answer }
    {
        Answered {
            answer,
            requirement: None,
            unknown: None,
            is_success: true,
            next: None,
        }
    }
}

/// What was found in a list.
#[derive(Drop)]
pub(crate) struct Found {
    /// The answer.
    pub answer: Answer,
    /// Where to go on, if it is the answer of a verdict from which another may.
    pub next: Option<Checkpoint>,
    /// The entries that are not known; none without known files.
    pub unknown: Option<UnknownFiles>,
}

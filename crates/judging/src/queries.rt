//! What queries of the command line ask of their inputs.

ghost use Rattle.std.specs.Prelude.{◌≡◌, [], map, option_map, IfOk, OnErr};
ghost use Rattle.judging.specs.Requests.{requested_of, location_of, attested_of, compared_of, judgement_of, requires_of, signing_of};
ghost use Rattle.judging.specs.Queries.{attested_with, requested_by, file_of, input_named, log_named, log_place, files_of, known_by, attested_by, compared_by, judgement_by, requires_by, save_by, signing_by, with_known};

use crate::inputs::Input;
use crate::request::{
    AttestRequest, Comparison, ReportKind, Request, Required, Signing, verdict_wanted,
};
use agent_inputs::opened_name;
use agent_plans::{
    AttestOptions, ComparisonKind, ComparisonOptions, LogFile, Query, Quoting, Scope,
    SigningOptions,
};
use std::alloc::{AllocError, Global};

/// The texts of known files that a question names.
pub fn known_inputs(alloc: Global, question: &Query) -> Result<Vec<Input<'_>>, AllocError>
    ensures inputs { IfOk result (λ known. map location_of known.items ≡ known_by question.now) }
    // Memory runs out only where there is one.
    ensures some { OnErr result (known_by question.now ≡ [] → ⊥) }
{
    let mut inputs = Vec::new(alloc);
    for name in known_names(question) {
        inputs.push(Input::File(name))?;
    }
    Ok(inputs)
}

/// The input that an argument names, where `-` is standard input.
pub fn input_named(argument: &str) -> Input<'_>
    ensures { location_of result ≡ input_named argument.now }
{
    match opened_name(argument) {
        None => Input::StandardInput,
        Some(name) => Input::File(name),
    }
}

/// The log in the file of this name: its H-CRTM event tells where the machine started, or it is replayed as it stands.
pub fn log_input(name: &str, hcrtm: bool) -> Input<'_>
    ensures { location_of result ≡ log_place hcrtm name.now }
{
    if hcrtm {
        Input::HcrtmLog(name)
    } else {
        Input::File(name)
    }
}

// The log, in its file.
fn log_named(log: &LogFile) -> Input<'_>
    ensures { location_of result ≡ log_named log.now }
{
    log_input(&log.name, log.hcrtm)
}

// The names of the texts of known files.
fn known_names(question: &Query) -> &[String]
    ensures { map file_of result.now ≡ known_by question.now }
{
    let names = match question {
        Query::Comparison(judge) => &judge.known,
        Query::Attestation(attest) => &attest.known,
        _ => return &[],
    };
    match names {
        None => &[],
        Some(names) => names,
    }
}

/// What a question asks, where these are the texts of known files that it names.
pub fn request_of<'a>(question: &'a Query, known: &'a [Input<'a>]) -> Request<'a>
    ensures asked { map location_of known.now ≡ known_by question.now → requested_of result ≡ requested_by question.now }
    // With other texts of known files it is the same, but for these.
    ensures given { requested_of result ≡ with_known (map location_of known.now) (requested_by question.now) }
{
    match question {
        Query::LogRegisters { log } => Request::LogRegisters {
            log: log_named(log),
        },
        Query::ListRegisters { list } => Request::ListRegisters {
            list: Input::File(list),
        },
        Query::Comparison(judge) => Request::Comparison(comparison_of(judge, known)),
        Query::Attestation(attest) => Request::Attestation(attesting_of(attest, known)),
        Query::Expected { printed, registers } => Request::Expected {
            printed: input_named(printed),
            registers: match registers {
                None => None,
                Some(range) => Some(range.as_bytes()),
            },
        },
        Query::Key {
            area,
            purpose,
            part,
        } => Request::Key {
            area: input_named(area),
            purpose: *purpose,
            part: *part,
        },
    }
}

// The request for the report by a quote that these options ask for, with these texts of known files.
fn attesting_of<'a>(attest: &'a AttestOptions, known: &'a [Input<'a>]) -> AttestRequest<'a>
    ensures asked { map location_of known.now ≡ files_of attest.now.known → attested_of result ≡ attested_by attest.now }
    ensures given { attested_of result ≡ record (attested_by attest.now) { known = map location_of known.now } }
{
    AttestRequest {
        expected: file_of(&attest.expected),
        scope: attest.scope,
        resume: file_of(&attest.resume),
        saves: attest.save.is_some(),
        known,
        ..attesting_by(log_named(&attest.log), &attest.quoting)
    }
}

/// The request for the report by a quote on this log and a whole list.
pub fn attesting_by<'a>(log: Input<'a>, quoting: &'a Quoting) -> AttestRequest<'a>
    ensures { attested_of result ≡ attested_with (location_of log.entry) quoting.now }
{
    AttestRequest {
        log,
        list: Input::File(&quoting.list),
        message: Input::File(&quoting.quote),
        expected: None,
        nonce: &quoting.nonce,
        required: quoting.required.as_bytes(),
        takes_sha1: quoting.takes_sha1,
        old_kernel: quoting.old_kernel,
        signing: signing_of(&quoting.signing),
        scope: Scope::Whole,
        resume: None,
        saves: false,
        known: &[],
    }
}

// What tells that the message is signed.
fn signing_of(signing: &SigningOptions) -> Signing<'_>
    ensures { signing_of result ≡ signing_by signing.now }
{
    match signing {
        SigningOptions::NotChecked => Signing::NotChecked,
        SigningOptions::ByCaller => Signing::ByCaller,
        SigningOptions::ByKey { key, signature } => Signing::ByKey {
            key: Input::File(key),
            signature: Input::File(signature),
        },
    }
}

// The file of this name, if there is one.
fn file_of(name: &Option<String>) -> Option<Input<'_>>
    ensures { option_map location_of result ≡ option_map file_of name.now }
{
    match name {
        None => None,
        Some(name) => Some(Input::File(name)),
    }
}

// The request for the comparison that these options ask for, with these texts of known files.
fn comparison_of<'a>(judge: &'a ComparisonOptions, known: &'a [Input<'a>]) -> Comparison<'a>
    ensures asked { map location_of known.now ≡ files_of judge.now.known → compared_of result ≡ compared_by judge.now }
    ensures given { compared_of result ≡ record (compared_by judge.now) { known = map location_of known.now } }
{
    Comparison {
        wanted: wanted_of(&judge.kind),
        list: Input::File(&judge.list),
        expected: Input::File(&judge.expected),
        required: required_of(judge),
        old_kernel: judge.old_kernel,
        known,
    }
}

// Which report the comparison is to give.
fn wanted_of(kind: &ComparisonKind) -> ReportKind<'_>
    ensures { judgement_of result ≡ judgement_by kind.now }
{
    match kind {
        ComparisonKind::Verdict {
            log,
            scope,
            resume,
            save,
        } => verdict_wanted(log_named(log), *scope, file_of(resume), save.is_some()),
        ComparisonKind::Positions { log } => ReportKind::Positions {
            log: log_named(log),
        },
        ComparisonKind::ListVerdict => ReportKind::ListVerdict,
    }
}

// What has to be among the expected registers.
fn required_of(judge: &ComparisonOptions) -> Required<'_>
    ensures { requires_of result ≡ requires_by judge.now.kind judge.now.required }
{
    match (&judge.required, &judge.kind) {
        (Some(text), _) => Required::These(text.as_bytes()),
        (
            None,
            ComparisonKind::Verdict {
                scope: Scope::Whole,
                resume: None,
                save: None,
                ..
            },
        ) => Required::Nothing,
        (None, ComparisonKind::Verdict { .. }) => Required::Any,
        (None, ComparisonKind::Positions { .. } | ComparisonKind::ListVerdict) => Required::Nothing,
    }
}

/// The name under which the checkpoint is saved, if it is.
pub fn save_of(question: &Query) -> Option<&str>
    ensures { option_map (λ name. name.now) result ≡ save_by question.now }
{
    match question {
        Query::Comparison(
            ComparisonOptions {
                kind: ComparisonKind::Verdict { save, .. },
                ..
            },
        ) => save.as_deref(),
        Query::Attestation(attest) => attest.save.as_deref(),
        _ => None,
    }
}

//! The names of a task's inputs.

ghost use Rattle.std.specs.Prelude.{◌≡◌, option_map};
ghost use Rattle.judging.specs.Requests.{location_of};
ghost use Rattle.hints.specs.Refused.{area_of, as_wanted, converted_of, expected_of, compared_log, judged_log, list_of, log_of, quoting_of, refused_input, replayed_log, text_wanted};

use crate::wrong_input::ExpectedInput;
use agent_inputs::{RunFault, opened_name};
use agent_plans::{
    AttestOptions, ComparisonKind, ComparisonOptions, ConfirmedBy, Measurement, Query, Quoting,
    SigningOptions, Task,
};
use judging::{Input, log_input};
use measure_book::BookFault;
use signed_messages::SignatureRefusal;

/// What standard input is called.
pub(crate) const STANDARD_INPUT: &str = "standard input";

/// The input that has the fault, unless the fault names it itself or is of none.
pub(crate) fn input_of<'a>(task: &'a Task, fault: &RunFault) -> Option<&'a str> {
    match (fault, task) {
        (RunFault::NotHex, _) | (RunFault::Log(_), Task::Registers) => Some(STANDARD_INPUT),
        (
            RunFault::Log(_),
            Task::Events { log, .. }
            | Task::Boot {
                log,
                before: None,
                ..
            },
        ) => Some(named(&log.name)),
        (RunFault::Log(_) | RunFault::Book(BookFault::NoBank), _) => log_of(task),
        (RunFault::ListText(_) | RunFault::LogForm(_), Task::Convert { input, .. }) => Some(named(
            input,
        )),
        (RunFault::List(_) | RunFault::Replay(_), _) => list_of(task),
        (RunFault::Expect(_), Task::Answer(Query::Expected { printed: text, .. }))
        | (
            RunFault::Expect(_),
            Task::Events {
                confirmed_by: ConfirmedBy::Expected(text),
                ..
            }
            | Task::Boot {
                confirmed_by: ConfirmedBy::Expected(text),
                ..
            },
        ) => Some(named(text)),
        (RunFault::Expect(_), _) => expected_of(task),
        (RunFault::Quote(_), _) => Some(quoting_of(task)?.quote.as_str()),
        (RunFault::Signature(refusal), _) => refused_signing(quoting_of(task)?, *refusal),
        (RunFault::Key(_), Task::Answer(Query::Key { area, .. })) => Some(named(area)),
        (RunFault::Key(_), _) => Some(signing_of(quoting_of(task)?)?.0),
        (RunFault::Checkpoint(_), Task::Answer(Query::Attestation(attest))) => {
            attest.resume.as_deref()
        }
        (RunFault::Checkpoint(_), Task::Answer(Query::Comparison(judge))) => match &judge.kind {
            ComparisonKind::Verdict { resume, .. } => resume.as_deref(),
            _ => None,
        },
        (RunFault::Known { file, .. }, _) => known_name(task, *file),
        (RunFault::Outcome { job, .. }, Task::Measure(Measurement { files, .. })) => {
            let name = files.get(*job as usize)?;
            Some(name.as_str())
        }
        _ => None,
    }
}

/// Whether what could not be read is standard input: an argument that may be standard input is `-`.
pub(crate) fn is_standard_input(task: &Task, fault: &RunFault) -> bool {
    let (RunFault::Read(name) | RunFault::TooLong(name)) = fault else {
        return false;
    };
    if opened_name(name).is_some() {
        return false;
    }
    match task {
        Task::Registers | Task::Convert { .. } => true,
        Task::Answer(Query::Expected { .. } | Query::Key { .. }) => true,
        Task::Events {
            log,
            confirmed_by,
            ..
        }
        | Task::Boot {
            log,
            confirmed_by,
            ..
        } => opened_name(&log.name).is_none() || expects_standard_input(confirmed_by),
        _ => false,
    }
}

// Whether the expected registers are standard input.
fn expects_standard_input(confirmed_by: &ConfirmedBy) -> bool {
    match confirmed_by {
        ConfirmedBy::Expected(name) => opened_name(name).is_none(),
        ConfirmedBy::Nothing | ConfirmedBy::Quote(_) => false,
    }
}

// The name of an input that this argument names, where `-` is standard input.
fn named(argument: &str) -> &str {
    match opened_name(argument) {
        Some(name) => name,
        None => STANDARD_INPUT,
    }
}

// The input by which a signature is refused: the key's, if it is of its key alone.
fn refused_signing(quoting: &Quoting, refusal: SignatureRefusal) -> Option<&str> {
    let (key, signature) = signing_of(quoting)?;
    match refusal {
        SignatureRefusal::OtherKey | SignatureRefusal::OtherPem => Some(key),
        _ => Some(signature),
    }
}

/// The names of the key and the signature by which a quote's message is verified, if it is.
pub(crate) fn signing_of(quoting: &Quoting) -> Option<(&str, &str)> {
    match &quoting.signing {
        SigningOptions::ByKey { key, signature } => Some((key.as_str(), signature.as_str())),
        SigningOptions::NotChecked | SigningOptions::ByCaller => None,
    }
}

/// The name of the text of known files of this number, counted from 1.
pub(crate) fn known_name(task: &Task, file: usize) -> Option<&str> {
    let names = match task {
        Task::Answer(Query::Comparison(judge)) => judge.known.as_ref()?,
        Task::Answer(Query::Attestation(attest)) => attest.known.as_ref()?,
        _ => return None,
    };
    let name = names.get(file.checked_sub(1)?)?;
    Some(name.as_str())
}

/// The input that has this fault and what it should be, if it is a file that may be another by mistake.
pub(crate) fn refused_input<'a>(
    task: &'a Task,
    fault: &RunFault,
) -> Option<(&'a str, ExpectedInput)>
    ensures { option_map (λ refused. as_wanted refused.0.now refused.1) result ≡ refused_input fault.now task.now }
{
    match fault {
        RunFault::Log(_) => wanted_at(log_of(task), ExpectedInput::Log),
        RunFault::List(_) | RunFault::Replay(_) => wanted_at(list_of(task), ExpectedInput::List),
        RunFault::ListText(_) => wanted_at(converted_of(task), ExpectedInput::Text),
        RunFault::LogForm(_) => wanted_at(converted_of(task), ExpectedInput::Form),
        RunFault::Expect(_) => wanted_at(expected_of(task), text_wanted(task)),
        RunFault::Key(_) => wanted_at(area_of(task), ExpectedInput::Area),
        _ => None,
    }
}

// That this is wanted of the input of this name, if there is one.
fn wanted_at(name: Option<&str>, wanted: ExpectedInput) -> Option<(&str, ExpectedInput)>
    ensures { option_map (λ refused. as_wanted refused.0.now refused.1) result ≡ option_map (λ name. as_wanted name.now wanted) name.entry }
{
    Some((name?, wanted))
}

// What a text that should state registers has to be.
fn text_wanted(task: &Task) -> ExpectedInput
    ensures { result ≡ text_wanted task.now }
{
    match task {
        Task::Answer(Query::Expected { .. }) => ExpectedInput::Printed,
        _ => ExpectedInput::Expected,
    }
}

/// The log of a task in a file, unless there is another. Standard input is none.
pub(crate) fn log_of(task: &Task) -> Option<&str>
    ensures { option_map (λ name. name.now) result ≡ log_of task.now }
{
    match task {
        Task::Measure(Measurement { log, .. })
        | Task::Answer(Query::LogRegisters { log })
        | Task::Answer(Query::Attestation(AttestOptions { log, .. })) => Some(log.name.as_str()),
        Task::Events { log, .. }
        | Task::Boot {
            log,
            before: None,
            ..
        } => opened_name(&log.name),
        Task::Answer(Query::Comparison(judge)) => compared_log(&judge.kind),
        _ => None,
    }
}

// The log of what is judged.
fn compared_log(kind: &ComparisonKind) -> Option<&str>
    ensures { option_map (λ name. name.now) result ≡ compared_log kind.now }
{
    match kind {
        ComparisonKind::Verdict { log, .. } | ComparisonKind::Positions { log } => Some(
            log.name.as_str(),
        ),
        ComparisonKind::ListVerdict => None,
    }
}

/// The log that a task judges with a list, as it is replayed.
pub(crate) fn replayed_log(task: &Task) -> Option<Input<'_>>
    ensures { option_map location_of result ≡ replayed_log task.now }
{
    match task {
        Task::Answer(Query::Attestation(AttestOptions { log, .. })) => Some(log_input(
            &log.name, log.hcrtm,
        )),
        Task::Answer(Query::Comparison(judge)) => judged_log(&judge.kind),
        _ => None,
    }
}

// The log of what is judged, as it is replayed.
fn judged_log(kind: &ComparisonKind) -> Option<Input<'_>>
    ensures { option_map location_of result ≡ judged_log kind.now }
{
    match kind {
        ComparisonKind::Verdict { log, .. } | ComparisonKind::Positions { log } => Some(log_input(
            &log.name, log.hcrtm,
        )),
        ComparisonKind::ListVerdict => None,
    }
}

// The file that a task converts. Standard input is none.
fn converted_of(task: &Task) -> Option<&str>
    ensures { option_map (λ name. name.now) result ≡ converted_of task.now }
{
    match task {
        Task::Convert { input, .. } => opened_name(input),
        _ => None,
    }
}

/// The measurement list of a task.
pub(crate) fn list_of(task: &Task) -> Option<&str>
    ensures { option_map (λ name. name.now) result ≡ list_of task.now }
{
    match task {
        Task::Answer(Query::Comparison(ComparisonOptions { list, .. }))
        | Task::Answer(Query::ListRegisters { list })
        | Task::Entries { list, .. } => Some(list.as_str()),
        _ => Some(quoting_of(task)?.list.as_str()),
    }
}

// The text of a task that should state registers.
fn expected_of(task: &Task) -> Option<&str>
    ensures { option_map (λ name. name.now) result ≡ expected_of task.now }
{
    match task {
        Task::Answer(Query::Expected { printed, .. }) => opened_name(printed),
        Task::Answer(Query::Comparison(ComparisonOptions { expected, .. })) => Some(
            expected.as_str(),
        ),
        Task::Answer(Query::Attestation(AttestOptions { expected, .. })) => expected.as_deref(),
        Task::Events {
            confirmed_by: ConfirmedBy::Expected(name),
            ..
        }
        | Task::Boot {
            confirmed_by: ConfirmedBy::Expected(name),
            ..
        } => opened_name(name),
        _ => None,
    }
}

// The public area that a task shows. Standard input is none.
fn area_of(task: &Task) -> Option<&str>
    ensures { option_map (λ name. name.now) result ≡ area_of task.now }
{
    match task {
        Task::Answer(Query::Key { area, .. }) => opened_name(area),
        _ => None,
    }
}

/// The quote that a task is of, if it is of one.
pub(crate) fn quoting_of(task: &Task) -> Option<&Quoting>
    ensures { option_map (λ quoting. quoting.now) result ≡ quoting_of task.now }
{
    match task {
        Task::Answer(Query::Attestation(AttestOptions { quoting, .. }))
        | Task::Events {
            confirmed_by: ConfirmedBy::Quote(quoting),
            ..
        }
        | Task::Boot {
            confirmed_by: ConfirmedBy::Quote(quoting),
            ..
        } => Some(quoting),
        _ => None,
    }
}

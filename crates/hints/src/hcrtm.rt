//! Where the machine started, by the H-CRTM's event: the same request with the other reading of its log, and whether less differs then.

ghost use Rattle.std.specs.Prelude.{◌≡◌, option_map, IfNone, IfOk, IfSome};
ghost use Rattle.judging.specs.Requests.{judgement_of, location_of, requested_of};
ghost use Rattle.hints.specs.Hcrtm.{IsByHcrtm, IsNotByHcrtm, differs_less, is_gone, is_wrong, less_of, told_judgement, told_place, with_hcrtm};

use crate::reasons::{Causes, causes_of};
use agent_inputs::{AgentFiles, RunFault};
use boot_verdict::Aggregate;
use judging::{AttestRequest, Comparison, Input, ReportKind, Request, answer_request};
use std::alloc::{AllocError, Global};

/// The causes that are left of these where the H-CRTM's event tells where the machine started, if less differs then.
///
/// Fails if memory runs out.
pub(crate) fn left_by_hcrtm<F: AgentFiles>(
    alloc: Global,
    files: &mut F,
    request: Request<'_>,
    causes: &Causes,
) -> Result<Option<Causes>, AllocError>
    ensures less { IfOk result (λ left. IfSome left (IsByHcrtm (F.inputs files.old) (requested_of request.entry) causes.now)) }
    ensures not_less { IfOk result (λ left. IfNone left (IsNotByHcrtm (F.inputs files.old) (requested_of request.entry) causes.now)) }
    ensures inputs { F.inputs files.new ≡ F.inputs files.old }
    ensures replaced { F.replaced files.new ≡ F.replaced files.old }
{
    let Some(told) = with_hcrtm(request) else {
        return Ok(None);
    };
    match answer_request(alloc, files, told) {
        Ok(given) => Ok(less_of(causes, causes_of(&given))),
        Err(RunFault::Memory) => Err(AllocError),
        Err(_) => Ok(None),
    }
}

// The causes that are left, if less differs for them.
fn less_of(before: &Causes, after: Causes) -> Option<Causes>
    ensures { result ≡ less_of before.now after }
{
    if differs_less(before, &after) {
        Some(after)
    } else {
        None
    }
}

// The same request, where the H-CRTM's event of its log tells where the machine started; none where there is no log in a file, or it does.
fn with_hcrtm(request: Request<'_>) -> Option<Request<'_>>
    ensures { option_map requested_of result ≡ with_hcrtm (requested_of request.entry) }
{
    match request {
        Request::Attestation(asked) => Some(Request::Attestation(AttestRequest {
            log: told_log(asked.log)?,
            ..asked
        })),
        Request::Comparison(asked) => Some(Request::Comparison(Comparison {
            wanted: told_report(asked.wanted)?,
            ..asked
        })),
        _ => None,
    }
}

// The same report with that log.
fn told_report(wanted: ReportKind<'_>) -> Option<ReportKind<'_>>
    ensures { option_map judgement_of result ≡ told_judgement (judgement_of wanted.entry) }
{
    match wanted {
        ReportKind::Verdict { log, scope, resume } => Some(ReportKind::Verdict {
            log: told_log(log)?,
            scope,
            resume,
        }),
        ReportKind::WholeVerdict { log } => Some(ReportKind::WholeVerdict {
            log: told_log(log)?,
        }),
        ReportKind::Positions { log } => Some(ReportKind::Positions {
            log: told_log(log)?,
        }),
        ReportKind::ListVerdict => None,
    }
}

// The same log, with what the event tells.
fn told_log(log: Input<'_>) -> Option<Input<'_>>
    ensures { option_map location_of result ≡ told_place (location_of log.entry) }
{
    match log {
        Input::File(name) => Some(Input::HcrtmLog(name)),
        Input::StandardInput | Input::HcrtmLog(_) | Input::Bytes(_) => None,
    }
}

// Whether a register of the log differs no longer, the quote is of log and list, or the boot aggregate is that of the log.
fn differs_less(before: &Causes, after: &Causes) -> bool
    ensures { result ≡ differs_less before.now after.now }
{
    is_gone(before.log.is_some(), after.log.is_some())
        || is_gone(before.values.is_some(), after.values.is_some())
        || is_gone(is_wrong(before.aggregate), is_wrong(after.aggregate))
}

// Whether a cause was there, and is gone.
fn is_gone(before: bool, after: bool) -> bool
    ensures { result ≡ is_gone before after }
{
    before && !after
}

// Whether the boot aggregate is another.
fn is_wrong(aggregate: Option<Aggregate>) -> bool
    ensures { result ≡ is_wrong aggregate }
{
    matches!(aggregate, Some(Aggregate::Wrong))
}

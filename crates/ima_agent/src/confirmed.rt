//! What tells which data of a log is confirmed, in files that the program's arguments name.

ghost use Rattle.std.specs.Prelude.{◌≡◌, option_map, IfErr, IfOk};
ghost use Rattle.agent_inputs.specs.Loading.{IsInputFault};
ghost use Rattle.agent_inputs.specs.Opening.{IsReplayedOf};
ghost use Rattle.confirming.specs.Matching.{confirmation_of};
ghost use Rattle.ima_agent.specs.Matching.{AreMatched, IsKnownFor, IsLookedThrough, IsNotLookedThrough, IsNotTold, confirmation_by, opened_log};

use agent_inputs::{AgentFiles, RunFault, load_log, opened_name};
use agent_plans::{ConfirmedBy, Form, LogFile, Quoting, SigningOptions};
use boot_log::LogView;
use confirming::{Confirming, Matched, matching_in};
use judging::{Input, attesting_by, input_named};
use std::alloc::Global;

/// What tells which registers match, of the files of these names; `-` is standard input for expected registers.
pub(crate) fn confirming_by(confirmed_by: &ConfirmedBy) -> Confirming<'_>
    ensures { confirmation_of result ≡ confirmation_by confirmed_by.now }
{
    match confirmed_by {
        ConfirmedBy::Nothing => Confirming::Nothing,
        ConfirmedBy::Expected(name) => Confirming::Expected(input_named(name)),
        ConfirmedBy::Quote(quoting) => Confirming::Quote(attesting_by(Input::Bytes(&[]), quoting)),
    }
}

/// What is replayed of this log; `-` is standard input. Where a signature is verified, other logs and all that is read after them have to be
/// regular files.
pub(crate) fn log_for<F: AgentFiles>(
    alloc: Global,
    files: &mut F,
    log: &LogFile,
    confirmed_by: &ConfirmedBy,
) -> Result<Vec<u8>, RunFault>
    ensures all { IfOk result (λ bytes. IsReplayedOf (F.inputs files.old) (opened_log log.now) log.now.hcrtm bytes.items) }
    ensures fault { IfErr result (IsInputFault (F.inputs files.old) (opened_log log.now)) }
    ensures inputs { F.inputs files.new ≡ F.inputs files.old }
    ensures replaced { F.replaced files.new ≡ F.replaced files.old }
{
    if is_by_key(confirmed_by) {
        files.take_only_regular_files();
    }
    load_log(alloc, files, opened_name(&log.name), log.hcrtm)
}

// Whether a signature is verified.
fn is_by_key(confirmed_by: &ConfirmedBy) -> bool {
    matches!(
        confirmed_by,
        ConfirmedBy::Quote(Quoting {
            signing: SigningOptions::ByKey { .. },
            ..
        },)
    )
}

/// The registers that match after the log in these bytes, by what tells it. Where nothing does, the log is only looked through for its first fault,
/// and this where it is told to people.
pub(crate) fn matched_in<F: AgentFiles>(
    alloc: Global,
    files: &mut F,
    log: &[u8],
    form: Form,
    confirmed_by: &ConfirmedBy,
) -> Result<Matched, RunFault>
    ensures matched { IfOk result (λ matched. AreMatched (F.inputs files.old) confirmed_by.now log.now
        (option_map (λ places. places.items) matched.places) matched.status) }
    ensures known { IfOk result (λ _. IsKnownFor form log.now) }
    ensures fault { IfErr result (IsNotTold (F.inputs files.old) form confirmed_by.now log.now) }
    ensures inputs { F.inputs files.new ≡ F.inputs files.old }
    ensures replaced { F.replaced files.new ≡ F.replaced files.old }
{
    look_through(log, form, confirmed_by)?;
    let confirming = confirming_by(confirmed_by);
    matching_in(alloc, files, log, confirming)
}

// Looks the log through for its first fault, if it is told to people and nothing tells which registers match.
fn look_through(log: &[u8], form: Form, confirmed_by: &ConfirmedBy) -> Result<(), RunFault>
    ensures ok { IfOk result (λ _. IsLookedThrough form confirmed_by.now log.now) }
    ensures fault { IfErr result (IsNotLookedThrough form confirmed_by.now log.now) }
{
    match (form, confirmed_by) {
        (Form::Text, ConfirmedBy::Nothing) => {
            let _whole = LogView::new(log)?;
            Ok(())
        }
        (Form::Text, ConfirmedBy::Expected(_) | ConfirmedBy::Quote(_)) | (Form::Json, _) => Ok(()),
    }
}

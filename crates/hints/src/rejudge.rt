//! A second look at inputs that differ or are refused, for what a person may do next. The output is written before, and so is the status decided.

ghost use Rattle.std.specs.Prelude.{◌≡◌, [], true, string_bytes, IfOk, IfSome, IfNone};
ghost use Rattle.std.specs.List.{list_all};
ghost use Rattle.agent_inputs.specs.Loading.{unknown};
ghost use Rattle.judging.specs.Requests.{requested_of};
ghost use Rattle.hints.specs.Escaping.{is_shown};
ghost use Rattle.hints.specs.Refused.{quoting_of};
ghost use Rattle.agent_inputs.specs.declared.fault.RunFault.TheVariants.{Key};
ghost use Rattle.hints.specs.Hints.{IsGrown, IsNotGrown, IsNotSeen, IsSeen};
ghost use Rattle.hints.specs.Saying.{TellsFault, TellsKey, TellsMistake, TellsNext, TellsOf, TellsSeen};

use crate::fault_lines::advice_of;
use crate::hcrtm::left_by_hcrtm;
use crate::hints::{hcrtm_hint, nothing_compared_hint, rendered_hints, rendered_mistake};
use crate::matches::match_hint;
use crate::old_aggregates::is_old_aggregate;
use crate::reasons::{Causes, Grown, causes_of, grown_by};
use crate::reread::{FilesAgain, head_of};
use crate::signing::{key_hint, refusal_hint, unsigned_hint};
use crate::task_inputs::{quoting_of, refused_input};
use crate::wrong_input::mistake_in;
use agent_inputs::{AgentFiles, RunFault};
use agent_plans::{Query, Task};
use judging::{Request, answer_request, known_inputs, on_prefix, request_of};
use run_progress::Failure;
use std::alloc::{AllocError, Global};
use std::rt::Files as FileSystem;
use tpm_keys::KeyFault;

/// What [`hint_from_files`] says of the files of a runtime, if they are regular files: others are not read again.
pub fn hint_on_failure<R: FileSystem>(
    rt: &R,
    alloc: Global,
    failure: Failure<'_>,
) -> Result<String, AllocError>
    ensures told { IfOk result (λ text. TellsNext unknown failure.entry (string_bytes text)) }
    ensures shown { IfOk result (λ text. list_all is_shown (string_bytes text) ≡ true) }
{
    hint_from_files(alloc, &mut FilesAgain::new(rt), failure)
}

/// What a person may do next, in lines: after an answer that something differs, by a second look at the inputs; where nobody looked at a quote's
/// signature, or it or its key is refused; after a match with which nothing was compared, or a register was required in the SHA-1 bank alone; and after
/// another error: that an input is not what it should be, by its first bytes, or what the table of errors advises. No text where nothing helps, or the
/// inputs cannot be read again. It changes no input.
///
/// Fails if memory runs out.
pub fn hint_from_files<F: AgentFiles>(
    alloc: Global,
    files: &mut F,
    failure: Failure<'_>,
) -> Result<String, AllocError>
    ensures told { IfOk result (λ text. TellsNext (F.inputs files.old) failure.entry (string_bytes text)) }
    ensures shown { IfOk result (λ text. list_all is_shown (string_bytes text) ≡ true) }
    ensures replaced { F.replaced files.new ≡ F.replaced files.old }
{
    match failure {
        Failure::Differs { task } => on_difference(alloc, files, task),
        Failure::Unsigned { .. } => unsigned_hint(alloc),
        Failure::Matches { task } => match_hint(alloc, task),
        Failure::NothingCompared | Failure::NothingToCompare { .. } => nothing_compared_hint(alloc),
        Failure::Fault { fault, task } => on_fault(alloc, files, fault, task),
        _ => Ok(String::new(alloc)),
    }
}

// After the answer to a task is that something differs.
fn on_difference<F: AgentFiles>(
    alloc: Global,
    files: &mut F,
    task: &Task,
) -> Result<String, AllocError>
    ensures told { IfOk result (λ text. TellsOf (F.inputs files.old) task.now (string_bytes text)) }
    ensures shown { IfOk result (λ text. list_all is_shown (string_bytes text) ≡ true) }
    ensures replaced { F.replaced files.new ≡ F.replaced files.old }
{
    let Task::Answer(question) = task else {
        return Ok(String::new(alloc));
    };
    let known = known_inputs(alloc, question)?;
    match causes_seen(alloc, files, request_of(question, &known)) {
        None => Ok(String::new(alloc)),
        Some(causes) => on_causes(alloc, files, task, question, &causes),
    }
}

// Where what a question of a task asks for differs for these causes.
fn on_causes<F: AgentFiles>(
    alloc: Global,
    files: &mut F,
    task: &Task,
    question: &Query,
    causes: &Causes,
) -> Result<String, AllocError>
    ensures told { IfOk result (λ text. TellsSeen (F.inputs files.old) task.now question.now causes.now (string_bytes text)) }
    ensures shown { IfOk result (λ text. list_all is_shown (string_bytes text) ≡ true) }
    ensures replaced { F.replaced files.new ≡ F.replaced files.old }
{
    match left_by_hcrtm(alloc, files, request_of(question, &[]), causes)? {
        Some(_left) => hcrtm_hint(alloc),
        None => {
            let grown = grown_seen(alloc, files, request_of(question, &[]));
            let is_old = is_old_aggregate(alloc, files, task)?;
            rendered_hints(alloc, causes, grown, is_old)
        }
    }
}

// Why what is asked for differs, if it still does.
fn causes_seen<F: AgentFiles>(alloc: Global, files: &mut F, request: Request<'_>) -> Option<Causes>
    ensures seen { IfSome result (IsSeen (F.inputs files.old) (requested_of request.entry)) }
    ensures unseen { IfNone result (IsNotSeen (F.inputs files.old) (requested_of request.entry)) }
    ensures inputs { F.inputs files.new ≡ F.inputs files.old }
    ensures replaced { F.replaced files.new ≡ F.replaced files.old }
{
    match answer_request(alloc, files, request) {
        Ok(given) if !given.is_success => Some(causes_of(&given)),
        Ok(_) | Err(_) => None,
    }
}

// Of which prefix of the list the values are, if what is asked for is on a whole list.
fn grown_seen<F: AgentFiles>(alloc: Global, files: &mut F, request: Request<'_>) -> Option<Grown>
    ensures grown { IfSome result (IsGrown (F.inputs files.old) (requested_of request.entry)) }
    ensures not_grown { IfNone result (IsNotGrown (F.inputs files.old) (requested_of request.entry)) }
    ensures inputs { F.inputs files.new ≡ F.inputs files.old }
    ensures replaced { F.replaced files.new ≡ F.replaced files.old }
{
    let request = on_prefix(request)?;
    match answer_request(alloc, files, request) {
        Ok(given) if given.is_success => grown_by(&given),
        Ok(_) | Err(_) => None,
    }
}

// Where an input is refused.
fn on_fault<F: AgentFiles>(
    alloc: Global,
    files: &mut F,
    fault: &RunFault,
    task: &Task,
) -> Result<String, AllocError>
    ensures told { IfOk result (λ text. TellsFault (F.inputs files.old) fault.now task.now (string_bytes text)) }
    ensures shown { IfOk result (λ text. list_all is_shown (string_bytes text) ≡ true) }
    ensures replaced { F.replaced files.new ≡ F.replaced files.old }
{
    match fault {
        RunFault::Signature(refusal) => refusal_hint(alloc, *refusal),
        RunFault::Key(key) => on_key(alloc, files, fault, *key, task),
        _ => on_mistake(alloc, files, fault, task),
    }
}

// Where a key is refused.
fn on_key<F: AgentFiles>(
    alloc: Global,
    files: &mut F,
    fault: &RunFault,
    key: KeyFault,
    task: &Task,
) -> Result<String, AllocError>
    requires { fault.now ≡ Key key }
    ensures told { IfOk result (λ text. TellsKey (F.inputs files.old) key task.now (quoting_of task.now) (string_bytes text)) }
    ensures shown { IfOk result (λ text. list_all is_shown (string_bytes text) ≡ true) }
    ensures replaced { F.replaced files.new ≡ F.replaced files.old }
{
    match quoting_of(task) {
        None => on_mistake(alloc, files, fault, task),
        Some(_) => key_hint(alloc, key),
    }
}

// Where an input is refused that may be another by mistake; if it is none that can be told, what the table advises.
fn on_mistake<F: AgentFiles>(
    alloc: Global,
    files: &mut F,
    fault: &RunFault,
    task: &Task,
) -> Result<String, AllocError>
    ensures told { IfOk result (λ text. TellsMistake (F.inputs files.old) fault.now task.now (string_bytes text)) }
    ensures shown { IfOk result (λ text. list_all is_shown (string_bytes text) ≡ true) }
    ensures replaced { F.replaced files.new ≡ F.replaced files.old }
{
    let Some((input, wanted)) = refused_input(task, fault) else {
        return advice_of(alloc, fault);
    };
    let Some(head) = head_of(alloc, files, input)? else {
        return advice_of(alloc, fault);
    };
    match mistake_in(wanted, &head) {
        None => advice_of(alloc, fault),
        Some(mistake) => rendered_mistake(alloc, input, mistake),
    }
}

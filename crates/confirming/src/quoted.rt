//! The registers that match by a quote: those that are required of it, and that the list does not extend.

ghost use Rattle.std.specs.Prelude.{◌≡◌, ◌++◌, List, map, option_map, IfErr, IfOk, OnOk};
ghost use Rattle.agent_inputs.specs.declared.fault.RunFault.TheVariants.{Memory};
ghost use Rattle.attestations.specs.Quoted.{bank_selection_of};
ghost use Rattle.boot_verdict.specs.Names.{IsRequirementText, ReadsAsLog};
ghost use Rattle.pcr_values.specs.declared.selection.BankRange.{BankRange};
ghost use Rattle.judging.specs.Requests.{Attests, attested_of};
ghost use Rattle.rendering.specs.Rendering.{IsRefusalOn};
ghost use Rattle.confirming.specs.Matching.{AreMatched, ByQuote, asked_on, is_confirmed, is_of_log, place_at, places_by, places_in, quoted_places};

use crate::confirmation::Matched;
use agent_inputs::{AgentFiles, RunFault};
use agent_plans::Scope;
use attestations::Selected;
use boot_verdict::{LIST_REGISTER, Requirement};
use judging::{Answer, Answered, AttestRequest, Input, Request, answer_request};
use measured_data::Pcr;
use pcr_banks::REGISTERS;
use pcr_values::SelectionFault;
use rendering::status_of_answer;
use std::alloc::{AllocError, Global};

/// The registers that match after the log in these bytes by a quote of it and of a list: if all is well with the answer to what is asked of
/// the quote, those that are required of it, each in the banks in which it is required, but for the list's; else none. The status is that of the
/// answer.
pub(crate) fn quoted_in<F: AgentFiles>(
    alloc: Global,
    files: &mut F,
    log: &[u8],
    asked: AttestRequest<'_>,
) -> Result<Matched, RunFault>
    ensures matched { IfOk result (λ matched. AreMatched (F.inputs files.old) (ByQuote (attested_of asked.entry)) log.now
        (option_map (λ places. places.items) matched.places) matched.status) }
    ensures known { IfOk result (λ _. ReadsAsLog log.now) }
    ensures fault { IfErr result (IsRefusalOn (F.inputs files.old) (Attests (asked_on log.now (attested_of asked.entry)))) }
    ensures inputs { F.inputs files.new ≡ F.inputs files.old }
    ensures replaced { F.replaced files.new ≡ F.replaced files.old }
{
    let request = asked_on(log, asked);
    let given = answer_request(alloc, files, Request::Attestation(request))?;
    let required = required_in(alloc, asked.required)?;
    Ok(Matched {
        places: Some(places_by(alloc, &required, &given)?),
        status: status_of_answer(&given),
    })
}

// The registers that the text requires.
fn required_in(alloc: Global, text: &[u8]) -> Result<Requirement, RunFault>
    ensures found { IfOk result (IsRequirementText text.now) }
    // A text that requires some is read, unless memory runs out.
    ensures only { (ranges : List BankRange) → IsRequirementText text.now ranges → IfErr result (λ fault. fault ≡ Memory) }
{
    match Requirement::from_text(alloc, text) {
        Ok(requirement) => Ok(requirement),
        Err(SelectionFault::Malformed { .. } | SelectionFault::LacksPcr10) => Err(RunFault::Usage),
        Err(SelectionFault::Memory) => Err(RunFault::Memory),
    }
}

// What is asked of the quote on the log in these bytes, and on a whole list.
fn asked_on<'a>(log: &'a [u8], asked: AttestRequest<'a>) -> AttestRequest<'a>
    ensures { attested_of result ≡ asked_on log.now (attested_of asked.entry) }
{
    AttestRequest {
        log: Input::Bytes(log),
        scope: Scope::Whole,
        resume: None,
        ..asked
    }
}

// The registers that match by an answer: none, unless all is well with it.
fn places_by(
    alloc: Global,
    required: &Requirement,
    given: &Answered,
) -> Result<Vec<Pcr>, AllocError>
    ensures { IfOk result (λ places. places.items ≡ places_by required.now given.now.is_success given.now.answer) }
{
    match (given.is_success, &given.answer) {
        (true, Answer::Attestation(report)) => quoted_places(
            alloc,
            required,
            &report.quoted.selections,
        ),
        _ => Ok(Vec::new(alloc)),
    }
}

// The required registers that these selections are of, but for the list's.
fn quoted_places(
    alloc: Global,
    required: &Requirement,
    selections: &[Selected],
) -> Result<Vec<Pcr>, AllocError>
    ensures { IfOk result (λ places. places.items ≡ quoted_places required.now (map bank_selection_of selections.now)) }
{
    let mut places = Vec::new(alloc);
    for selection in selections {
        push_places(required, selection, &mut places)?;
    }
    Ok(places)
}

// Appends those of one bank.
fn push_places(
    required: &Requirement,
    selection: &Selected,
    places: &mut Vec<Pcr>,
) -> Result<(), AllocError>
    ensures { OnOk result (places.new.items ≡ places.old.items ++ places_in required.now (bank_selection_of selection.now)) }
{
    for register in 0..REGISTERS {
        if is_confirmed(required, selection, register) {
            places.push(Pcr {
                alg: selection.alg,
                register,
            })?;
        }
    }
    Ok(())
}

// Whether a quote of this selection confirms the register: it is required in this bank, and the quote is of the value that the log alone gives it.
fn is_confirmed(required: &Requirement, selection: &Selected, register: u32) -> bool
    ensures { result ≡ is_confirmed required.now selection.now.bits.items (place_at selection.now.alg register) }
{
    required.names(selection.alg, register) && is_of_log(selection, register)
}

// Whether the quote is of the register's value, which the log alone gives it.
fn is_of_log(selection: &Selected, register: u32) -> bool
    ensures { result ≡ is_of_log selection.now.bits.items register }
{
    register != LIST_REGISTER && selection.selects(register)
}

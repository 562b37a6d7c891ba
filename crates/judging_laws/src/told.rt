//! What an answer tells of a log whose H-CRTM event tells where the machine started.

ghost use Rattle.std.specs.Prelude.{◌≡◌, List, ℕ, None, Some, true};
ghost use Rattle.agent_inputs.specs.Opening.{told};
ghost use Rattle.agent_inputs.specs.Loading.{Inputs};
ghost use Rattle.agent_plans.specs.declared.plan.Scope.TheVariants.{Whole};
ghost use Rattle.judging.specs.declared.request.Answered.{Answered};
ghost use Rattle.judging.specs.Answering.{IsAttestation, IsComparison};
ghost use Rattle.judging.specs.Inputs.{FileOf, HcrtmLogOf};
ghost use Rattle.judging.specs.Requests.{AttestRequested, Compared, log_of};
ghost use Rattle.judging_laws.specs.QuotedLogs.{QuotesLog};

use crate::quoted::successful_answer_quotes_the_log;

/// On which bytes of a file an answer is, if these are known: where the H-CRTM event of its log tells where the machine started, on the log with
/// what that tells; else on the log as it stands. `comparison`, `compared_as_it_stands`: so it is where registers are compared. `attestation`,
/// `attested_as_it_stands`: and where log and list are judged by a quote. `quoted`: if all is well with an answer by a quote on a whole list, the
/// quote is of the registers after the log with what the event tells: PCR 0 began where that says.
pub fn hcrtm_answer_is_on_the_told_log()
    ensures comparison { (inputs : Inputs) (request : Compared) (given : Answered) (is : IsComparison inputs request given) (name log : List ℕ)
        → log_of request.judgement ≡ Some (HcrtmLogOf name) → inputs.held (Some name) ≡ Some log → is.evidence.log ≡ told log }
    ensures compared_as_it_stands { (inputs : Inputs) (request : Compared) (given : Answered) (is : IsComparison inputs request given)
        (name log : List ℕ) → log_of request.judgement ≡ Some (FileOf name) → inputs.held (Some name) ≡ Some log → is.evidence.log ≡ log }
    ensures attestation { (inputs : Inputs) (asked : AttestRequested) (given : Answered) (is : IsAttestation inputs asked given) (name log : List ℕ)
        → asked.log ≡ HcrtmLogOf name → inputs.held (Some name) ≡ Some log → is.log ≡ told log }
    ensures attested_as_it_stands { (inputs : Inputs) (asked : AttestRequested) (given : Answered) (is : IsAttestation inputs asked given)
        (name log : List ℕ) → asked.log ≡ FileOf name → inputs.held (Some name) ≡ Some log → is.log ≡ log }
    ensures quoted { (inputs : Inputs) (asked : AttestRequested) (given : Answered) (is : IsAttestation inputs asked given) (name log : List ℕ)
        → given.is_success ≡ true → asked.scope ≡ Whole → asked.resume ≡ None → asked.log ≡ HcrtmLogOf name → inputs.held (Some name) ≡ Some log
        → QuotesLog (told log) is.quote }
{
    successful_answer_quotes_the_log();
}

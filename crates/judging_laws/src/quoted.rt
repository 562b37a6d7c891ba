//! What an answer by a quote tells of a log's registers.

ghost use Rattle.std.specs.Prelude.{◌≡◌, None, true};
ghost use Rattle.agent_inputs.specs.Loading.{Inputs};
ghost use Rattle.agent_plans.specs.declared.plan.Scope.TheVariants.{Whole};
ghost use Rattle.judging.specs.declared.request.Answered.{Answered};
ghost use Rattle.judging.specs.Answering.{IsAttestation};
ghost use Rattle.judging.specs.Requests.{AttestRequested};
ghost use Rattle.judging_laws.specs.QuotedLogs.{QuotesLog};

use crate::attested::answer_tells_attestation;

/// If all is well with an answer by a quote on a whole list, the quote is of the values of registers after the log and the list; and of each
/// register but the list's this value is the one after the log, before any list.
pub fn successful_answer_quotes_the_log()
    ensures { (inputs : Inputs) (asked : AttestRequested) (given : Answered) (is : IsAttestation inputs asked given) → given.is_success ≡ true
        → asked.scope ≡ Whole → asked.resume ≡ None → QuotesLog is.log is.quote }
{
    answer_tells_attestation();
}

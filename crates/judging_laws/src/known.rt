//! What an answer tells where files have to be known.

ghost use Rattle.std.specs.Prelude.{◌≡◌, ◌<◌, length, true};
ghost use Rattle.agent_inputs.specs.Loading.{Inputs};
ghost use Rattle.judging.specs.declared.request.Answered.{Answered};
ghost use Rattle.judging.specs.Answering.{IsAttestation, IsComparison, checkpoint_of};
ghost use Rattle.judging.specs.Requests.{AttestRequested, Compared};
ghost use Rattle.judging_laws.specs.KnownEntries.{TellsKnown};

use known_files::laws::each_is_known;

/// Where files have to be known, and all is well with an answer, no entry is told unknown: each entry that the answer is on is known by the
/// texts, but for those of a checkpoint that was gone on from; the first of the list is known, or one of the boot aggregate.
pub fn successful_answer_has_known_entries()
    ensures comparison { (inputs : Inputs) (request : Compared) (given : Answered) (is : IsComparison inputs request given) → given.is_success ≡ true
        → 0 < length request.known → TellsKnown inputs request.known request.list is.evidence.checkpoint given }
    ensures attestation { (inputs : Inputs) (asked : AttestRequested) (given : Answered) (is : IsAttestation inputs asked given) → given.is_success ≡ true
        → 0 < length asked.known → TellsKnown inputs asked.known asked.list (checkpoint_of is.state) given }
{
    each_is_known();
}

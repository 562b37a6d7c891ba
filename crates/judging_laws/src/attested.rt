//! What an answer by a quote tells.

ghost use Rattle.std.specs.Prelude.{◌≡◌, None, true};
ghost use Rattle.agent_inputs.specs.Loading.{Inputs};
ghost use Rattle.agent_plans.specs.declared.plan.Scope.TheVariants.{Prefix, Whole};
ghost use Rattle.judging.specs.declared.request.Answered.{Answered};
ghost use Rattle.judging.specs.Answering.{IsAttestation, OfList, checkpoint_of};
ghost use Rattle.judging.specs.Inputs.{OfInput};
ghost use Rattle.judging.specs.Requests.{AttestRequested};
ghost use Rattle.judging_laws.specs.AttestedAnswers.{TellsAttested, TellsSomeAttested};

/// What an answer by a quote tells, if all is well with it. `whole`: where the whole list is judged, log and list are attested, just as
/// `attestations::attest` attests them. `prefix`: where the confirmed prefix is asked for, the log and the prefix are, or the log and the
/// whole list.
/// `resumed` and `resumed_prefix`: where the input continues a list that was judged before, so are the log and the list that both make, or
/// its prefix, whichever list with that checkpoint was judged.
pub fn answer_tells_attestation()
    ensures whole { (inputs : Inputs) (asked : AttestRequested) (given : Answered) (is : IsAttestation inputs asked given) → given.is_success ≡ true
        → asked.scope ≡ Whole → asked.resume ≡ None → OfInput inputs asked.list (TellsAttested inputs asked given is) }
    ensures prefix { (inputs : Inputs) (asked : AttestRequested) (given : Answered) (is : IsAttestation inputs asked given) → given.is_success ≡ true
        → asked.scope ≡ Prefix → asked.resume ≡ None → OfInput inputs asked.list (TellsSomeAttested inputs asked given is) }
    ensures resumed { (inputs : Inputs) (asked : AttestRequested) (given : Answered) (is : IsAttestation inputs asked given) → given.is_success ≡ true
        → asked.scope ≡ Whole → OfList inputs asked.list (checkpoint_of is.state) (TellsAttested inputs asked given is) }
    ensures resumed_prefix { (inputs : Inputs) (asked : AttestRequested) (given : Answered) (is : IsAttestation inputs asked given) → given.is_success ≡ true
        → asked.scope ≡ Prefix → OfList inputs asked.list (checkpoint_of is.state) (TellsSomeAttested inputs asked given is) }
{}

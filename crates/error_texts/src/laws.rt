//! Laws: consequences of the definitions, each the contract of a function that does nothing.

ghost use Rattle.agent_inputs.specs.declared.fault.RunFault.{RunFault};
ghost use Rattle.agent_inputs.specs.Faults.{fault_head};
ghost use Rattle.error_texts.specs.Sentences.{HasSentence};

/// Each error has a sentence, but that a text is not hexadecimal, and those that name a file.
pub fn each_error_has_a_sentence()
    ensures { (fault : RunFault) → HasSentence (fault_head fault) }
{}

//! Laws: consequences of the definitions, each the contract of a function that does nothing.

ghost use Rattle.std.specs.Prelude.{◌≡◌, ◌<◌, ℕ, Bool, List, Option, Some};
ghost use Rattle.agent_inputs.specs.declared.fault.RunFault.{RunFault};
ghost use Rattle.cells.specs.declared.writer.Form.{Form};
ghost use Rattle.judging.specs.Inputs.{Where};
ghost use Rattle.rendering.specs.declared.summary.Summary.{Summary};
ghost use Rattle.ima_verify_c.specs.Answers.{IsAnswerAndNext, info_of};
ghost use Rattle.ima_verify_c.specs.ErrorTexts.{HasText};
ghost use Rattle.ima_verify_c.specs.Requests.{IsOfSomeList, requested_of_list, requested_of_more, requested_of_verdict, resume_of};

/// A report by expected PCRs that a call gives with 0 compared some PCR: by `ima_verify_raw_verdict`, by `ima_verify_raw_replay`, and by
/// `ima_verify_raw_more`, if the checkpoint in its state is that of some list.
pub fn match_compares_some()
    ensures verdict { (log : List ℕ) (old_kernel : Bool) (list expected require : List ℕ) (known : List Where) (form : Form) (text : List ℕ)
        (fault : Option RunFault) (state : List ℕ) (summary : Summary)
        → IsAnswerAndNext (requested_of_verdict log old_kernel list expected require known) form text 0 fault state summary → 0 < summary.compared }
    ensures list { (list expected require : List ℕ) (known : List Where) (form : Form) (text : List ℕ) (fault : Option RunFault) (state : List ℕ)
        (summary : Summary) → IsAnswerAndNext (requested_of_list list expected require known) form text 0 fault state summary
        → 0 < summary.compared }
    ensures more { (log : List ℕ) (old_kernel : Bool) (before more expected require : List ℕ) (known : List Where) (prefix : Bool) (form : Form)
        (text : List ℕ) (fault : Option RunFault) (state : List ℕ) (summary : Summary) → IsOfSomeList (resume_of before)
        → IsAnswerAndNext (requested_of_more log old_kernel before more expected require known prefix) form text 0 fault state summary
        → 0 < summary.compared }
{}

/// Each error that a call reports has a text, which [`crate::error_text`] gives.
pub fn each_error_has_a_text()
    ensures { (size : ℕ) (fault : RunFault) → HasText (info_of size (Some fault)) }
{}

//! Laws: consequences of the definitions, each the contract of a function that does nothing.

ghost use Rattle.std.specs.Prelude.{◌≡◌, ℕ, ◌⊎◌, List, Some};
ghost use Rattle.agent_inputs.specs.declared.fault.RunFault.{RunFault};
ghost use Rattle.agent_inputs.specs.declared.fault.RunFault.TheVariants.{Memory};
ghost use Rattle.agent_inputs.specs.Loading.{Inputs, IsReadFailure};
ghost use Rattle.cells.specs.declared.writer.Form.TheVariants.{Text};
ghost use Rattle.ima_agent.specs.Showing.{IsWholeList, StopsInFile};

/// A fault of a list, or that it is too long, is shown alone, if its bytes are known. What breaks off its lines as text is that memory ran out, or
/// that the file could not be read again.
pub fn faults_of_a_list_are_alone()
    ensures { (inputs : Inputs) (name list text : List ℕ) (fault : RunFault) → inputs.held (Some name) ≡ Some list
        → IsWholeList inputs name → StopsInFile (Some Text) inputs name text fault
        → IsReadFailure inputs (Some name) fault ⊎ (fault ≡ Memory) }
{}

//! Laws: consequences of the definitions, each the contract of a function that does nothing.

ghost use Rattle.std.specs.Prelude.{◌≡◌, ℕ, List, ◌++◌, codes, Some, IfSome};
ghost use Rattle.json.specs.Find.{get};
ghost use Rattle.agent_inputs.specs.declared.fault.RunFault.{RunFault};
ghost use Rattle.agent_inputs.specs.Faults.{fault_head};
ghost use Rattle.cells.specs.Cells.{rendered};
ghost use Rattle.cells.specs.Values.{IsCount, IsOneLine, object_of};
ghost use Rattle.cells.specs.declared.writer.Form.TheVariants.{Text};
ghost use Rattle.rendering.specs.FaultTexts.{fault_cell, fault_line, told_cell};
ghost use Rattle.rendering.specs.SummaryLines.{outcome_word, summary_line};
ghost use Rattle.rendering.specs.declared.summary.Outcome.TheVariants.{Match};
ghost use Rattle.rendering.specs.declared.summary.Summary.{Summary};

/// The JSON of a fault is one line: its text reads back as the value, and has no line feed. Its numbers are such as code holds. It has a
/// member `fault`, which no other value has (`event_lines::laws`, `entry_lines::laws`, `answers::laws`).
pub fn each_fault_is_one_line()
    ensures line { (fault : RunFault) → IfSome (fault_head fault).number IsCount → IfSome (fault_head fault).place IsCount
        → IsOneLine (object_of (fault_cell fault).json) }
    ensures member { (fault : RunFault) → get (codes "fault") (object_of (fault_cell fault).json) ≡ Some (object_of (told_cell fault).json) }
{}

/// What [`crate::write_fault`] writes is the text of what is told of the fault.
pub fn fault_lines_are_of_cells()
    ensures { (fault : RunFault) → rendered Text (fault_cell fault) ≡ fault_line fault }
{}

/// The line of a verdict begins with its word and a colon, and only that of a match begins with `match`.
pub fn lines_of_verdicts_begin_with_them()
    ensures word { (summary : Summary) → (rest : List ℕ) × (summary_line summary ≡ outcome_word summary.verdict ++ (codes ": " ++ rest)) }
    ensures alone { (summary : Summary) (rest : List ℕ) → summary_line summary ≡ codes "match" ++ rest → summary.verdict ≡ Match }
{}

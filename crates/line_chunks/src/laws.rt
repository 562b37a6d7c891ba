//! Laws: what pieces one after another are, each the contract of a function that does nothing.

ghost use Rattle.std.specs.Prelude.{◌≡◌, ℕ, List, [], ◌++◌, flat_map, Option};
ghost use Rattle.agent_inputs.specs.declared.fault.RunFault.{RunFault as AFault};
ghost use Rattle.cells.specs.declared.writer.Form.{Form};
ghost use Rattle.measured_data.specs.declared.confirmed.Pcr.{Pcr as APcr};
ghost use Rattle.line_chunks.specs.declared.piece.PieceEnd.TheVariants.{Last};
ghost use Rattle.line_chunks.specs.declared.piece.Piece.{Piece as APiece};
ghost use Rattle.line_chunks.specs.declared.piece.LineOffset.{LineOffset as AnOffset};
ghost use Rattle.cells.specs.ItemLines.{EndsWithFault};
ghost use Rattle.entry_lines.specs.ListLines.{AreAllEntries};
ghost use Rattle.event_lines.specs.LogLines.{AreAllEvents};
ghost use Rattle.line_chunks.specs.Pieces.{AreEntriesBefore, FailsAfterEntries, entries_of, whole_in, AreEventsBefore, FailsAfterEvents, events_of, AreInTurn, IsGiven, IsLineOf, log_lines, start};

/// No line comes before the first position.
pub fn lines_begin_at_the_start()
    ensures entries { (form : Form) (list : List ℕ) → AreEntriesBefore form list start [] }
    ensures events { (matched : Option (List APcr)) (log : List ℕ) → AreEventsBefore matched log start [] }
{}

/// Pieces of a list one after another, the first from the start and each other from where the one before it ended, whatever room each had,
/// have the lines of all entries up to where the last one ended.
pub fn entries_in_turn_are_those_of_the_list()
    ensures { (form : Form) (list : List ℕ) (pieces : List APiece) (end : AnOffset) → AreInTurn (entries_of form list) start pieces end
        → AreEntriesBefore form list end (flat_map (λ piece. piece.text.items) pieces) }
{}

/// Pieces of a log one after another have its lines, as those of a list do.
pub fn events_in_turn_are_those_of_the_log()
    ensures { (matched : Option (List APcr)) (log : List ℕ) (pieces : List APiece) (end : AnOffset) → AreInTurn (events_of matched log) start pieces end
        → AreEventsBefore matched log end (flat_map (λ piece. piece.text.items) pieces) }
{}

/// Pieces of a list up to the last one show all of it; and up to where a fault comes next, with the line of the fault after them, what
/// can be read of it. As JSON this is the text of `show --json` (`ShowsEntries` of `ima_agent`, which is made of these words).
pub fn entries_to_the_end_are_what_is_shown()
    ensures all { (form : Form) (list : List ℕ) (pieces : List APiece) (position : AnOffset) (piece : APiece)
        → AreInTurn (entries_of form list) start pieces position → IsGiven (entries_of form list) position piece → piece.end ≡ Last
        → AreAllEntries (whole_in form) list (flat_map (λ piece. piece.text.items) pieces ++ piece.text.items) }
    ensures fault { (form : Form) (list : List ℕ) (pieces : List APiece) (end : AnOffset) (fault : AFault) (line : List ℕ) (status : ℕ)
        → AreInTurn (entries_of form list) start pieces end
        → ((before : List ℕ) → AreEntriesBefore form list end before → FailsAfterEntries form list before fault)
        → EndsWithFault (FailsAfterEntries form list) (IsLineOf fault line status) (flat_map (λ piece. piece.text.items) pieces ++ line) status }
{}

/// Pieces of a log show it as those of a list do: this is the text of `events --json` (`ShowsTold` of `ima_agent`), with the registers that match, if
/// these are the same for each piece.
pub fn events_to_the_end_are_what_is_shown()
    ensures all { (matched : Option (List APcr)) (log : List ℕ) (pieces : List APiece) (position : AnOffset) (piece : APiece)
        → AreInTurn (events_of matched log) start pieces position → IsGiven (events_of matched log) position piece → piece.end ≡ Last
        → AreAllEvents (log_lines matched log) log (flat_map (λ piece. piece.text.items) pieces ++ piece.text.items) }
    ensures fault { (matched : Option (List APcr)) (log : List ℕ) (pieces : List APiece) (end : AnOffset) (fault : AFault) (line : List ℕ) (status : ℕ)
        → AreInTurn (events_of matched log) start pieces end
        → ((before : List ℕ) → AreEventsBefore matched log end before → FailsAfterEvents matched log before fault)
        → EndsWithFault (FailsAfterEvents matched log) (IsLineOf fault line status) (flat_map (λ piece. piece.text.items) pieces ++ line) status }
{}

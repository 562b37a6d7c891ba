//! Laws: consequences of the definitions, each the contract of a function that does nothing.

ghost use Rattle.std.specs.Prelude.{◌≡◌, ℕ, List, Some};
ghost use Rattle.agent_inputs.specs.Loading.{Inputs};
ghost use Rattle.judging.specs.Requests.{AttestRequested};
ghost use Rattle.measured_data.specs.declared.confirmed.Pcr.{Pcr as APcr};
ghost use Rattle.confirming.specs.Matching.{AreMatched, AreRequiredBy, ByQuote, Confirmation};
ghost use Rattle.confirming.specs.Places.{SpellsPlaces, matching_text};

/// What [`crate::write_matching`] wrote, [`crate::read_matching`] reads back: the text of the registers that match spells these (`written`), and no
/// text spells others too (`once`).
pub fn places_read_back()
    ensures written { (inputs : Inputs) (confirmation : Confirmation) (log : List ℕ) (places : List APcr) (status : ℕ)
        → AreMatched inputs confirmation log (Some places) status → SpellsPlaces (matching_text places) places }
    ensures once { (text : List ℕ) (first second : List APcr) → SpellsPlaces text first → SpellsPlaces text second → first ≡ second }
{}

/// By a quote a register matches only in a bank in which the text requires it: what else root had the TPM quote confirms nothing.
pub fn only_required_registers_match()
    ensures { (inputs : Inputs) (asked : AttestRequested) (log : List ℕ) (places : List APcr) (status : ℕ)
        → AreMatched inputs (ByQuote asked) log (Some places) status → AreRequiredBy asked.required places }
{}

//! Laws: consequences of the definitions, each the contract of a function that does nothing.

ghost use Rattle.std.specs.Prelude.{◌≡◌, ℕ, List, ◌++◌, codes};
ghost use Rattle.terminal_colors.specs.States.{reset, sequence_of};
ghost use Rattle.terminal_colors.specs.Lines.{IsPlain, colored, colored_line, plain};
ghost use Rattle.terminal_colors.specs.declared.states.Style.TheVariants.{Green, Red};

/// Without the sequences a coloured text is the text again, if this has none of its own. Hence two texts that are coloured alike are
/// the same.
pub fn colors_say_nothing()
    ensures plain { (text : List ℕ) → IsPlain text → plain (colored text) ≡ text }
    ensures same { (first second : List ℕ) → IsPlain first → IsPlain second → colored first ≡ colored second → first ≡ second }
{}

/// `verdict match` is green, and only a line that is exactly that is shown so.
pub fn green_verdicts_match()
    ensures green { colored_line (codes "verdict match\n") ≡ codes "verdict " ++ (sequence_of Green ++ (codes "match" ++ (reset ++ codes "\n"))) }
    ensures only { (line : List ℕ) → IsPlain line
        → colored_line line ≡ codes "verdict " ++ (sequence_of Green ++ (codes "match" ++ (reset ++ codes "\n")))
        → line ≡ codes "verdict match\n" }
{}

/// What is refused or failed is red, and nothing that follows has a colour.
pub fn faults_are_red()
    ensures refused { (rest : List ℕ) → colored (codes "refused: " ++ rest) ≡ sequence_of Red ++ (codes "refused:" ++ (reset ++ (codes " " ++ rest))) }
    ensures failed { (rest : List ℕ) → colored (codes "failed: " ++ rest) ≡ sequence_of Red ++ (codes "failed:" ++ (reset ++ (codes " " ++ rest))) }
{}

//! Laws: consequences of the definitions, each the contract of a function that does nothing.

ghost use Rattle.std.specs.Prelude.{◌≡◌, ℕ, List};
ghost use Rattle.tpm_quotes.specs.Spelling.{IsQuote, TpmQuote};

/// A quote has one reading.
pub fn quote_has_one_reading()
    ensures { (bytes : List ℕ) (first second : TpmQuote) → IsQuote bytes first → IsQuote bytes second → first ≡ second }
{}

//! What a quote tells of registers.

ghost use Rattle.std.specs.Prelude.{◌≡◌, ◌⊎◌, true};
ghost use Rattle.tpm_quotes.specs.Spelling.{TpmQuote};
ghost use Rattle.tpm_quotes.specs.Quoting.{Values, confirms};
ghost use Rattle.binding_laws.specs.QuoteBinding.{AgreeWhereSelected, HaveSizes, QuotesCollide};

/// What a quote tells of the registers: two sets of values of which it is agree in each register that it selects, and each such
/// register has a value; or the values collide under the quote's hash.
pub fn quote_tells_values()
    ensures { (quote : TpmQuote) (values others : Values) → HaveSizes values → HaveSizes others → confirms quote values ≡ true
        → confirms quote others ≡ true → AgreeWhereSelected quote values others ⊎ QuotesCollide quote values quote others }
{}

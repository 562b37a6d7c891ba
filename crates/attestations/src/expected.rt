//! Expected registers that nobody has signed, beside a quote.

ghost use Rattle.std.specs.Prelude.{◌≡◌, filter};
ghost use Rattle.tpm_quotes.specs.Spelling.{quote_of, selects};
ghost use Rattle.attestations.specs.Confirming.{are_confirmed, confirmed_by, expected_value, expected_values};

use pcr_banks::{Alg, Digest};
use pcr_values::Expected;
use tpm_quotes::{Quote, RegisterValues};

/// What came of the values of expected registers, which nobody has signed.
#[derive(Clone, Copy, Debug, PartialEq, Eq)]
pub enum ExpectedValues {
    /// None were given.
    NotGiven,
    /// The quote is of them: each register that it selects is among them, and the hash of their values is its digest.
    Confirmed,
    /// The quote is not of them, so they are not used.
    Unconfirmed,
}

/// Keeps of these registers those that count: if the quote is of their values those that it selects, in their order, since it says nothing of
/// others; if it is not of them none. Of a register of a bank that comes twice the first value is meant; [`pcr_values::read_expected`] gives
/// none twice.
pub fn keep_confirmed(quote: &Quote<'_>, expected: &mut Vec<Expected>) -> ExpectedValues
    ensures values { result ≡ expected_values (quote_of quote.now) expected.old.items }
    ensures kept { expected.new.items ≡ confirmed_by (quote_of quote.now) expected.old.items }
{
    if are_confirmed(quote, expected) {
        keep_selected(quote, expected);
        return ExpectedValues::Confirmed;
    }
    expected.clear();
    ExpectedValues::Unconfirmed
}

// Whether the quote is of the values of these registers.
fn are_confirmed(quote: &Quote<'_>, expected: &[Expected]) -> bool
    ensures { result ≡ are_confirmed (quote_of quote.now) expected.now }
{
    quote.is_of(&Stated { expected })
}

// Keeps the registers that the quote selects.
fn keep_selected(quote: &Quote<'_>, expected: &mut Vec<Expected>)
    ensures { expected.new.items ≡ filter (λ e. selects (quote_of quote.now).selections e.alg e.register) expected.old.items }
{
    expected.retain(|expected| quote.selects(expected.alg, expected.register));
}

// The values that expected registers state.
#[derive(Clone, Copy)]
struct Stated<'a> {
    expected: &'a [Expected],
}

impl RegisterValues for Stated<'_> {
    ghost values = { λ stated. expected_value stated.expected.now };

    fn value_of(&self, alg: Alg, register: u32) -> Option<Digest> {
        let expected = self.expected.iter().find(|expected| expected.alg == alg
            && expected.register == register)?;
        Some(expected.value)
    }
}

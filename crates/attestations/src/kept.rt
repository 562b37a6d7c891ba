//! The banks that a quote asks for.

ghost use Rattle.std.specs.Prelude.{◌≡◌, ◌&&◌, ◌||◌, ℕ, if◌then◌else◌, map, None};
ghost use Rattle.pcr_banks.specs.declared.alg.Alg.{Alg};
ghost use Rattle.pcr_banks.specs.Names.{has_alg, same_alg, value_at};
ghost use Rattle.tpm_quotes.specs.Spelling.{quote_of, selection_of};
ghost use Rattle.attestations.specs.Kept.{HaveSame, algs_of, is_asked};

use pcr_banks::{Alg, AlgSet, Banks};
use tpm_quotes::{Quote, QuotedSelection};

/// These banks without those from which the quote selects nothing: the values of the selected registers stay.
pub(crate) fn banks_for(banks: &Banks, quote: &Quote<'_>) -> Banks
    ensures selected { HaveSame (quote_of quote.now).selections result banks.now }
    ensures values { (a : Alg) (r : ℕ) → value_at result a r
        ≡ (if is_asked (quote_of quote.now).selections a then value_at banks.now a r else None) }
{
    banks.keep(quoted_algs(quote))
}

/// The algorithms of the banks from which the quote selects.
pub fn quoted_algs(quote: &Quote<'_>) -> AlgSet
    ensures { result ≡ algs_of (quote_of quote.now).selections }
{
    algs_of(quote.selections())
}

// The algorithms of the selections.
fn algs_of(selections: &[QuotedSelection<'_>]) -> AlgSet
    ensures { result ≡ algs_of (map selection_of selections.now) }
{
    let mut algs = AlgSet::empty();
    for alg in &Alg::ALL {
        algs = with_asked(algs, selections, *alg);
    }
    algs
}

// Adds the algorithm to the set if there is a selection of its bank.
fn with_asked(algs: AlgSet, selections: &[QuotedSelection<'_>], alg: Alg) -> AlgSet
    ensures { (a : Alg) → has_alg result a ≡ ((same_alg a alg && is_asked (map selection_of selections.now) alg) || has_alg algs a) }
{
    if is_asked(selections, alg) {
        algs.with(alg)
    } else {
        algs
    }
}

// Whether there is a selection of the algorithm's bank.
fn is_asked(selections: &[QuotedSelection<'_>], alg: Alg) -> bool
    ensures { result ≡ is_asked (map selection_of selections.now) alg }
{
    selections
        .iter()
        .any(|selection| selection.alg.tpm_id() == alg.tpm_id())
}

//! The banks that expected registers ask for.

ghost use Rattle.std.specs.Prelude.{◌≡◌, ◌&&◌, ◌||◌, ℕ, if◌then◌else◌, None};
ghost use Rattle.pcr_banks.specs.declared.alg.Alg.{Alg};
ghost use Rattle.pcr_banks.specs.Names.{has_alg, same_alg, value_at};
ghost use Rattle.boot_verdict.specs.parts.Kept.{HaveSame, algs_of, is_asked};

use pcr_banks::{Alg, AlgSet, Banks};
use pcr_values::Expected;

/// These banks without those of which no register is expected: the values of the others stay.
pub(crate) fn banks_for(banks: &Banks, expected: &[Expected]) -> Banks
    ensures asked { HaveSame expected.now result banks.now }
    ensures values { (a : Alg) (r : ℕ) → value_at result a r ≡ (if is_asked expected.now a then value_at banks.now a r else None) }
{
    banks.keep(algs_of(expected))
}

/// These banks without those of which no register is expected, but with those of these algorithms: the values of all others are none.
pub(crate) fn banks_with(banks: &Banks, expected: &[Expected], more: AlgSet) -> Banks
    ensures asked { HaveSame expected.now result banks.now }
    ensures values { (a : Alg) (r : ℕ) → value_at result a r
        ≡ (if has_alg more a || is_asked expected.now a then value_at banks.now a r else None) }
{
    banks.keep(more.union(algs_of(expected)))
}

// The algorithms of the expected registers.
fn algs_of(expected: &[Expected]) -> AlgSet
    ensures { result ≡ algs_of expected.now }
{
    let mut algs = AlgSet::empty();
    for alg in &Alg::ALL {
        algs = with_asked(algs, expected, *alg);
    }
    algs
}

// Adds the algorithm to the set if some register of its bank is expected.
fn with_asked(algs: AlgSet, expected: &[Expected], alg: Alg) -> AlgSet
    ensures { (a : Alg) → has_alg result a ≡ ((same_alg a alg && is_asked expected.now alg) || has_alg algs a) }
{
    if is_asked(expected, alg) {
        algs.with(alg)
    } else {
        algs
    }
}

// Whether some register of the algorithm's bank is expected.
fn is_asked(expected: &[Expected], alg: Alg) -> bool
    ensures { result ≡ is_asked expected.now alg }
{
    expected.iter().any(|expected| expected.alg == alg)
}

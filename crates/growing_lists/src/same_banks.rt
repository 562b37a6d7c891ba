//! Whether two sets of registers have the same values.

ghost use Rattle.std.specs.Prelude.{◌≡◌, true};
ghost use Rattle.pcr_banks.specs.Names.{is_active};
ghost use Rattle.growing_lists.specs.CheckpointData.{AreSameBanks, SameActive};

use pcr_banks::laws::banks_are_what_they_hold;
use pcr_banks::{Alg, Banks};

/// Whether the same banks are active, and all registers have the same values.
pub(crate) fn are_same_banks(first: &Banks, second: &Banks) -> bool
    ensures same { result ≡ true → AreSameBanks first.now second.now }
    ensures only { AreSameBanks first.now second.now → result ≡ true }
{
    banks_are_what_they_hold(first, second);
    first == second
}

/// Whether the same banks are active.
pub(crate) fn are_same_active(first: &Banks, second: &Banks) -> bool
    ensures same { result ≡ true → SameActive first.now second.now }
    ensures only { SameActive first.now second.now → result ≡ true }
{
    is_same_active(first, second, Alg::Sha1)
        && is_same_active(first, second, Alg::Sha256)
        && is_same_active(first, second, Alg::Sha384)
        && is_same_active(first, second, Alg::Sha512)
}

// Whether the bank of one algorithm is active in both or in neither.
fn is_same_active(first: &Banks, second: &Banks, alg: Alg) -> bool
    ensures active { result ≡ true → is_active first.now alg ≡ is_active second.now alg }
    ensures only { SameActive first.now second.now → result ≡ true }
{
    first.active(alg) == second.active(alg)
}

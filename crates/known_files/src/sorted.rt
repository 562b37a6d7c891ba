//! Digests in order, in which one is found fast.

ghost use Rattle.std.specs.Prelude.{◌≡◌, ℕ, List, Bool, bytes_eq};
ghost use Rattle.std.specs.List.{list_any};

use std::marker::Model;

/// Digests of N bytes, in ascending order.
#[derive(Drop)]
pub(crate) struct SortedDigests<const N: usize> {
    digests: Vec<[u8; N]>,
}

impl<const N: usize> Model for SortedDigests<N> {
    ghost use Rattle.std.specs.Prelude.{ℕ, List};
    ghost use Rattle.std.specs.List.Sorted.{IsSorted};
    ghost use Rattle.std.specs.Cmp.Lexicographic.{slice_cmp};
    ghost use Rattle.std.specs.Ordering.{nat_cmp};

    ghost Value = { List (List ℕ) };

    ghost view = { λ sorted. sorted.digests.items };

    ghost invariant = { λ sorted. IsSorted (slice_cmp nat_cmp) sorted.digests.items };
}

impl<const N: usize> SortedDigests<N> {
    /// These digests, in order.
    pub(crate) fn sorted(digests: Vec<[u8; N]>) -> Self
        ensures { (test : List ℕ → Bool) → list_any test result ≡ list_any test digests.entry.items }
    {
        let mut digests = digests;
        digests.sort_unstable();
        digests.shrink_to_fit();
        SortedDigests { digests }
    }

    /// Whether this digest is one of them.
    pub(crate) fn has(&self, digest: &[u8; N]) -> bool
        ensures { result ≡ list_any (bytes_eq digest.now) self.now }
    {
        self.digests.binary_search(digest).is_ok()
    }
}

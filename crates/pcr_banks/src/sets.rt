ghost use Rattle.std.specs.Prelude.{◌≡◌, ◌↔◌, ◌||◌, false, Some, None, if◌then◌else◌, IsTrue};
ghost use Rattle.std.specs.List.{list_any};
ghost use Rattle.pcr_banks.specs.declared.alg.Alg.{Alg};
ghost use Rattle.pcr_banks.specs.Hashing.{all_algs, same_alg};
ghost use Rattle.pcr_banks.specs.Digests.{alg_of, bytes_of};
ghost use Rattle.pcr_banks.specs.Sets.{has_alg, digest_for, digest_in};

use crate::{Alg, Digest};

/// A set of algorithms.
#[derive(Clone, Copy, PartialEq, Eq)]
pub struct AlgSet {
    sha1: bool,
    sha256: bool,
    sha384: bool,
    sha512: bool,
}

impl AlgSet {
    /// The empty set.
    pub fn empty() -> Self
        ensures { (a : Alg) → has_alg result a ≡ false }
    {
        AlgSet {
            sha1: false,
            sha256: false,
            sha384: false,
            sha512: false,
        }
    }

    /// The set with this algorithm added.
    pub fn with(mut self, alg: Alg) -> Self
        ensures { (a : Alg) → has_alg result a ≡ (same_alg a alg || has_alg self a) }
    {
        match alg {
            Alg::Sha1 => self.sha1 = true,
            Alg::Sha256 => self.sha256 = true,
            Alg::Sha384 => self.sha384 = true,
            Alg::Sha512 => self.sha512 = true,
        }
        self
    }

    /// The algorithms of both sets.
    pub fn union(self, other: AlgSet) -> Self
        ensures { (a : Alg) → has_alg result a ≡ (has_alg self a || has_alg other a) }
    {
        AlgSet {
            sha1: self.sha1 || other.sha1,
            sha256: self.sha256 || other.sha256,
            sha384: self.sha384 || other.sha384,
            sha512: self.sha512 || other.sha512,
        }
    }

    /// Whether the set has the algorithm.
    pub fn has(self, alg: Alg) -> bool
        ensures { result ≡ has_alg self alg }
    {
        match alg {
            Alg::Sha1 => self.sha1,
            Alg::Sha256 => self.sha256,
            Alg::Sha384 => self.sha384,
            Alg::Sha512 => self.sha512,
        }
    }

    /// Whether the set is empty.
    pub fn is_empty(self) -> bool
        ensures { IsTrue result ↔ ((a : Alg) → has_alg self a ≡ false) }
    {
        !self.has_any()
    }

    // Whether the set has some algorithm.
    fn has_any(self) -> bool
        ensures { result ≡ list_any (has_alg self) all_algs }
    {
        Alg::ALL.iter().any(|alg| self.has(*alg))
    }
}

/// For each algorithm, a digest or none.
#[derive(Clone, Copy, PartialEq, Eq)]
pub struct PerBank {
    pub(crate) sha1: Option<[u8; 20]>,
    pub(crate) sha256: Option<[u8; 32]>,
    pub(crate) sha384: Option<[u8; 48]>,
    pub(crate) sha512: Option<[u8; 64]>,
}

impl PerBank {
    /// No digests.
    pub fn empty() -> Self
        ensures digest { (a : Alg) → digest_for result a ≡ None }
        ensures bytes { (a : Alg) → digest_in result a ≡ None }
    {
        PerBank {
            sha1: None,
            sha256: None,
            sha384: None,
            sha512: None,
        }
    }

    /// These digests, with this one set for its algorithm.
    pub fn with(mut self, digest: Digest) -> Self
        ensures digest { (a : Alg) → digest_for result a
            ≡ (if same_alg a (alg_of digest) then Some digest else digest_for self a) }
        ensures bytes { (a : Alg) → digest_in result a
            ≡ (if same_alg a (alg_of digest) then Some (bytes_of digest) else digest_in self a) }
    {
        match digest {
            Digest::Sha1(bytes) => self.sha1 = Some(bytes),
            Digest::Sha256(bytes) => self.sha256 = Some(bytes),
            Digest::Sha384(bytes) => self.sha384 = Some(bytes),
            Digest::Sha512(bytes) => self.sha512 = Some(bytes),
        }
        self
    }

    /// The algorithm's digest, if there is one.
    pub fn get(self, alg: Alg) -> Option<Digest>
        ensures { result ≡ digest_for self alg }
    {
        match alg {
            Alg::Sha1 => self.sha1.map(Digest::Sha1),
            Alg::Sha256 => self.sha256.map(Digest::Sha256),
            Alg::Sha384 => self.sha384.map(Digest::Sha384),
            Alg::Sha512 => self.sha512.map(Digest::Sha512),
        }
    }
}

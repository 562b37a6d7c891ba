ghost use Rattle.std.specs.Prelude.{◌≡◌, ℕ, List, [], ◌++◌};
ghost use Rattle.pcr_banks.specs.declared.alg.Alg.{Alg};
ghost use Rattle.pcr_banks.specs.Hashing.{hash_of};
ghost use Rattle.pcr_banks.specs.Digests.{digest_of};
ghost use Rattle.pcr_banks.specs.Hashers.{HasTaken};

use crate::{Alg, Digest};
use sha1::Sha1;
use sha2::{Digest as Hashes, Sha256, Sha384, Sha512};

/// Hashes the bytes (FIPS 180-4).
pub fn hash(alg: Alg, bytes: &[u8]) -> Digest
    ensures { result ≡ digest_of alg (hash_of alg bytes.now) }
{
    let mut hasher = Hasher::new(alg);
    hasher.update(bytes);
    hasher.finish()
}

/// Hashes bytes given in pieces: the result is the hash of all pieces joined (FIPS 180-4).
#[derive(Drop)]
pub struct Hasher {
    state: HashState,
}

#[derive(Drop)]
enum HashState {
    Sha1(Sha1),
    Sha256(Sha256),
    Sha384(Sha384),
    Sha512(Sha512),
}

impl Hasher {
    /// A hasher that has taken no bytes.
    pub fn new(alg: Alg) -> Self
        ensures { HasTaken result alg [] }
    {
        let state = match alg {
            Alg::Sha1 => HashState::Sha1(Sha1::new()),
            Alg::Sha256 => HashState::Sha256(Sha256::new()),
            Alg::Sha384 => HashState::Sha384(Sha384::new()),
            Alg::Sha512 => HashState::Sha512(Sha512::new()),
        };
        Hasher { state }
    }

    /// Adds the next piece.
    pub fn update(&mut self, bytes: &[u8])
        ensures { (alg : Alg) (taken : List ℕ) → HasTaken self.old alg taken → HasTaken self.new alg (taken ++ bytes.now) }
    {
        match &mut self.state {
            HashState::Sha1(hasher) => hasher.update(bytes),
            HashState::Sha256(hasher) => hasher.update(bytes),
            HashState::Sha384(hasher) => hasher.update(bytes),
            HashState::Sha512(hasher) => hasher.update(bytes),
        }
    }

    /// The hash of all pieces joined.
    pub fn finish(self) -> Digest
        ensures { (alg : Alg) (taken : List ℕ) → HasTaken self alg taken → result ≡ digest_of alg (hash_of alg taken) }
    {
        match self.state {
            HashState::Sha1(hasher) => Digest::Sha1(hasher.finalize()),
            HashState::Sha256(hasher) => Digest::Sha256(hasher.finalize()),
            HashState::Sha384(hasher) => Digest::Sha384(hasher.finalize()),
            HashState::Sha512(hasher) => Digest::Sha512(hasher.finalize()),
        }
    }
}

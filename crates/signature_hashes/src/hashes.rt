//! The hash functions of signatures (FIPS 180-4).

ghost use Rattle.std.specs.Prelude.{◌≡◌, ◌++◌, length};
ghost use Rattle.signature_hashes.specs.Hashes.{digest_of, digest_size};

use sha2::{Digest, Sha256, Sha384, Sha512};

/// The hash function of a signature.
#[derive(Clone, Copy)]
pub enum Hash {
    /// SHA-256.
    Sha256,
    /// SHA-384.
    Sha384,
    /// SHA-512.
    Sha512,
}

/// The most bytes of a digest: those of SHA-512.
pub const MOST_DIGEST_BYTES: usize = 64;

impl Hash {
    /// How many bytes a digest has.
    pub fn digest_size(self) -> usize
        ensures { result ≡ digest_size self }
    {
        match self {
            Hash::Sha256 => 32,
            Hash::Sha384 => 48,
            Hash::Sha512 => 64,
        }
    }

    /// Writes the digest of three parts, taken as one message.
    pub fn write_digest(self, first: &[u8], second: &[u8], third: &[u8], digest: &mut [u8])
        requires { length digest.old ≡ digest_size self }
        ensures { digest.new ≡ digest_of self (first.now ++ second.now ++ third.now) }
    {
        match self {
            Hash::Sha256 => digest.copy_from_slice(&joined_digest::<Sha256>(first, second, third)),
            Hash::Sha384 => digest.copy_from_slice(&joined_digest::<Sha384>(first, second, third)),
            Hash::Sha512 => digest.copy_from_slice(&joined_digest::<Sha512>(first, second, third)),
        }
    }
}

// The digest by `D` of three parts, taken as one message.
fn joined_digest<D: Digest>(first: &[u8], second: &[u8], third: &[u8]) -> D::Output
    ensures { D.digest_of (first.now ++ second.now ++ third.now) result }
{
    let mut hasher = D::new();
    hasher.update(first);
    hasher.update(second);
    hasher.update(third);
    hasher.finalize()
}

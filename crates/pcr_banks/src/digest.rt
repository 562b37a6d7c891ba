ghost use Rattle.std.specs.Prelude.{◌≡◌, ◌*◌, ◌↔◌, ◌++◌, drop, length, replicate, IsSome, IfSome, Ok};
ghost use Rattle.std.specs.List.{AllPass};
ghost use Rattle.hex.specs.Hex.{decode_of, encode_lower, is_hex_digit};
ghost use Rattle.pcr_banks.specs.Hashing.{size_of};
ghost use Rattle.pcr_banks.specs.Digests.{alg_of, bytes_of, digest_of};

use crate::Alg;
use hex::FromHex;

/// The size of the largest digest in bytes, that of SHA-512 (FIPS 180-4).
const MOST_BYTES: usize = 64;

/// The largest number of hexadecimal digits in a digest, and the size of the buffer for [`Digest::hex_into`].
pub const MOST_DIGITS: usize = 2 * MOST_BYTES;

/// A message digest: an algorithm, and as many bytes as its hash has.
#[derive(Clone, Copy, Debug, PartialEq, Eq)]
pub enum Digest {
    Sha1([u8; 20]),
    Sha256([u8; 32]),
    Sha384([u8; 48]),
    Sha512([u8; 64]),
}

impl Digest {
    /// The algorithm.
    pub fn alg(&self) -> Alg
        ensures { result ≡ alg_of self.now }
    {
        match self {
            Digest::Sha1(_) => Alg::Sha1,
            Digest::Sha256(_) => Alg::Sha256,
            Digest::Sha384(_) => Alg::Sha384,
            Digest::Sha512(_) => Alg::Sha512,
        }
    }

    /// The bytes, [`Alg::size`] of them.
    pub fn bytes(&self) -> &[u8]
        ensures value { result.now ≡ bytes_of self.now }
        ensures size { length result.now ≡ size_of (alg_of self.now) }
    {
        match self {
            Digest::Sha1(bytes) => bytes,
            Digest::Sha256(bytes) => bytes,
            Digest::Sha384(bytes) => bytes,
            Digest::Sha512(bytes) => bytes,
        }
    }

    /// The digest whose bytes are all 0x00, the reset value of most registers.
    pub fn zero(alg: Alg) -> Self
        ensures { result ≡ digest_of alg (replicate (size_of alg) 0) }
    {
        match alg {
            Alg::Sha1 => Digest::Sha1([0x00; 20]),
            Alg::Sha256 => Digest::Sha256([0x00; 32]),
            Alg::Sha384 => Digest::Sha384([0x00; 48]),
            Alg::Sha512 => Digest::Sha512([0x00; 64]),
        }
    }

    /// The digest whose bytes are all 0xFF.
    pub fn ones(alg: Alg) -> Self
        ensures { result ≡ digest_of alg (replicate (size_of alg) 255) }
    {
        match alg {
            Alg::Sha1 => Digest::Sha1([0xFF; 20]),
            Alg::Sha256 => Digest::Sha256([0xFF; 32]),
            Alg::Sha384 => Digest::Sha384([0xFF; 48]),
            Alg::Sha512 => Digest::Sha512([0xFF; 64]),
        }
    }

    /// Returns the digest with these bytes, or `None` if their number is not the algorithm's size.
    pub fn from_bytes(alg: Alg, bytes: &[u8]) -> Option<Self>
        ensures found { IsSome result ↔ (length bytes.now ≡ size_of alg) }
        ensures value { IfSome result (λ digest. digest ≡ digest_of alg bytes.now) }
    {
        match alg {
            Alg::Sha1 => Some(Digest::Sha1(array_of(bytes)?)),
            Alg::Sha256 => Some(Digest::Sha256(array_of(bytes)?)),
            Alg::Sha384 => Some(Digest::Sha384(array_of(bytes)?)),
            Alg::Sha512 => Some(Digest::Sha512(array_of(bytes)?)),
        }
    }

    /// Parses hexadecimal digits of either case. Returns `None` if the text's length is not exactly twice the algorithm's size,
    /// or if it has any other character.
    pub fn from_hex(alg: Alg, text: &[u8]) -> Option<Self>
        ensures found { IsSome result ↔ ((length text.now ≡ 2 * size_of alg) × AllPass is_hex_digit text.now) }
        ensures value { IfSome result (λ digest.
            (alg_of digest ≡ alg) × (decode_of text.now ≡ Ok (bytes_of digest))) }
    {
        match alg {
            Alg::Sha1 => Some(Digest::Sha1(decode_array(text)?)),
            Alg::Sha256 => Some(Digest::Sha256(decode_array(text)?)),
            Alg::Sha384 => Some(Digest::Sha384(decode_array(text)?)),
            Alg::Sha512 => Some(Digest::Sha512(decode_array(text)?)),
        }
    }

    /// Writes the lowercase hexadecimal digits to the start of `out` and returns their number. The rest of `out` is unchanged.
    pub fn hex_into(&self, out: &mut [u8; MOST_DIGITS]) -> usize
        ensures count { result ≡ 2 * size_of (alg_of self.now) }
        ensures written { out.new ≡ encode_lower (bytes_of self.now) ++ drop result out.old }
    {
        let bytes = self.bytes();
        let count = 2 * bytes.len();
        let _ = hex::encode_to_slice(bytes, &mut out[..count]);
        count
    }
}

// The bytes as an array, or `None` if their number is not N.
fn array_of<const N: usize>(bytes: &[u8]) -> Option<[u8; N]>
    ensures found { IsSome result ↔ (length bytes.now ≡ N) }
    ensures value { IfSome result (λ array. array ≡ bytes.now) }
{
    bytes.try_into().ok()
}

// Parses 2 N hexadecimal digits.
fn decode_array<const N: usize>(text: &[u8]) -> Option<[u8; N]>
    ensures found { IsSome result ↔ ((length text.now ≡ 2 * N) × AllPass is_hex_digit text.now) }
    ensures value { IfSome result (λ bytes. decode_of text.now ≡ Ok bytes) }
{
    <[u8; N]>::from_hex(text).ok()
}

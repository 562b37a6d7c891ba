//! RSASSA-PKCS1-v1_5 (RFC 8017, sections 8.2.2 and 9.2).

ghost use Rattle.std.specs.Prelude.{◌≡◌, ◌+◌, ◌-◌, ◌≤◌, ◌↔◌, ◌++◌, IsTrue, length};
ghost use Rattle.rsa_signatures.specs.Pkcs1.{IsModulus, IsSigned, Opens, digest_prefix, padded};

use crate::recovery::{MOST_MODULUS_BYTES, have_sizes, recover};
use signature_hashes::{Hash, MOST_DIGEST_BYTES};

/// How many bytes come before the digest in a DigestInfo.
const PREFIX_BYTES: usize = 19;

/// Whether the signature of the message is valid by RSASSA-PKCS1-v1_5.
///
/// `modulus` is big endian, of 256 to 512 bytes, the first of them not 0; `signature` has as many. For any others the answer is no.
pub fn verify(hash: Hash, modulus: &[u8], message: &[u8], signature: &[u8]) -> bool
    ensures { IsTrue result ↔ (IsModulus modulus.now × IsSigned hash modulus.now message.now signature.now) }
{
    if !have_sizes(modulus, signature) || modulus[0] == 0 {
        return false;
    }
    let mut digest_room = [0; MOST_DIGEST_BYTES];
    let digest = &mut digest_room[..hash.digest_size()];
    hash.write_digest(message, &[], &[], digest);
    opens(hash, digest, modulus, signature)
}

// Whether the signature gives the padded digest.
fn opens(hash: Hash, digest: &[u8], modulus: &[u8], signature: &[u8]) -> bool
    requires enough { 256 ≤ length modulus.now }
    requires few { length modulus.now ≤ 512 }
    requires size { length signature.now ≡ length modulus.now }
    requires digest_size { length digest.now ≤ 64 }
    ensures { IsTrue result ↔ Opens hash digest.now modulus.now signature.now }
{
    let mut encoded_room = [0; MOST_MODULUS_BYTES];
    let encoded = &mut encoded_room[..modulus.len()];
    if !recover(modulus, signature, encoded) {
        return false;
    }
    let mut expected_room = [0; MOST_MODULUS_BYTES];
    let expected = &mut expected_room[..modulus.len()];
    write_padded(&digest_prefix(hash), digest, expected);
    &*expected == &*encoded
}

// Writes the padded digest: 00 01, bytes FF, 00, and the DigestInfo.
fn write_padded(prefix: &[u8], digest: &[u8], block: &mut [u8])
    requires { length prefix.now + length digest.now + 11 ≤ length block.old }
    ensures { block.new ≡ padded (length block.old) (prefix.now ++ digest.now) }
{
    let ones = block.len() - prefix.len() - digest.len() - 3;
    let (start, rest) = block.split_at_mut(2);
    start.copy_from_slice(&[0x00, 0x01]);
    let (padding, rest) = rest.split_at_mut(ones);
    padding.fill(0xFF);
    let (separator, rest) = rest.split_at_mut(1);
    separator.copy_from_slice(&[0x00]);
    let (front, back) = rest.split_at_mut(prefix.len());
    front.copy_from_slice(prefix);
    back.copy_from_slice(digest);
}

// What comes before the digest in its DigestInfo (RFC 8017, section 9.2, note 1).
fn digest_prefix(hash: Hash) -> [u8; PREFIX_BYTES]
    ensures { result ≡ digest_prefix hash }
{
    let (info_size, number, size) = match hash {
        Hash::Sha256 => (0x31, 0x01, 0x20),
        Hash::Sha384 => (0x41, 0x02, 0x30),
        Hash::Sha512 => (0x51, 0x03, 0x40),
    };
    [
        0x30, info_size, 0x30, 0x0D, 0x06, 0x09, 0x60, 0x86, 0x48, 0x01, 0x65, 0x03, 0x04, 0x02,
        number, 0x05, 0x00, 0x04, size,
    ]
}

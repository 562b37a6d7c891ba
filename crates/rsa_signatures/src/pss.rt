//! RSASSA-PSS with MGF1, both by one hash function (RFC 8017, sections 8.1.2 and 9.1.2).

ghost use Rattle.std.specs.Prelude.{◌≡◌, ◌+◌, ◌-◌, ◌/◌, ◌%◌, ◌≤◌, ◌<◌, ◌↔◌, IsTrue, IfSome, Some, length, position};
ghost use Rattle.signature_hashes.specs.Hashes.{digest_size};
ghost use Rattle.rsa_signatures.specs.Pss.{IsEncoded, IsFullModulus, IsSalted, IsSignedPss, OpensPss, is_set, mask_block, unmasked};

use crate::recovery::{MOST_MODULUS_BYTES, have_sizes, recover};
use signature_hashes::{Hash, MOST_DIGEST_BYTES};

/// The last byte of an encoded message.
const TRAILER: u8 = 0xBC;

/// The first bit of a byte.
const FIRST_BIT: u8 = 0x80;

/// The byte between the zeros and the salt of a data block.
const SEPARATOR: u8 = 0x01;

/// What is hashed before the digest and the salt.
const ZEROS: [u8; 8] = [0; 8];

/// Whether the signature of the message is valid by RSASSA-PSS, with a salt of any length.
///
/// `modulus` is big endian, of 256 to 512 bytes, its first bit set; `signature` has as many. For any others the answer is no.
pub fn verify_pss(hash: Hash, modulus: &[u8], message: &[u8], signature: &[u8]) -> bool
    ensures { IsTrue result ↔ (IsFullModulus modulus.now × IsSignedPss hash modulus.now message.now signature.now) }
{
    if !have_sizes(modulus, signature) || modulus[0] < FIRST_BIT {
        return false;
    }
    let mut digest_room = [0; MOST_DIGEST_BYTES];
    let digest = &mut digest_room[..hash.digest_size()];
    hash.write_digest(message, &[], &[], digest);
    opens(hash, digest, modulus, signature)
}

// Whether the signature gives a message that is encoded with this digest.
fn opens(hash: Hash, digest: &[u8], modulus: &[u8], signature: &[u8]) -> bool
    requires enough { 256 ≤ length modulus.now }
    requires few { length modulus.now ≤ 512 }
    requires size { length signature.now ≡ length modulus.now }
    ensures { IsTrue result ↔ OpensPss hash digest.now modulus.now signature.now }
{
    let mut encoded_room = [0; MOST_MODULUS_BYTES];
    let encoded = &mut encoded_room[..modulus.len()];
    recover(modulus, signature, encoded) && is_encoded(hash, digest, encoded)
}

// Whether the bytes encode a message of this digest (9.1.2, from step 4 on): its masked data block, its digest with the salt, and the trailer.
fn is_encoded(hash: Hash, digest: &[u8], encoded: &[u8]) -> bool
    requires enough { 256 ≤ length encoded.now }
    requires few { length encoded.now ≤ 512 }
    ensures { IsTrue result ↔ IsEncoded hash digest.now encoded.now }
{
    let end = encoded.len() - 1;
    if encoded[end] != TRAILER || encoded[0] >= FIRST_BIT {
        return false;
    }
    let size = end - hash.digest_size();
    let salted = &encoded[size..end];
    let mut block_room = [0; MOST_MODULUS_BYTES];
    let block = &mut block_room[..size];
    block.copy_from_slice(&encoded[..size]);
    unmask(hash, salted, block);
    block[0] %= FIRST_BIT;
    is_salted(hash, digest, salted, block)
}

// Takes the mask that MGF1 makes of the seed off the bytes (appendix B.2.1).
fn unmask(hash: Hash, seed: &[u8], bytes: &mut [u8])
    requires { length bytes.old ≤ 512 }
    ensures { bytes.new ≡ unmasked hash seed.now 0 bytes.old }
{
    let size = hash.digest_size();
    let mut mask_room = [0; MOST_DIGEST_BYTES];
    let mask = &mut mask_room[..size];
    for i in 0..bytes.len() {
        write_mask(hash, seed, i, mask);
        bytes[i] ^= mask[i % size];
    }
}

// Writes the block of the mask in which this place is, over the block of the place before it.
fn write_mask(hash: Hash, seed: &[u8], place: usize, mask: &mut [u8])
    requires few { place < 512 }
    requires size { length mask.old ≡ digest_size hash }
    requires before { 0 < place % digest_size hash → mask.old ≡ mask_block hash seed.now (place / digest_size hash) }
    ensures { mask.new ≡ mask_block hash seed.now (place / digest_size hash) }
{
    let size = hash.digest_size();
    if place % size == 0 {
        hash.write_digest(seed, &((place / size) as u32).to_be_bytes(), &[], mask);
    }
}

// Whether a data block is zeros, a 1 and a salt that gives the expected digest.
fn is_salted(hash: Hash, digest: &[u8], expected: &[u8], block: &[u8]) -> bool
    requires { length block.now ≤ 512 }
    ensures { IsTrue result ↔ IsSalted hash digest.now expected.now block.now (position is_set block.now) }
{
    match first_set(block) {
        None => false,
        Some(place) => has_salt(hash, digest, expected, block, place),
    }
}

// The place of the first byte that is not 0.
fn first_set(block: &[u8]) -> Option<usize>
    requires { length block.now ≤ 512 }
    ensures value { result ≡ position is_set block.now }
    ensures bound { IfSome result (λ place. place < length block.now) }
{
    block.iter().position(|byte| *byte != 0)
}

// Whether the byte at this place is 1, and the salt after it gives the expected digest.
fn has_salt(hash: Hash, digest: &[u8], expected: &[u8], block: &[u8], place: usize) -> bool
    requires { place < length block.now }
    ensures { IsTrue result ↔ IsSalted hash digest.now expected.now block.now (Some place) }
{
    if block[place] != SEPARATOR {
        return false;
    }
    let mut found_room = [0; MOST_DIGEST_BYTES];
    let found = &mut found_room[..hash.digest_size()];
    hash.write_digest(&ZEROS, digest, &block[place + 1..], found);
    expected == &*found
}

//! Published hash values: what `pcr_banks` computes is the hash that others compute.

use pcr_banks::{Alg, Digest, Hasher, hash};
use test_kit::registers::{SHA256_OF_64_ZEROS, SHA256_OF_ABC, SHA256_OF_NOTHING};

/// The messages of 448 and of 896 bits: with their padding, two blocks of 64 bytes, and two of 128.
const BITS_448: &[u8] = b"abcdbcdecdefdefgefghfghighijhijkijkljklmklmnlmnomnopnopq";

const BITS_896: &[u8] = b"abcdefghbcdefghicdefghijdefghijkefghijklfghijklmghijklmn\
    hijklmnoijklmnopjklmnopqklmnopqrlmnopqrsmnopqrstnopqrstu";

/// Algorithm, message, and the digits of the hash. `abc`, 448 and 896 bits are the examples of NIST for FIPS 180-4 ('Examples with
/// Intermediate Values', SHA1, SHA256, SHA384 and SHA512); no bytes are the messages of length 0 in the test vectors of NIST's
/// validation program (SHAVS, `ShortMsg`); 64 zero bytes are by `sha256sum`.
const PUBLISHED: [(Alg, &[u8], &[u8]); 13] = [
    (Alg::Sha1, b"", b"da39a3ee5e6b4b0d3255bfef95601890afd80709"),
    (
        Alg::Sha1,
        b"abc",
        b"a9993e364706816aba3e25717850c26c9cd0d89d",
    ),
    (
        Alg::Sha1,
        BITS_448,
        b"84983e441c3bd26ebaae4aa1f95129e5e54670f1",
    ),
    (Alg::Sha256, b"", SHA256_OF_NOTHING),
    (Alg::Sha256, b"abc", SHA256_OF_ABC),
    (
        Alg::Sha256,
        BITS_448,
        b"248d6a61d20638b8e5c026930c3e6039a33ce45964ff2167f6ecedd419db06c1",
    ),
    (Alg::Sha256, &[0; 64], SHA256_OF_64_ZEROS),
    (
        Alg::Sha384,
        b"",
        b"38b060a751ac96384cd9327eb1b1e36a21fdb71114be0743\
        4c0cc7bf63f6e1da274edebfe76f65fbd51ad2f14898b95b",
    ),
    (
        Alg::Sha384,
        b"abc",
        b"cb00753f45a35e8bb5a03d699ac65007272c32ab0eded163\
        1a8b605a43ff5bed8086072ba1e7cc2358baeca134c825a7",
    ),
    (
        Alg::Sha384,
        BITS_896,
        b"09330c33f71147e83d192fc782cd1b4753111b173b3b05d2\
        2fa08086e3b0f712fcc7c71a557e2db966c3e9fa91746039",
    ),
    (
        Alg::Sha512,
        b"",
        b"cf83e1357eefb8bdf1542850d66d8007d620e4050b5715dc83f4a921d36ce9ce\
        47d0d13c5d85f2b0ff8318d2877eec2f63b931bd47417a81a538327af927da3e",
    ),
    (
        Alg::Sha512,
        b"abc",
        b"ddaf35a193617abacc417349ae20413112e6fa4e89a97ea20a9eeee64b55d39a\
        2192992a274fc1a836ba3c23a3feebbd454d4423643ce80e2a9ac94fa54ca49f",
    ),
    (
        Alg::Sha512,
        BITS_896,
        b"8e959b75dae313da8cf4f72814fc143f8f7779c6eb9f7fa17299aeadb6889018\
        501d289e4900f7e4331b99dec4b5433ac7d329eeb6dd26545e96e55b874be909",
    ),
];

/// The hash of the bytes, which come one by one.
fn hash_of_each(alg: Alg, bytes: &[u8]) -> Digest {
    let mut hasher = Hasher::new(alg);
    for byte in bytes {
        hasher.update(&[*byte]);
    }
    hasher.finish()
}

/// As a whole, and byte by byte.
#[test]
fn published_hash_values(rt: HostRuntime) {
    for (alg, message, digits) in PUBLISHED {
        let published = Digest::from_hex(alg, digits);
        assert_eq!(rt; Some(hash(alg, message)), published);
        assert_eq!(rt; Some(hash_of_each(alg, message)), published);
    }
}

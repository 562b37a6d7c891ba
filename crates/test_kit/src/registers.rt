//! Digests and registers of SHA-256.

use pcr_banks::{Alg, AlgSet, Banks, Digest, hash};

/// The digits of the SHA-256 of `abc`.
pub const SHA256_OF_ABC: &[u8] =
    b"ba7816bf8f01cfea414140de5dae2223b00361a396177a9cb410ff61f20015ad";

/// The digits of the SHA-256 of no bytes.
pub const SHA256_OF_NOTHING: &[u8] =
    b"e3b0c44298fc1c149afbf4c8996fb92427ae41e4649b934ca495991b7852b855";

/// The digits of the SHA-256 of 64 zero bytes: of a register at zero that zero bytes were extended into.
pub const SHA256_OF_64_ZEROS: &[u8] =
    b"f5a5fd42d16a20302798ef6ed309979b43003d2320d9f0e8ea9831a92759fb4b";

/// The digits of the boot aggregate of registers of SHA-512 at reset: the SHA-512 of 640 zero bytes.
pub const SHA512_AGGREGATE: &[u8] =
    b"aa79444dee5810832cae9935b883c71557be3d3b048ae1005c5104a43559345b\
    bea963771375065c88210ab12e14b25b83930d9f75f9666028aa1fd0df7c2225";

/// Banks of SHA-256 alone, after a start from locality 0.
pub fn start() -> Banks {
    Banks::new(AlgSet::empty().with(Alg::Sha256), 0)
}

/// The SHA-256 of these bytes.
pub fn sha256(bytes: &[u8]) -> Digest {
    hash(Alg::Sha256, bytes)
}

/// The digest of SHA-256 that has these digits.
pub fn sha256_of(digits: &[u8]) -> Result<Digest, &'static str> {
    Digest::from_hex(Alg::Sha256, digits).ok_or("no digest")
}

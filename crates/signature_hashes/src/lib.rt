//! The hash functions of signatures: SHA-256, SHA-384 and SHA-512 (FIPS 180-4). No call of this crate allocates.
#![tactic(auto)]

mod hashes;

pub use hashes::{Hash, MOST_DIGEST_BYTES};

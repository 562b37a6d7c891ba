//! Signatures by RSA keys are verified: RSASSA-PKCS1-v1_5 and RSASSA-PSS, with the public exponent 65,537 (RFC 8017).
//!
//! Moduli have 256 to 512 bytes. That the modulus is a product of two primes is not looked at.
//!
//! No call of this crate allocates. All input is public, so times may depend on it.
#![tactic(auto)]

mod pkcs1;
mod powers;
mod pss;
mod recovery;

pub use pkcs1::verify;
pub use pss::verify_pss;

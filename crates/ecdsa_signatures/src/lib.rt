//! Signatures by keys on the curves P-256 and P-384 are verified: ECDSA (FIPS 186-5, section 6.4.2).
//!
//! A valid signature is defined by the formulas on coordinates, where division is by a power (Fermat), and by doubling and adding. That points are a
//! group under them, and that the moduli are primes, is not proved: no clause needs it.
//!
//! No call of this crate allocates. All input is public, so times may depend on it.
#![tactic(auto)]

mod curves;
mod field;
mod points;
mod signing;

pub use curves::Curve;
pub use signing::verify;

//! Platform configuration registers in software: hash algorithms, digests, and the register banks of a TPM 2.0.
//!
//! No call of this crate allocates.
#![tactic(auto)]

mod alg;
mod banks;
mod digest;
mod hasher;
pub mod laws;
mod sets;

pub use alg::Alg;
pub use banks::{Banks, REGISTERS};
pub use digest::{Digest, MOST_DIGITS};
pub use hasher::{Hasher, hash};
pub use sets::{AlgSet, PerBank};

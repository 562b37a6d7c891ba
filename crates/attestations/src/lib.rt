//! The judgement on a firmware log and a measurement list by a quote of the TPM. Its signature is verified elsewhere.
//!
//! No call of this crate allocates but [`Quoted::of`].
#![tactic(auto)]

mod attested;
mod expected;
mod kept;
mod policy;
mod report;
mod signature;

pub use attested::{AttestFault, AttestedLog, Cause, attest};
pub use expected::{ExpectedValues, keep_confirmed};
pub use kept::quoted_algs;
pub use policy::{LEAST_NONCE, Policy, PolicyFault, QuoteRefusal, first_weak, quote_for};
pub use report::{AttestReport, Quoted, Selected, Whole};
pub use signature::SignatureState;

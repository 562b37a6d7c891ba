//! Quotes of a TPM 2.0: what the signed message states, and whether it is of some registers
//! (TPM 2.0 Library, part 2, 'Attestation Structures').
//!
//! No call of this crate allocates. Whether a quote is signed, by which key, is not looked at here.
#![tactic(auto)]

mod fault;
pub mod laws;
mod quote;
mod selection;

pub use fault::QuoteFault;
pub use quote::{Clock, Quote, RegisterValues, read_quote};
pub use selection::QuotedSelection;

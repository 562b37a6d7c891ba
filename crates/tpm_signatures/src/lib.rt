//! Signatures as a TPM 2.0 gives them: by which scheme, by which hash, and their numbers (TPM 2.0 Library, part 2, TPMT_SIGNATURE).
//!
//! No call of this crate allocates. Whether a signature is valid is not looked at here.
#![tactic(auto)]

mod fault;
pub mod laws;
mod reader;
mod scheme;

pub use fault::SignatureFault;
pub use reader::{Signature, SignatureNumbers, read_signature};

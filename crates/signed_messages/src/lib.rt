//! Whether a message is signed by a TPM's key: the signature is read, and verified by the scheme and the hash of the key.
//!
//! Keys are RSA keys of 2,041 to 4,096 bits (for RSASSA-PSS a multiple of 8), or on the curves P-256 and P-384; hashes are SHA-256, SHA-384 and
//! SHA-512. Only `check_signed` allocates, and only for a key in PEM.
#![tactic(auto)]

mod check;
mod check_fault;
mod ecc;
mod key;
mod key_text;
pub mod laws;
mod pem;
mod plain;
mod refusal;
mod rsa;

pub use check::check_signature;
pub use check_fault::CheckFault;
pub use key::{EccPublicKey, RsaPublicKey, RsaScheme, SigningScheme, VerifyingKey};
pub use key_text::check_signed;
pub use refusal::SignatureRefusal;

//! Public areas of keys of a TPM 2.0: what they state, whether a TPM signs with the key only what it made, and the key as other programs read
//! it (TPM 2.0 Library, part 2, TPM2B_PUBLIC and TPMT_PUBLIC).
#![tactic(auto)]

mod area;
mod der;
mod fault;
mod kinds;
mod lacks;
pub mod laws;
mod material;
mod report;

pub use area::{Cipher, PublicArea, Scheme, read_area};
pub use der::key_pem;
pub use fault::KeyFault;
pub use kinds::{Curve, KeyPart, Purpose, SchemeKind};
pub use lacks::read_key;
pub use material::Material;
pub use report::{KeyKind, KeyReport, MOST_NAME_BYTES, name_bytes};

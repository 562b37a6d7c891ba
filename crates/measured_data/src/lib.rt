//! Which part of a firmware event's data was measured: the part whose hash the event's digest is.
//!
//! No register covers an event's type and data, but only its digests. Where the event's register matches in a bank other than SHA-1, and in
//! every such bank the digest is the hash of a part of the data, the part is confirmed. The rest of the data stays a claim.
#![tactic(auto)]

mod confirmed;
mod laws;
mod measured;

pub use confirmed::{Pcr, confirmed_part, has_answer, is_answering};
pub use laws::parts_are_the_first;
pub use measured::{GRUB_REGISTER, Part, SETTINGS_REGISTER, is_measured, measured_part};
